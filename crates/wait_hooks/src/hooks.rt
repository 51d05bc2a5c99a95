ghost use Rattle.std.specs.Prelude.{◌≡◌, ◌+◌, ◌-◌, ◌<◌, [], ◌∷◌, ◌++◌, OnOk, OnErr};
ghost use Rattle.wait_hooks.specs.Marks.{mark, told_one_more};

use crate::hook::Hook;
use gpu_word::Memory;
use std::alloc::Global;
use std::marker::Model;
use sync_core::Ending;

/// The marks that a stored callback gave, in order.
///
/// Contracts see the base of the marks, the marks, for how many more there is room, and the endings that the callback
/// got, where it tells them.
#[derive(Drop)]
pub struct Hooks<H: Hook> {
    hook: H,
    marks: Vec<u32>,
    spare: usize,
}

impl<H: Hook> Model for Hooks<H> {
    ghost use Rattle.std.specs.Prelude.{◌+◌, ◌≤◌, vec_len, vec_capacity};
    ghost use Rattle.wait_hooks.specs.Marks.{Marks};

    ghost Value = { Marks };

    ghost view = { λ h. record {
      base = H.base h.hook;
      marks = h.marks.items;
      spare = h.spare;
      told = H.told h.hook;
    } };

    ghost invariant = { λ h. vec_len h.marks + h.spare ≤ vec_capacity h.marks };
}

impl<H: Hook> Hooks<H> {
    /// Hooks that have called nothing and have no room yet.
    pub fn make(alloc: Global, hook: H) -> Hooks<H>
        ensures { result ≡ record {
          base = H.base hook;
          marks = [];
          spare = 0;
          told = H.told hook;
        } }
    {
        Hooks {
            hook,
            marks: Vec::new(alloc),
            spare: 0,
        }
    }

    /// For how many more marks there is room.
    pub fn spare(&self) -> usize
        ensures { result ≡ self.now.spare }
    {
        self.spare
    }

    /// Takes room for a given number of further marks.
    pub fn reserve(&mut self, more: usize) -> Result<(), Memory>
        ensures ok { OnOk result (self.new ≡ record self.old { spare = self.old.spare + more }) }
        ensures err { OnErr result (self.new ≡ self.old) }
    {
        let Some(room) = self.spare.checked_add(more) else {
            return Err(Memory::of_too_many(*self.marks.allocator(), self.spare, more));
        };
        self.marks.reserve(room)?;
        self.spare = room;
        Ok(())
    }

    /// Calls the callback once with an ending, keeps its answer as the last mark, and answers it.
    pub fn ended(&mut self, ending: Ending) -> u32
        requires room { 0 < self.old.spare }
        ensures mark { result ≡ mark self.old.base ending }
        // It is reported once, and nothing else is.
        ensures told { self.new.told ≡ told_one_more self.old.told ending }
        ensures marks { self.new.marks ≡ self.old.marks ++ result ∷ [] }
        ensures spare { self.new.spare ≡ self.old.spare - 1 }
        ensures base { self.new.base ≡ self.old.base }
    {
        let mark = self.hook.ended(ending);
        self.marks.push_reserved(mark);
        self.spare -= 1;
        mark
    }

    /// The marks of the endings given, in order.
    pub fn marks(&self) -> &[u32]
        ensures { result.now ≡ self.now.marks }
    {
        self.marks.as_slice()
    }

    /// The callback, which hears no more, and the marks of the endings given, in order.
    pub fn into_marks(self) -> (H, Vec<u32>)
        ensures base { H.base result.0 ≡ self.base }
        ensures told { H.told result.0 ≡ self.told }
        ensures marks { result.1.items ≡ self.marks }
    {
        (self.hook, self.marks)
    }
}
