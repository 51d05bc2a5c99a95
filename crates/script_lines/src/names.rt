ghost use Rattle.std.specs.Prelude.{◌≡◌, ◌<◌, ◌^◌, [], length, IfOk, OnOk, OnErr};
ghost use Rattle.script_lines.specs.Names.{with_name, number_in};

use gpu_cmd::Name;
use gpu_word::Memory;
use indexmap::IndexSet;
use std::alloc::Global;
use std::marker::Model;

/// The most names, so that each has a number of 32 bits.
const MOST_NAMES: usize = 4_294_967_295;

/// Names of streams, each once, in the order in which they came. There are fewer than 2^32.
#[derive(Drop)]
pub struct Names {
    set: IndexSet<Name>,
}

impl Model for Names {
    ghost use Rattle.std.specs.Prelude.{◌<◌, ◌^◌, List, length};
    ghost use Rattle.gpu_cmd.specs.declared.name.Name.{Name as NameData};

    ghost Value = { List NameData };

    ghost view = { λ n. n.set.keys };

    ghost invariant = { λ n. length n.set.keys < 2 ^ 32 };
}

impl Names {
    /// No name.
    pub fn new(alloc: Global) -> Names
        ensures { result ≡ [] }
    {
        Names {
            set: IndexSet::new(alloc),
        }
    }

    /// The names in their order.
    pub fn as_slice(&self) -> &[Name]
        ensures names { result.now ≡ self.now }
        ensures few { length self.now < 2 ^ 32 }
    {
        self.set.as_slice()
    }

    /// The number of a name, counted from 1 in the order of the names. It is put after them where it is not among them.
    ///
    /// # Errors
    ///
    /// There is no room for one more name. The names stay.
    pub fn mention(&mut self, name: Name) -> Result<u32, Memory>
        ensures names { OnOk result (self.new ≡ with_name self.old name) }
        ensures number { IfOk result (λ number. number ≡ number_in self.new name) }
        ensures same { OnErr result (self.new ≡ self.old) }
    {
        if self.set.len() >= MOST_NAMES {
            return Err(Memory::of_too_many(*self.set.allocator(), self.set.len(), 1));
        }
        let (at, _) = self.set.insert_full(name)?;
        Ok(at as u32 + 1)
    }
}
