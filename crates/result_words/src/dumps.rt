ghost use Rattle.std.specs.Prelude.{◌≡◌, [], ◌∷◌, ◌++◌, OnOk, OnErr};

use gpu_word::Memory;
use std::marker::Model;

/// What the client of one stream has read of its results, seen as the list of (action place, result place, value).
#[derive(Drop)]
pub struct Dumps {
    items: Vec<(u32, u32, u32)>,
}

impl Model for Dumps {
    ghost use Rattle.std.specs.Prelude.{ℕ, List};

    ghost Value = { List (ℕ × ℕ × ℕ) };

    ghost view = { λ dumps. dumps.items.items };
}

impl Dumps {
    /// These dumps: of each the place of its action, the result place and the value.
    pub fn of(items: Vec<(u32, u32, u32)>) -> Dumps
        ensures { result ≡ items.items }
    {
        Dumps { items }
    }

    /// One dump more: the place of its action, the result place and the value.
    ///
    /// # Errors
    ///
    /// `Memory`: where the room is too small and cannot be grown.
    pub fn push(&mut self, action: u32, place: u32, value: u32) -> Result<(), Memory>
        ensures pushed { OnOk result (self.new ≡ self.old ++ (action, place, value) ∷ []) }
        ensures same { OnErr result (self.new ≡ self.old) }
    {
        self.items.push((action, place, value))?;
        Ok(())
    }

    /// Forgets all dumps. It takes no memory.
    pub fn clear(&mut self)
        ensures { self.new ≡ [] }
    {
        self.items.clear();
    }

    /// The dumps that were read, in the order of the script.
    pub fn as_slice(&self) -> &[(u32, u32, u32)]
        ensures { result.now ≡ self.now }
    {
        &self.items
    }
}
