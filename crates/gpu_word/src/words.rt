ghost use Rattle.std.specs.Prelude.{◌≡◌};

use std::marker::Model;

/// Words that were fetched for one command, which others keep, seen as a list of pairs: a place and a value.
#[derive(Drop)]
pub struct Words<'a> {
    items: &'a [(u32, u32)],
}

impl<'a> Model for Words<'a> {
    ghost use Rattle.std.specs.Prelude.{ℕ, List};

    ghost Value = { List (ℕ × ℕ) };

    ghost view = { λ words. words.items.now };
}

impl<'a> Words<'a> {
    /// These words.
    pub fn of(items: &'a [(u32, u32)]) -> Words<'a>
        ensures { result ≡ items.now }
    {
        Words { items }
    }

    /// The words in the order in which they were fetched.
    pub fn as_slice(&self) -> &[(u32, u32)]
        ensures { result.now ≡ self.now }
    {
        self.items
    }
}
