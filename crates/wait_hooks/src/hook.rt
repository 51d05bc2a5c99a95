ghost use Rattle.std.specs.Prelude.{◌≡◌, ℕ, List, Option, None};
ghost use Rattle.sync_core.specs.declared.ending.Ending.{Ending};
ghost use Rattle.wait_hooks.specs.Marks.{mark, told_one_more};

use crate::marks::mark;
use std::marker::Model;
use sync_core::Ending;

/// A callback for the end of a wait, which is stored and called once for each.
///
/// Contracts see the base of its marks, and the endings that it got, where it tells them. It may do whatever it likes
/// beside answering the mark.
pub trait Hook: Drop {
    // The base of the marks.
    ghost base: { Self → ℕ };

    // The endings that it got, in order, where it tells them.
    ghost told: { Self → Option (List Ending) } = { λ hook. None };

    /// The base of the marks.
    fn base(&self) -> u32
        ensures { result ≡ base self.now };

    /// A wait has ended. Answers its mark over the base.
    fn ended(&mut self, ending: Ending) -> u32
        ensures mark { result ≡ mark (base self.old) ending }
        ensures base { base self.new ≡ base self.old }
        ensures told { told self.new ≡ told_one_more (told self.old) ending };
}

/// A callback that answers the mark, and does nothing else. Seen as its base.
#[derive(Drop)]
pub struct Marker {
    base: u32,
}

impl Model for Marker {
    ghost use Rattle.std.specs.Prelude.{ℕ};

    ghost Value = { ℕ };

    ghost view = { λ m. m.base };
}

impl Marker {
    /// A callback over a base.
    pub fn make(base: u32) -> Marker
        ensures { result ≡ base }
    {
        Marker { base }
    }
}

impl Hook for Marker {
    ghost base = { λ m. m };

    fn base(&self) -> u32 {
        self.base
    }

    fn ended(&mut self, ending: Ending) -> u32 {
        mark(self.base, ending)
    }
}
