ghost use Rattle.std.specs.Prelude.{◌≡◌, ◌↔◌, IsTrue};
ghost use Rattle.gpu_io.specs.InMemory.{IsFailing, with_call};

use std::marker::Model;

/// How many calls were made, and the numbers, from 1, of those that fail.
#[derive(Drop)]
pub(crate) struct Calls {
    made: u64,
    fails: Vec<u32>,
}

impl Model for Calls {
    ghost use Rattle.gpu_io.specs.InMemory.{CallsData};

    ghost Value = { CallsData };

    ghost view = { λ c. record { made = c.made; fails = c.fails.items } };
}

impl Calls {
    /// No call as yet.
    pub(crate) fn new(fails: Vec<u32>) -> Calls
        ensures { result ≡ record { made = 0; fails = fails.items } }
    {
        Calls { made: 0, fails }
    }

    /// Counts the call that is being made, and says whether it is one of those that fail.
    pub(crate) fn is_next_failing(&mut self) -> bool
        ensures counted { self.new ≡ with_call self.old }
        ensures answer { IsTrue result ↔ IsFailing self.new }
    {
        self.made = self.made.saturating_add(1);
        let call = self.made;
        self.fails.iter().any(|number| u64::from(*number) == call)
    }
}
