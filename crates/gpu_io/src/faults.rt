ghost use Rattle.std.specs.Prelude.{◌≡◌, ◌≤◌};
ghost use Rattle.gpu_io.specs.Faults.{one_fault_more, HasRisen};

use crate::failed::Failed;
use std::marker::Model;

/// How often reads or writes have failed. At its last value the count stays.
#[derive(Drop)]
pub(crate) struct Faults {
    count: u64,
}

impl Model for Faults {
    ghost use Rattle.std.specs.Prelude.{ℕ};

    ghost Value = { ℕ };

    ghost view = { λ f. f.count };
}

impl Faults {
    /// No fault as yet.
    pub(crate) fn new() -> Faults
        ensures { result ≡ 0 }
    {
        Faults { count: 0 }
    }

    /// Counts a fault, and gives what to answer.
    pub(crate) fn fail(&mut self) -> Failed
        ensures counted { self.new ≡ one_fault_more self.old }
        ensures risen { HasRisen self.old self.new }
        ensures later { self.old ≤ self.new }
    {
        self.count = self.count.saturating_add(1);
        Failed
    }
}
