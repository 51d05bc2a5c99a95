//! Whether something is left to do.
ghost use Rattle.std.specs.Prelude.{◌≡◌, ◌≢◌, length, false, IsTrue};
ghost use Rattle.sync_core.specs.Standing.{IsKnown};
ghost use Rattle.gpu_journal.specs.Waits.{standing_of};
ghost use Rattle.gpu_journal.specs.Complete.{IsComplete};
ghost use Rattle.gpu_house.specs.Ending.{doing_of};

use gpu_hall::Hall;
use gpu_house::{Doing, Naming};
use wait_hooks::Hook;

// Whether nothing is left to do for a stream.
fn is_over<N: Naming, H: Hook>(hall: &Hall<N, H>, stream: u32) -> bool
    requires { IsKnown (length N.plans.plans) stream }
    ensures over { IsTrue result → doing_of N.plans hall.now.past stream ≢ Doing.Open }
    ensures undone { result ≡ false → doing_of N.plans hall.now.past stream ≡ Doing.Open }
{
    match hall.state(stream) {
        Doing::Open => false,
        Doing::AllDone => true,
        Doing::Lost => true,
        Doing::Closed => true,
    }
}

/// Whether nothing is left to do for any stream.
#[tactic(auto, using(crate::proofs::Complete::complete, crate::proofs::Complete::one_more_over, crate::proofs::Complete::open_left))]
pub(crate) fn all_over<N: Naming, H: Hook>(hall: &Hall<N, H>) -> bool
    ensures complete { IsTrue result → IsComplete N.plans hall.now.past }
    ensures left { result ≡ false → IsComplete N.plans hall.now.past → ⊥ }
{
    for stream in 1..=hall.count() {
        if !is_over(hall, stream) {
            return false;
        }
    }
    true
}

/// Whether a stream is lost.
#[tactic(auto, using(crate::proofs::Told::when_lost, crate::proofs::Told::when_open, crate::proofs::Told::when_done, crate::proofs::Told::when_closed))]
pub(crate) fn is_lost<N: Naming, H: Hook>(hall: &Hall<N, H>, stream: u32) -> bool
    requires { IsKnown (length N.plans.plans) stream }
    ensures { result ≡ (standing_of N.plans hall.now.past stream).lost }
{
    match hall.state(stream) {
        Doing::Open => false,
        Doing::AllDone => false,
        Doing::Lost => true,
        Doing::Closed => false,
    }
}
