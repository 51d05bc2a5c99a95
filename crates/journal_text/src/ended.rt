ghost use Rattle.std.specs.Prelude.{◌≡◌, ℕ, ◌<◌, List, length, map, slice_index_or};
ghost use Rattle.gpu_plan.specs.Plans.{PlansData};
ghost use Rattle.sync_core.specs.Standing.{IsKnown};
ghost use Rattle.wait_hooks.specs.Marks.{mark};
ghost use Rattle.gpu_journal.specs.declared.event.Event.{Event};
ghost use Rattle.gpu_journal.specs.World.{state_of};
ghost use Rattle.gpu_journal.specs.Waits.{endings_in};
ghost use Rattle.gpu_journal.specs.Ended.{streams_of, end_of};

use gpu_journal::End;
use gpu_plan::Plans;
use stream_state::StreamState;
use sync_core::Ending;

/// A run that has ended, as the lines of its streams and of its marks tell it.
pub trait Ended {
    // Its plans.
    ghost plans: { Self → PlansData };

    // The base of its marks.
    ghost base: { Self → ℕ };

    // Its events, the newest first.
    ghost past: { Self → List Event };

    // What has to hold so that it can be told.
    ghost fits: { Self → Type 0 } = { λ _. Unit {0} };

    /// The plans of its streams.
    fn plans(&self) -> &Plans
        ensures { result.now ≡ plans self.now };

    /// The state of a stream.
    fn stream(&self, stream: u32) -> &StreamState
        requires fits { fits self.now }
        requires known { IsKnown (length (plans self.now).plans) stream }
        ensures { result.now ≡ state_of (plans self.now) (past self.now) stream };

    /// How each stream ended.
    fn ends(&self) -> &[End]
        requires { fits self.now }
        ensures { result.now ≡ map (end_of (past self.now)) (streams_of (plans self.now)) };

    /// The waits that have ended, in order.
    fn endings(&self) -> &[Ending]
        requires { fits self.now }
        ensures { result.now ≡ endings_in (plans self.now) (past self.now) };

    /// The mark of the wait of this place, counted from 0, that has ended.
    fn mark(&self, index: usize) -> u32
        requires fits { fits self.now }
        requires within { index < length (endings_in (plans self.now) (past self.now)) }
        ensures { result ≡ slice_index_or
            (map (mark (base self.now)) (endings_in (plans self.now) (past self.now))) index 0 };
}
