//! What is known of streams and of waits.
ghost use Rattle.std.specs.Prelude.{◌≡◌, ℕ, ◌-◌, length, slice_get};
ghost use Rattle.std.specs.Option.{IsSomeAnd};
ghost use Rattle.sync_core.specs.Standing.{IsKnown, is_open};
ghost use Rattle.gpu_journal.specs.Waits.{standing_of};
ghost use Rattle.gpu_house.specs.Names.{table_at};
ghost use Rattle.gpu_house.specs.Waiting.{AreWaitsOf, HaveTargets, FormNoCycle};
ghost use Rattle.gpu_house.specs.Stuck.{IsNotStuck};

use crate::answers::WaitsKept;
use crate::house::House;
use crate::naming::Naming;
use gpu_fetch::ServiceSide;
use wait_hooks::Hook;

impl<N: Naming, P: ServiceSide, H: Hook> House<N, P, H> {
    /// Whether a stream is lost.
    pub fn is_lost(&self, stream: u32) -> bool
        requires { IsKnown (length N.plans.plans) stream }
        ensures { result ≡ (standing_of N.plans self.now.core.past stream).lost }
    {
        self.core.is_lost(stream)
    }

    /// Whether a stream is neither lost nor closed.
    pub fn is_open(&self, stream: u32) -> bool
        requires { IsKnown (length N.plans.plans) stream }
        ensures { result ≡ is_open (standing_of N.plans self.now.core.past stream) }
    {
        self.core.is_open(stream)
    }

    /// What the service really keeps of waits: how many are pending, and of a stream its first unprocessed number and whether a
    /// wait of that is pending. It is what the journal says.
    pub fn waits(&self, stream: u32) -> WaitsKept
        ensures { AreWaitsOf N.plans self.now.core.past stream result }
    {
        WaitsKept {
            pending: self.core.waiting(),
            front: self.core.front(stream),
            blocked: self.core.blocked(stream),
        }
    }

    /// What the type of a house keeps, for a house that comes out of a lock. It changes nothing.
    ///
    /// - `targets`: each pending wait names another stream, which is neither lost nor closed and has a lower unprocessed number
    /// - `no_cycle`: so no waits form a cycle
    /// - `stuck`: so the stream with the least unprocessed number can run, and is at home or has its run out
    /// - `results`: there are results of each stream, of its result words
    #[tactic(auto, using(sync_core::proofs::Targets::waits_go_down, sync_core::proofs::Targets::no_cycle))]
    pub fn shows_laws(&self)
        ensures targets { HaveTargets N.plans self.now.core.past }
        ensures no_cycle { FormNoCycle N.plans self.now.core.past }
        ensures stuck { IsNotStuck N.plans self.now.core.past self.now.core.outs }
        ensures results { (stream : ℕ) → IsKnown (length N.plans.plans) stream
            → IsSomeAnd (slice_get self.now.results (stream - 1))
            (λ own. P.results_of own (table_at N.result_words stream)) }
    {
        let _ = &self.core;
    }
}
