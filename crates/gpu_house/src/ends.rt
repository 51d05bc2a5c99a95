//! The ends of streams, and of the house.
ghost use Rattle.std.specs.Prelude.{◌≡◌, ◌↔◌, ◌-◌, [], length, true, false, slice_get, IfSome};
ghost use Rattle.gpu_plan.specs.Plans.{plan_of, is_closed};
ghost use Rattle.std.specs.Option.{IsSomeAnd};
ghost use Rattle.sync_core.specs.Standing.{IsKnown, is_open};
ghost use Rattle.gpu_journal.specs.declared.event.Event.TheVariants.{Lost, Close};
ghost use Rattle.gpu_journal.specs.declared.event.Why.TheVariants as why;
ghost use Rattle.gpu_journal.specs.Waits.{standing_of};
ghost use Rattle.gpu_journal.specs.Legal.{MayClose};
ghost use Rattle.gpu_journal.specs.Written.{written};
ghost use Rattle.gpu_word.specs.Results.{Settles};
ghost use Rattle.gpu_house.specs.Changes.{Same, Appends, ResultsBelong, WroteResults};

use crate::house::House;
use crate::marking::follow;
use crate::naming::Naming;
use crate::report::Report;
use gpu_fetch::ServiceSide;
use gpu_word::Memory;
use house_core::Closing;
use wait_hooks::Hook;

impl<N: Naming, P: ServiceSide, H: Hook> House<N, P, H> {
    /// Loses a stream as out of memory, where it is neither lost nor closed. It takes the refusal, and no memory.
    pub fn lose_client(&mut self, stream: u32, refusal: Memory)
        requires known { IsKnown (length N.plans.plans) stream }
        ensures event { is_open (standing_of N.plans self.old.core.past stream) ≡ true
            → Appends self.old self.new (Lost stream why.Memory []) }
        ensures over { is_open (standing_of N.plans self.old.core.past stream) ≡ false
            → Same self.old self.new }
    {
        let House { core, hooks, .. } = self;
        core.lose_client(stream, refusal);
        core.shows_core();
        follow(core, hooks);
    }

    /// Closes a stream whose plan has a Close, once its client has come to it with each flush ordered. It takes no memory.
    pub fn close(&mut self, stream: u32) -> Closing
        requires known { IsKnown (length N.plans.plans) stream }
        requires closes { is_closed (plan_of N.plans stream).actions ≡ true }
        ensures lost { (result ≡ Closing.Lost)
            ↔ ((standing_of N.plans self.old.core.past stream).lost ≡ true) }
        ensures early { (result ≡ Closing.Early)
            ↔ ((is_open (standing_of N.plans self.old.core.past stream) ≡ true)
            × (MayClose N.plans self.old.core.past stream → ⊥)) }
        ensures event { result ≡ Closing.Closed
            → is_open (standing_of N.plans self.old.core.past stream) ≡ true
            → Appends self.old self.new (Close stream) }
        ensures same { (result ≡ Closing.Closed
            → is_open (standing_of N.plans self.old.core.past stream) ≡ true
            → ⊥) → Same self.old self.new }
    {
        let House { core, hooks, .. } = self;
        let closing = core.close(stream);
        core.shows_core();
        follow(core, hooks);
        closing
    }

    /// Takes the reader of a stream's results back, and shows that each value it was given is one that was written by then. The
    /// journal stays.
    pub fn settle(&mut self, stream: u32, words: &P::Words, reader: P::Reader)
        requires known { IsKnown (length N.plans.plans) stream }
        requires results { ResultsBelong P.results_belong words.now self.old.results stream }
        requires reader { P.reader_belongs words.now reader }
        ensures settled { IsSomeAnd (slice_get self.new.results (stream - 1))
            (λ own. IfSome (P.written own) (λ list. Settles list (P.reads reader))) }
        ensures told { IsSomeAnd (slice_get self.new.results (stream - 1))
            (λ own. IfSome (P.written own)
            (λ list. list ≡ written N.plans self.old.core.past stream)) }
        ensures core { self.new.core ≡ self.old.core }
        ensures slots { self.new.slots ≡ self.old.slots }
        ensures results { WroteResults P.results_belong words.now self.old.results
            self.new.results stream }
    {
        P::settle(&mut self.results[stream as usize - 1], words, reader);
    }

    /// What the house leaves. It takes no memory.
    pub fn report(self) -> Report
        ensures plans { result.plans ≡ N.plans }
        ensures base { result.base ≡ N.base }
        ensures past { result.past ≡ self.core.past }
    {
        let House { core, hooks, .. } = self;
        Report::of(core, hooks)
    }
}
