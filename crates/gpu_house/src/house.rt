ghost use Rattle.std.specs.Prelude.{◌≡◌, [], length, map, replicate, true, IfOk, IfSome};
ghost use Rattle.std.specs.List.{All};
ghost use Rattle.gpu_plan.specs.Passes.{greatest};
ghost use Rattle.sync_core.specs.Standing.{IsKnown, is_open};
ghost use Rattle.wait_hooks.specs.Marks.{mark};
ghost use Rattle.gpu_journal.specs.World.{known, state_of, replay};
ghost use Rattle.gpu_journal.specs.Waits.{endings_in, standing_of};
ghost use Rattle.gpu_journal.specs.Legal.{IsLegal};
ghost use Rattle.house_core.specs.Core.{names_of, IsFresh};
ghost use Rattle.house_core.specs.Desks.{at_home};
ghost use Rattle.gpu_house.specs.Making.{fresh_slots, AreFreshSides, AreFreshResults};
ghost use Rattle.gpu_house.specs.Ending.{doing_of};
ghost use Rattle.gpu_house.specs.Names.{table_at};
ghost use Rattle.gpu_house.specs.Slots.{slot_at};

use crate::answers::Doing;
use crate::doing::doing;
use crate::making::slots_of;
use crate::naming::Naming;
use crate::slot::Slot;
use gpu_books::{Book, Half};
use gpu_fetch::ServiceSide;
use gpu_journal::Journal;
use gpu_plan::Plans;
use gpu_store::Images;
use gpu_word::Memory;
use house_core::Core;
use std::alloc::Global;
use std::marker::{Model, PhantomData};
use stream_state::StreamState;
use sync_core::Ending;
use wait_hooks::{Hook, Hooks};

/// What the lock keeps: the core with its journal, and beside it the sides that are at home with the notes that none has met, the
/// hooks, and the results of each stream.
///
/// Contracts see the core, the sides and notes, and the results. The marks follow from the journal.
#[derive(Drop)]
pub struct House<N: Naming, P: ServiceSide, H: Hook> {
    pub(crate) alloc: Global,
    pub(crate) core: Core,
    pub(crate) slots: Vec<Slot<P, P::Note>>,
    pub(crate) hooks: Hooks<H>,
    pub(crate) results: Vec<P::Results>,
    pub(crate) of: PhantomData<N>,
}

impl<N: Naming, P: ServiceSide, H: Hook> Model for House<N, P, H> {
    ghost use Rattle.gpu_house.specs.House.{HouseData, HouseInvariant};

    ghost Value = { HouseData P P.Note P.Results };

    ghost view = { λ h. record {
      core = h.core;
      slots = h.slots.items;
      results = h.results.items;
    } };

    ghost invariant = { λ h. HouseInvariant P.side P.table P.mark P.note_of P.takes P.written
        P.results_of N.plans N.base N.words N.books N.result_words h.hooks
        record { core = h.core; slots = h.slots.items; results = h.results.items } };
}

impl<N: Naming, P: ServiceSide, H: Hook> House<N, P, H> {
    /// A house without events, over one fresh side, fresh results and one fresh book for each plan, in order.
    pub fn make(
        alloc: Global,
        plans: Plans,
        hook: H,
        sides: Vec<P>,
        results: Vec<P::Results>,
        books: Vec<(Book, Half, Half)>,
    ) -> Result<House<N, P, H>, Memory>
        requires plans { plans ≡ N.plans }
        requires base { H.base hook ≡ N.base }
        requires sides { AreFreshSides P.side P.table plans.plans N.words sides.items }
        requires results { AreFreshResults P.takes P.written P.results_of (table_at N.result_words)
            1 plans.plans results.items }
        requires books { (names_of books.items ≡ N.books)
            × (length books.items ≡ length plans.plans) }
        requires fresh { All IsFresh books.items }
        ensures past { IfOk result (λ house. house.core.past ≡ []) }
        ensures plans { IfOk result (λ house. house.core.plans ≡ plans) }
        ensures outs { IfOk result
            (λ house. house.core.outs ≡ replicate (length plans.plans) at_home) }
        ensures slots { IfOk result (λ house. house.slots ≡ fresh_slots sides.items) }
        ensures results { IfOk result (λ house. house.results ≡ results.items) }
    {
        let core = Core::make(alloc, plans, books)?;
        core.shows_core();
        let slots = slots_of(alloc, sides)?;
        Ok(House {
            alloc,
            core,
            slots,
            hooks: Hooks::make(alloc, hook),
            results,
            of: PhantomData,
        })
    }

    /// The plans of the streams.
    pub fn plans(&self) -> &Plans
        ensures { result.now ≡ N.plans }
    {
        self.core.plans()
    }

    /// The journal. It is legal.
    pub fn journal(&self) -> &Journal
        ensures past { result.now.events ≡ self.now.core.past }
        ensures legal { IsLegal N.plans self.now.core.past }
    {
        self.core.journal()
    }

    /// Shows that the journal is legal. It changes nothing.
    pub fn shows_legal(&self)
        ensures { IsLegal N.plans self.now.core.past }
    {
        self.core.shows_legal();
    }

    /// The images: what the journal's steps drew.
    pub fn images(&self) -> &Images
        ensures { result.now ≡ replay N.plans self.now.core.past }
    {
        self.core.images()
    }

    /// The state of a stream: what its steps left.
    pub fn stream(&self, stream: u32) -> &StreamState
        requires { IsKnown (length N.plans.plans) stream }
        ensures { result.now ≡ state_of N.plans self.now.core.past stream }
    {
        self.core.stream(stream)
    }

    /// The waits that have ended, in order.
    pub fn endings(&self) -> &[Ending]
        ensures { result.now ≡ endings_in N.plans self.now.core.past }
    {
        self.core.endings()
    }

    /// The mark of each wait that has ended, in order: what the stored callback answered.
    pub fn marks(&self) -> &[u32]
        ensures { result.now ≡ map (mark N.base) (endings_in N.plans self.now.core.past) }
    {
        self.hooks.marks()
    }

    /// How many flushes of a stream are finished.
    pub fn finishes(&self, stream: u32) -> u32
        requires { IsKnown (length N.plans.plans) stream }
        ensures value { result ≡ (known N.plans self.now.core.past stream).finished }
        ensures home { is_open (standing_of N.plans self.now.core.past stream) ≡ true
            → IfSome (slot_at self.now.slots stream).side
            (λ side. (P.side side).finished ≡ result) }
    {
        self.core.finishes(stream)
    }

    /// The greatest token that a stream has set, or 0.
    pub fn greatest(&self, stream: u32) -> u32
        requires { IsKnown (length N.plans.plans) stream }
        ensures value { result ≡ greatest (known N.plans self.now.core.past stream).tokens }
        ensures home { is_open (standing_of N.plans self.now.core.past stream) ≡ true
            → IfSome (slot_at self.now.slots stream).side
            (λ side. (P.side side).greatest ≡ result) }
    {
        self.core.greatest(stream)
    }

    /// What a stream is doing.
    pub fn state(&self, stream: u32) -> Doing
        requires { IsKnown (length N.plans.plans) stream }
        ensures { result ≡ doing_of N.plans self.now.core.past stream }
    {
        doing(&self.core, stream)
    }
}
