ghost use Rattle.std.specs.Prelude.{◌≡◌, ◌<◌, ◌≤◌, ◌+◌, ◌^◌, [], length, replicate, IfOk, OnOk};
ghost use Rattle.std.specs.List.{All};
ghost use Rattle.gpu_plan.specs.Passes.{greatest};
ghost use Rattle.sync_core.specs.Standing.{IsKnown, is_open, first_order};
ghost use Rattle.sync_core.specs.Pending.{is_blocked};
ghost use Rattle.serial_laws.specs.Scripts.{AreLawfulPlans};
ghost use Rattle.gpu_journal.specs.World.{known, state_of, replay};
ghost use Rattle.gpu_journal.specs.Waits.{standing_of, left_of, endings_in, pending_in};
ghost use Rattle.gpu_journal.specs.Legal.{IsLegal};
ghost use Rattle.house_core.specs.Desks.{at_home};
ghost use Rattle.house_core.specs.Core.{names_of, IsFresh, is_done};
ghost use Rattle.house_core.specs.Invariant.{IsCore};

use crate::closing::ends_with_close;
use crate::desk::Desk;
use crate::making::{desks, journal, scheduler};
use gpu_books::{Book, Half};
use gpu_journal::Journal;
use gpu_plan::Plans;
use gpu_store::Images;
use gpu_word::Memory;
use seq_sched::Scheduler;
use serial_laws::plans_are_lawful;
use std::alloc::Global;
use std::marker::Model;
use step_parts::Scene;
use stream_state::StreamState;
use sync_core::{Ending, SyncCore};

/// The journal of a run, and all that is kept beside it.
///
/// Contracts see the plans, the journal with its newest event first and its room, and of each stream the name of its book
/// and the run that is out. Everything else follows from the journal.
#[derive(Drop)]
pub struct Core {
    pub(crate) alloc: Global,
    pub(crate) plans: Plans,
    pub(crate) journal: Journal,
    pub(crate) scene: Scene,
    pub(crate) scheduler: Scheduler,
    pub(crate) desks: Vec<Desk>,
    pub(crate) owed: usize,
}

impl Model for Core {
    ghost use Rattle.house_core.specs.Core.{CoreData, books_of, outs_of};
    ghost use Rattle.house_core.specs.Invariant.{CoreInvariant};

    ghost Value = { CoreData };

    ghost view = { λ c. record {
      plans = c.plans;
      past = c.journal.events;
      spare = c.journal.spare;
      books = books_of c.desks.items;
      outs = outs_of c.desks.items;
    } };

    ghost invariant = { λ c. CoreInvariant
        record {
          plans = c.plans;
          past = c.journal.events;
          spare = c.journal.spare;
          owed = c.owed;
          sync = c.scene.sync;
          seats = c.scheduler;
          images = c.scene.images;
          desks = c.desks.items;
        } };
}

impl Core {
    /// No event, and the room of each stream's end. There is one fresh book for each plan, in order.
    pub fn make(alloc: Global, plans: Plans, books: Vec<(Book, Half, Half)>) -> Result<Core, Memory>
        requires books { length books.items ≡ length plans.plans }
        requires fresh { All IsFresh books.items }
        ensures past { IfOk result (λ core. core.past ≡ []) }
        ensures plans { IfOk result (λ core. core.plans ≡ plans) }
        ensures books { IfOk result (λ core. core.books ≡ names_of books.items) }
        ensures outs { IfOk result (λ core. core.outs ≡ replicate (length plans.plans) at_home) }
    {
        plans_are_lawful(&plans);
        let count = plans.count();
        let sync = SyncCore::make(alloc, count)?;
        sync.shows_room();
        let scheduler = scheduler(alloc, &plans)?;
        let journal = journal(alloc, &plans)?;
        let desks = desks(alloc, &plans, books)?;
        let images = Images::make(alloc);
        Ok(Core {
            alloc,
            plans,
            journal,
            scene: Scene { images, sync },
            scheduler,
            desks,
            owed: count as usize,
        })
    }

    /// The plans of the streams. They are lawful.
    pub fn plans(&self) -> &Plans
        ensures plans { result.now ≡ self.now.plans }
        ensures lawful { AreLawfulPlans self.now.plans }
    {
        &self.plans
    }

    /// The journal. It is legal.
    pub fn journal(&self) -> &Journal
        ensures past { result.now.events ≡ self.now.past }
        ensures legal { IsLegal self.now.plans self.now.past }
    {
        &self.journal
    }

    /// Shows that the journal is legal. It changes nothing.
    pub fn shows_legal(&self)
        ensures { IsLegal self.now.plans self.now.past }
    {
        let _ = &self.journal;
    }

    /// The law of each core: what contracts see of it is seen of parts that keep the core's invariant. It does nothing.
    pub fn shows_core(&self)
        ensures { IsCore self.now }
    {
        let _ = &self.journal;
    }

    /// The images: what the journal's steps drew.
    pub fn images(&self) -> &Images
        ensures { result.now ≡ replay self.now.plans self.now.past }
    {
        &self.scene.images
    }

    /// The state of a stream: what its steps left.
    pub fn stream(&self, stream: u32) -> &StreamState
        requires { IsKnown (length self.now.plans.plans) stream }
        ensures { result.now ≡ state_of self.now.plans self.now.past stream }
    {
        self.desks[stream as usize - 1].state()
    }

    /// The waits that have ended, in order.
    pub fn endings(&self) -> &[Ending]
        ensures { result.now ≡ endings_in self.now.plans self.now.past }
    {
        self.scene.sync.endings()
    }

    /// How many waits are pending.
    pub fn waiting(&self) -> usize
        ensures { result ≡ length (pending_in self.now.plans self.now.past) }
    {
        self.scene.sync.waiting()
    }

    /// The first unprocessed number of a stream, or `None` where it has none.
    pub fn front(&self, stream: u32) -> Option<u32>
        ensures { result ≡ first_order (left_of self.now.plans self.now.past stream) }
    {
        self.scene.sync.front(stream)
    }

    /// Whether a wait of the first unprocessed number of a stream is pending.
    pub fn blocked(&self, stream: u32) -> bool
        ensures { result ≡ is_blocked stream (left_of self.now.plans self.now.past stream)
            (pending_in self.now.plans self.now.past) }
    {
        self.scene.sync.blocked(stream)
    }

    /// How many flushes of a stream are finished.
    pub fn finishes(&self, stream: u32) -> u32
        requires { IsKnown (length self.now.plans.plans) stream }
        ensures { result ≡ (known self.now.plans self.now.past stream).finished }
    {
        self.desks[stream as usize - 1].finished()
    }

    /// How many flushes of a stream are ordered.
    pub fn ordered(&self, stream: u32) -> u32
        requires { IsKnown (length self.now.plans.plans) stream }
        ensures { result ≡ (known self.now.plans self.now.past stream).ordered }
    {
        self.desks[stream as usize - 1].ordered()
    }

    /// The greatest token that a stream has set, or 0.
    pub fn greatest(&self, stream: u32) -> u32
        requires { IsKnown (length self.now.plans.plans) stream }
        ensures { result ≡ greatest (known self.now.plans self.now.past stream).tokens }
    {
        self.desks[stream as usize - 1].greatest()
    }

    /// Whether a stream is lost.
    pub fn is_lost(&self, stream: u32) -> bool
        requires { IsKnown (length self.now.plans.plans) stream }
        ensures { result ≡ (standing_of self.now.plans self.now.past stream).lost }
    {
        self.desks[stream as usize - 1].is_lost()
    }

    /// Whether a stream is closed.
    pub fn is_closed(&self, stream: u32) -> bool
        requires { IsKnown (length self.now.plans.plans) stream }
        ensures { result ≡ (standing_of self.now.plans self.now.past stream).closed }
    {
        self.desks[stream as usize - 1].is_closed()
    }

    /// Whether the plan of a stream has no Close, and all its flushes are ordered and finished.
    pub fn is_done(&self, stream: u32) -> bool
        requires { IsKnown (length self.now.plans.plans) stream }
        ensures { result ≡ is_done self.now.plans self.now.past stream }
    {
        let desk = &self.desks[stream as usize - 1];
        let actions = self.plans.plan(stream).actions();
        if ends_with_close(actions) {
            return false;
        }
        desk.is_all_done()
    }

    /// Whether a stream is neither lost nor closed.
    pub fn is_open(&self, stream: u32) -> bool
        requires { IsKnown (length self.now.plans.plans) stream }
        ensures { result ≡ is_open (standing_of self.now.plans self.now.past stream) }
    {
        !self.is_lost(stream) && !self.is_closed(stream)
    }
}

// Takes room for a given number of further events beside the ends that are owed.
pub(crate) fn take_room(journal: &mut Journal, owed: usize, more: usize) -> Result<(), Memory>
    ensures past { journal.new.events ≡ journal.old.events }
    ensures grows { journal.old.spare ≤ journal.new.spare }
    ensures room { OnOk result (owed + more ≤ journal.new.spare) }
    ensures bound { OnOk result (owed + more < 2 ^ 64) }
{
    match owed.checked_add(more) {
        Some(room) => journal.reserve(room),
        None => Err(Memory::of_too_many(journal.allocator(), owed, more)),
    }
}
