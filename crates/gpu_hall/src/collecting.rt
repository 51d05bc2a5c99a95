//! Flushes come to the house by their queues.
ghost use Rattle.std.specs.Prelude.{◌≡◌, ◌<◌, length, true, if◌then◌else◌};
ghost use Rattle.gpu_plan.specs.Plans.{plan_of};
ghost use Rattle.gpu_plan.specs.Passes.{flushes};
ghost use Rattle.gpu_plan.specs.Places.{mark_of};
ghost use Rattle.sync_core.specs.Standing.{IsKnown, is_open};
ghost use Rattle.gpu_journal.specs.World.{known};
ghost use Rattle.gpu_journal.specs.Waits.{standing_of};
ghost use Rattle.gpu_house.specs.Names.{table_at};
ghost use Rattle.gpu_hall.specs.Collecting.{OrderedOrLost, HasLooked, HasCollectedFrom, HasCollected, GrewBy};

use crate::full_pass::FullPass;
use crate::hall::Hall;
use flush_queue::FlushQueue;
use gpu_house::{House, Naming, OrderRefused};
use shm_words::Note;
use std::sync::Wait;
use sync_core::OrderFault;
use wait_hooks::Hook;

// Orders the next flush of an open stream, or loses the stream as out of memory.
fn order_or_lose<N: Naming, H: Hook>(house: &mut House<N, FullPass, H>, stream: u32, note: Note)
    requires known { IsKnown (length N.plans.plans) stream }
    requires next { (known N.plans house.old.core.past stream).ordered
        < flushes (plan_of N.plans stream).actions }
    requires open { is_open (standing_of N.plans house.old.core.past stream) ≡ true }
    requires mark { note.mark
        ≡ mark_of (plan_of N.plans stream) (known N.plans house.old.core.past stream).ordered }
    requires table { note.table ≡ table_at N.words stream }
    ensures came { OrderedOrLost N.plans stream house.old.core.past house.new.core.past }
    ensures outs { house.new.core.outs ≡ house.old.core.outs }
{
    match house.order(stream, note) {
        Ok(_) => {}
        Err(
            OrderRefused {
                why: OrderFault::Memory(memory),
                note: _,
            },
        ) => house.lose_client(stream, memory),
        Err(_) => unreachable!(),
    }
}

impl<N: Naming, H: Hook> Hall<N, H> {
    // Takes the next flush of a stream, where there is one, and orders it. That of a lost stream is dropped.
    fn collect_next<R: Wait>(&mut self, rt: &R, stream: u32, queue: &FlushQueue) -> bool
        requires known { IsKnown (length N.plans.plans) stream }
        requires queue { queue.now ≡ table_at N.queues stream }
        ensures { HasLooked N.plans stream (if result then 1 else 0) self.old self.new }
    {
        let Hall { house, takers, .. } = self;
        let Some(note) = queue.take_next(rt, &mut takers[stream as usize - 1]) else {
            return false;
        };
        if house.is_lost(stream) {
            return true;
        }
        house.shows_legal();
        order_or_lose(house, stream, note);
        true
    }

    /// Takes flushes from the queue of a stream until that gives none, and orders each, as `collect` does for all streams. It says
    /// how many it took, and takes no more than can be said. That it ends only where the queue gives none, tests alone show.
    #[tactic(auto, using(crate::proofs::Collected::none_from, crate::proofs::Collected::next_from))]
    pub fn collect_from<R: Wait>(&mut self, rt: &R, stream: u32, queue: &FlushQueue) -> u32
        requires known { IsKnown (length N.plans.plans) stream }
        requires queue { queue.now ≡ table_at N.queues stream }
        ensures came { HasCollectedFrom N.plans stream self.old.past self.new.past }
        ensures count { GrewBy N.plans stream result self.old.past self.new.past }
        ensures outs { self.new.outs ≡ self.old.outs }
        ensures view { self.new.view ≡ self.old.view }
    {
        for count in 0..u32::MAX {
            if !self.collect_next(rt, stream, queue) {
                return count;
            }
        }
        u32::MAX
    }

    /// For each stream in rising number, takes flushes from its queue until that gives none, and orders each. Those of a lost stream are
    /// dropped. Where memory is wanted for an order, its stream is lost. That no flush is left behind, tests alone show.
    #[tactic(auto, using(crate::proofs::Collected::none_collected, crate::proofs::Collected::all_collected))]
    pub fn collect<R: Wait>(&mut self, rt: &R, queues: &[FlushQueue])
        requires queues { queues.now ≡ N.queues }
        requires many { length N.queues ≡ length N.plans.plans }
        ensures came { HasCollected N.plans self.old.past self.new.past }
        ensures outs { self.new.outs ≡ self.old.outs }
        ensures view { self.new.view ≡ self.old.view }
    {
        for stream in 1..=self.count() {
            self.collect_from(rt, stream, &queues[stream as usize - 1]);
        }
    }
}
