//! What each event but a step does to what is kept.
ghost use Rattle.std.specs.Prelude.{◌≡◌, ◌+◌, ◌<◌, ◌^◌, List, ◌∷◌, false, length, slice_get, Some, OnOk};
ghost use Rattle.gpu_plan.specs.Plans.{plan_of};
ghost use Rattle.sync_core.specs.Standing.{IsKnown};
ghost use Rattle.sync_core.specs.Events.{SyncEvent, Ordered, Finished, WasLost, WasClosed};
ghost use Rattle.sync_core.specs.Core.{StandsFor, unprocessed_of, blocked};
ghost use Rattle.gpu_journal.specs.Waits.{fences_in};
ghost use Rattle.journal_verify.specs.Entered.{FitsPlans, CountsAtMost, HasTurned};

use crate::judge::Judge;
use gpu_plan::Plans;
use gpu_word::Memory;
use std::alloc::Global;
use sync_core::{OrderFault, SyncCore};

// Draws a number. A stream that is open is not lost, so nothing but memory can be wanting.
fn draw(alloc: Global, core: &mut SyncCore, s: u32, fences: &[(u32, u64)]) -> Result<(), Memory>
    requires known { IsKnown (length core.old.streams) s }
    requires room { core.old.drawn + 1 < 2 ^ 32 }
    ensures drawn { OnOk result (core.new.drawn ≡ core.old.drawn + 1) }
    ensures count { length core.new.streams ≡ length core.old.streams }
    ensures stands { OnOk result ((g : List SyncEvent) → StandsFor core.old g
        → StandsFor core.new ((s, Ordered fences.now) ∷ g)) }
{
    match core.order(s, fences) {
        Ok(_) => Ok(()),
        Err(OrderFault::Memory(memory)) => Err(memory),
        // An open stream is not lost.
        Err(OrderFault::Lost) => Err(Memory::of_too_many(alloc, usize::MAX, 1)),
    }
}

impl Judge {
    /// An order of the flush at a place.
    pub(crate) fn enter_order(&mut self, plans: &Plans, s: u32, place: u32) -> Result<(), Memory>
        requires fits { FitsPlans plans.now self.old }
        requires counted { CountsAtMost 4294967294 self.old }
        requires known { IsKnown (length plans.now.plans) s }
        ensures turned { OnOk result
            (HasTurned s (Some (Ordered
            (fences_in (slice_get (plan_of plans.now s).actions place))))
            (λ k. record k { ordered = k.ordered + 1 })
            (self.old.drawn + 1) self.old.images self.old.states self.old self.new) }
        ensures fits { OnOk result (FitsPlans plans.now self.new) }
    {
        let fences = plans.plan(s).fences_at(place);
        draw(*self.watches.allocator(), &mut self.scene.sync, s, fences)?;
        self.drawn += 1;
        self.watches[s as usize - 1].order();
        Ok(())
    }

    /// A finish.
    pub(crate) fn enter_finish(&mut self, plans: &Plans, s: u32) -> Result<(), Memory>
        requires fits { FitsPlans plans.now self.old }
        requires counted { CountsAtMost 4294967294 self.old }
        requires front { 0 < length (unprocessed_of self.old.core s) }
        requires free { blocked self.old.core s ≡ false }
        ensures turned { OnOk result (HasTurned s (Some Finished)
            (λ k. record k {
              finished = k.finished + 1;
            }) self.old.drawn self.old.images self.old.states self.old self.new) }
        ensures fits { OnOk result (FitsPlans plans.now self.new) }
    {
        self.scene.sync.finish(s);
        self.watches[s as usize - 1].finish(plans.plan(s))?;
        Ok(())
    }

    /// A loss.
    pub(crate) fn enter_loss(&mut self, plans: &Plans, s: u32)
        requires fits { FitsPlans plans.now self.old }
        requires known { IsKnown (length plans.now.plans) s }
        ensures turned { HasTurned s (Some WasLost)
            (λ k. record k {
              stays = false;
            }) self.old.drawn self.old.images self.old.states self.old self.new }
        ensures fits { FitsPlans plans.now self.new }
    {
        self.scene.sync.lose(s);
        self.watches[s as usize - 1].leave();
    }

    /// A close.
    pub(crate) fn enter_close(&mut self, plans: &Plans, s: u32)
        requires fits { FitsPlans plans.now self.old }
        requires known { IsKnown (length plans.now.plans) s }
        ensures turned { HasTurned s (Some WasClosed)
            (λ k. record k {
              stays = false;
            }) self.old.drawn self.old.images self.old.states self.old self.new }
        ensures fits { FitsPlans plans.now self.new }
    {
        self.scene.sync.close(s);
        self.watches[s as usize - 1].leave();
    }
}
