//! Orders: the next flush of a stream draws the next order number.
ghost use Rattle.std.specs.Prelude.{◌≡◌, ◌↔◌, ◌+◌, length, slice_get, true, IfOk, OnErr, IsErrOf, IsSome};
ghost use Rattle.gpu_plan.specs.Plans.{plan_of};
ghost use Rattle.gpu_plan.specs.Places.{flush_places};
ghost use Rattle.sync_core.specs.Standing.{IsKnown};
ghost use Rattle.gpu_journal.specs.World.{known};
ghost use Rattle.gpu_journal.specs.Waits.{standing_of, drawn};
ghost use Rattle.gpu_journal.specs.Serial.{order_event};
ghost use Rattle.house_core.specs.Core.{Stays, Grows};

use crate::core_of::{Core, take_room};
use gpu_journal::Event;
use sync_core::OrderFault;

impl Core {
    /// The first flush of a stream that has no order draws the next number, and its fences are judged.
    ///
    /// # Errors
    ///
    /// `Lost`: exactly where the stream is lost. `Memory`: nothing has changed.
    pub fn order(&mut self, stream: u32) -> Result<u32, OrderFault>
        requires known { IsKnown (length self.old.plans.plans) stream }
        requires next { IsSome
            (slice_get (flush_places (plan_of self.old.plans stream).actions)
            (known self.old.plans self.old.past stream).ordered) }
        ensures number { IfOk result (λ n. n ≡ drawn self.old.plans self.old.past + 1) }
        ensures event { IfOk result
            (λ n. Grows self.old self.new (order_event self.old.plans self.old.past stream)) }
        ensures outs { self.new.outs ≡ self.old.outs }
        ensures lost { IsErrOf result OrderFault.Lost
            ↔ ((standing_of self.old.plans self.old.past stream).lost ≡ true) }
        ensures err { OnErr result (Stays self.old self.new) }
    {
        let Core {
            plans,
            journal,
            scene,
            desks,
            owed,
            ..
        } = self;
        let desk = &desks[stream as usize - 1];
        if desk.is_lost() {
            return Err(OrderFault::Lost);
        }
        let Some(place) = desk.place(desk.ordered()) else {
            unreachable!()
        };
        take_room(journal, *owed, 2)?;
        let fences = plans.plan(stream).fences_at(place);
        let order = scene.sync.order(stream, fences)?;
        scene.sync.shows_room();
        let desk = &mut desks[stream as usize - 1];
        desk.order();
        *owed += 1;
        journal.push(Event::Order {
            stream,
            order,
            place,
        });
        Ok(order)
    }
}
