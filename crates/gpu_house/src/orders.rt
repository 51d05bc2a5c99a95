//! Orders: a flush that its client has made draws the next order number.
ghost use Rattle.std.specs.Prelude.{◌≡◌, ◌↔◌, ◌+◌, ◌<◌, ◌∷◌, length, true, IfOk, IfErr, OnOk, OnErr, IsErrAnd};
ghost use Rattle.gpu_plan.specs.Plans.{plan_of};
ghost use Rattle.gpu_plan.specs.Passes.{flushes};
ghost use Rattle.gpu_plan.specs.Places.{mark_of};
ghost use Rattle.sync_core.specs.Standing.{IsKnown};
ghost use Rattle.gpu_journal.specs.World.{known};
ghost use Rattle.gpu_journal.specs.Waits.{standing_of, drawn};
ghost use Rattle.gpu_journal.specs.Serial.{order_event};
ghost use Rattle.gpu_house.specs.Names.{table_at};
ghost use Rattle.gpu_house.specs.Changes.{Same, with_note};

use crate::answers::OrderRefused;
use crate::house::House;
use crate::marking::{follow, take_room};
use crate::naming::Naming;
use gpu_fetch::ServiceSide;
use gpu_plan::MOST_FENCES;
use gpu_word::Memory;
use sync_core::OrderFault;
use wait_hooks::Hook;

impl<N: Naming, P: ServiceSide, H: Hook> House<N, P, H> {
    /// The first flush of a stream that has no order draws the next order number, and its fences are judged. The note is of this
    /// flush, and of the words of the stream.
    ///
    /// # Errors
    ///
    /// `Lost`: exactly where the stream is lost. `Memory`: nothing has changed. The note comes back.
    pub fn order(&mut self, stream: u32, note: P::Note) -> Result<u32, OrderRefused<P::Note>>
        requires known { IsKnown (length N.plans.plans) stream }
        requires next { (known N.plans self.old.core.past stream).ordered
            < flushes (plan_of N.plans stream).actions }
        requires note { P.mark note
            ≡ mark_of (plan_of N.plans stream) (known N.plans self.old.core.past stream).ordered }
        requires table { P.note_of note (table_at N.words stream) }
        ensures number { IfOk result (λ n. n ≡ drawn N.plans self.old.core.past + 1) }
        ensures event { OnOk result (self.new.core.past
            ≡ order_event N.plans self.old.core.past stream ∷ self.old.core.past) }
        ensures outs { self.new.core.outs ≡ self.old.core.outs }
        ensures slots { OnOk result (self.new.slots ≡ with_note self.old.slots stream note) }
        ensures results { self.new.results ≡ self.old.results }
        ensures lost { IsErrAnd result (λ refused. refused.why ≡ OrderFault.Lost)
            ↔ ((standing_of N.plans self.old.core.past stream).lost ≡ true) }
        ensures back { IfErr result (λ refused. refused.note ≡ note) }
        ensures err { OnErr result (Same self.old self.new) }
    {
        let House {
            core,
            slots,
            hooks,
            ..
        } = self;
        if core.is_lost(stream) {
            return Err(OrderRefused {
                why: OrderFault::Lost,
                note,
            });
        }
        if let Err(memory) = take_room(hooks, core.waiting(), MOST_FENCES) {
            return Err(no_memory(note, memory));
        }
        let slot = &mut slots[stream as usize - 1];
        if let Err((note, memory)) = slot.push(note) {
            return Err(no_memory(note, memory));
        }
        let order = match core.order(stream) {
            Ok(order) => order,
            Err(why) => {
                return match slot.pop_last() {
                    Some(note) => Err(OrderRefused { why, note }),
                    None => unreachable!(),
                };
            }
        };
        core.shows_core();
        follow(core, hooks);
        Ok(order)
    }
}

// The refusal of an order for which memory ran out.
fn no_memory<T>(note: T, memory: Memory) -> OrderRefused<T>
    ensures why { result.why ≡ OrderFault.Memory memory }
    ensures note { result.note ≡ note }
{
    OrderRefused {
        why: OrderFault::Memory(memory),
        note,
    }
}
