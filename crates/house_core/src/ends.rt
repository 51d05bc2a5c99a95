//! The ends of streams: they are lost, or they close.
ghost use Rattle.std.specs.Prelude.{◌≡◌, ◌↔◌, [], length, true, false, OnOk, OnErr, IsOk, IsTrue};
ghost use Rattle.gpu_plan.specs.Plans.{plan_of, is_closed};
ghost use Rattle.sync_core.specs.Standing.{IsKnown, is_open};
ghost use Rattle.gpu_journal.specs.declared.event.Event.TheVariants.{Lost, Close};
ghost use Rattle.gpu_journal.specs.Waits.{standing_of, IsOpen};
ghost use Rattle.gpu_journal.specs.Legal.{Obeys, MayClose};
ghost use Rattle.house_core.specs.Core.{Stays, Grows};

use crate::core_of::Core;
use gpu_journal::{Event, Why};
use gpu_word::{Memory, Words};

/// How a close was answered.
#[derive(Clone, Copy)]
pub enum Closing {
    /// The stream is closed.
    Closed,
    /// The client has not come to its Close, or a flush of it has no order yet.
    Early,
    /// The stream is lost.
    Lost,
}

impl Core {
    // The journal notes the loss of a stream. A loss without words takes no memory.
    //
    // `Memory`: nothing has changed.
    pub(crate) fn enter_lost(
        &mut self,
        stream: u32,
        why: Why,
        words: &[(u32, u32)],
    ) -> Result<(), Memory>
        requires open { IsOpen self.old.plans self.old.past stream }
        requires obeys { Obeys self.old.plans self.old.past (Lost stream why words.now) }
        ensures event { OnOk result (Grows self.old self.new (Lost stream why words.now)) }
        ensures outs { self.new.outs ≡ self.old.outs }
        ensures stays { OnErr result (Stays self.old self.new) }
        ensures free { words.now ≡ [] → IsOk result }
    {
        self.journal.reserve_words(words.len())?;
        let Core {
            journal,
            scene,
            desks,
            owed,
            ..
        } = self;
        let desk = &mut desks[stream as usize - 1];
        *owed -= desk.unfinished() as usize + 1;
        desk.lose();
        scene.sync.lose(stream);
        scene.sync.shows_room();
        journal.push(Event::Lost {
            stream,
            why,
            words: Words::of(words),
        });
        Ok(())
    }

    // The journal notes the close of a stream.
    fn enter_close(&mut self, stream: u32)
        requires may { MayClose self.old.plans self.old.past stream }
        ensures event { Grows self.old self.new (Close stream) }
        ensures outs { self.new.outs ≡ self.old.outs }
    {
        let Core {
            journal,
            scene,
            desks,
            owed,
            ..
        } = self;
        let desk = &mut desks[stream as usize - 1];
        *owed -= desk.unfinished() as usize + 1;
        desk.close();
        scene.sync.close(stream);
        scene.sync.shows_room();
        journal.push(Event::Close { stream });
    }

    /// Loses a stream as out of memory, where it is neither lost nor closed. It takes the refusal, and no memory.
    pub fn lose_client(&mut self, stream: u32, _refusal: Memory)
        requires known { IsKnown (length self.old.plans.plans) stream }
        ensures event { is_open (standing_of self.old.plans self.old.past stream) ≡ true
            → Grows self.old self.new (Lost stream Why.Memory []) }
        ensures over { is_open (standing_of self.old.plans self.old.past stream) ≡ false
            → Stays self.old self.new }
        ensures outs { self.new.outs ≡ self.old.outs }
    {
        if self.is_open(stream) {
            match self.enter_lost(stream, Why::Memory, &[]) {
                Ok(()) => {}
                Err(_) => unreachable!(),
            }
        }
    }

    // Whether the client of a stream has come to its Close, with each flush ordered.
    fn may_close(&mut self, stream: u32) -> bool
        requires known { IsKnown (length self.old.plans.plans) stream }
        requires closes { is_closed (plan_of self.old.plans stream).actions ≡ true }
        requires open { is_open (standing_of self.old.plans self.old.past stream) ≡ true }
        ensures core { self.new ≡ self.old }
        ensures may { IsTrue result ↔ MayClose self.old.plans self.old.past stream }
    {
        let desk = &self.desks[stream as usize - 1];
        if !desk.is_all_ordered() {
            return false;
        }
        let Core { plans, desks, .. } = self;
        let actions = plans.plan(stream).actions();
        let desk = &mut desks[stream as usize - 1];
        desk.comes_to_close(actions)
    }

    /// Closes a stream whose plan has a Close, once its client has come to it. It takes no memory.
    pub fn close(&mut self, stream: u32) -> Closing
        requires known { IsKnown (length self.old.plans.plans) stream }
        requires closes { is_closed (plan_of self.old.plans stream).actions ≡ true }
        ensures lost { (result ≡ Closing.Lost)
            ↔ ((standing_of self.old.plans self.old.past stream).lost ≡ true) }
        ensures early { (result ≡ Closing.Early)
            ↔ ((is_open (standing_of self.old.plans self.old.past stream) ≡ true)
            × (MayClose self.old.plans self.old.past stream → ⊥)) }
        ensures event { result ≡ Closing.Closed
            → is_open (standing_of self.old.plans self.old.past stream) ≡ true
            → Grows self.old self.new (Close stream) }
        ensures same { (result ≡ Closing.Closed
            → is_open (standing_of self.old.plans self.old.past stream) ≡ true → ⊥)
            → Stays self.old self.new }
        ensures outs { self.new.outs ≡ self.old.outs }
    {
        if self.is_lost(stream) {
            return Closing::Lost;
        }
        if self.is_closed(stream) {
            return Closing::Closed;
        }
        if !self.may_close(stream) {
            return Closing::Early;
        }
        self.enter_close(stream);
        Closing::Closed
    }
}
