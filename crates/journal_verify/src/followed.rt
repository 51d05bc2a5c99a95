ghost use Rattle.std.specs.Prelude.{◌≡◌, ℕ, ◌<◌, ◌^◌, [], None, length, map, true, false, IsTrue, IfOk, IfSome, OnOk, option_copied};
ghost use Rattle.std.specs.List.Sorted.{IsStrictlyIncreasing};
ghost use Rattle.stream_state.specs.Told.{writes_told};
ghost use Rattle.sync_core.specs.Standing.{IsKnown};
ghost use Rattle.gpu_journal.specs.World.{stream_in};
ghost use Rattle.journal_verify.specs.Faults.{kept_state, fault_of, AreAllSettled};
ghost use Rattle.journal_verify.specs.Entered.{FitsPlans, CountsAtMost};
ghost use Rattle.journal_verify.specs.Followed.{HasHeard, AreUntouched, HasFollowed, NotesSum, IsFollowed, dumped_of, may_be_told, IsSumIn};

use crate::dumped::Dumped;
use crate::judge::Judge;
use gpu_journal::Event;
use gpu_plan::Plans;
use gpu_store::{Images, texel_sum};
use gpu_word::Memory;
use std::alloc::Global;
use std::marker::Model;
use stream_state::{Effect, StreamState};
use sync_core::Ending;

/// What a legal history leaves: the images, the states, the endings of waits, what the dumps of streams may tell, and the sums
/// of all texels after some of its prefixes.
#[derive(Drop)]
pub struct Followed {
    judge: Judge,
    dumped: Vec<Dumped>,
    sums: Vec<(u32, u32)>,
}

impl Model for Followed {
    ghost use Rattle.journal_verify.specs.Followed.{FollowedData};

    ghost Value = { FollowedData };

    ghost view = { λ f. record {
      judge = f.judge;
      dumped = f.dumped.items;
      sums = f.sums.items;
    } };
}

// The dumped places of each stream before any event.
fn first_dumped(alloc: Global, plans: &Plans) -> Result<Vec<Dumped>, Memory>
    ensures { IfOk result (λ all. AreUntouched plans.now all.items) }
{
    let mut all = Vec::new(alloc);
    for index in 0..plans.count() {
        let dumped = Dumped::make(alloc, plans.plan(index + 1))?;
        all.push(dumped)?;
    }
    Ok(all)
}

// The stream of an event.
fn stream_of(event: &Event<'_>) -> u32
    ensures { result ≡ stream_in event.now }
{
    match event {
        Event::Order { stream, .. } => *stream,
        Event::Step { stream, .. } => *stream,
        Event::Finish { stream, .. } => *stream,
        Event::Lost { stream, .. } => *stream,
        Event::Close { stream } => *stream,
    }
}

impl Followed {
    /// Before any event.
    pub(crate) fn make(alloc: Global, plans: &Plans) -> Result<Followed, Memory>
        ensures followed { IfOk result (λ followed. IsFollowed plans.now [] followed) }
        ensures counted { IfOk result (λ followed. CountsAtMost 0 followed.judge) }
    {
        let judge = Judge::make(alloc, plans)?;
        let dumped = first_dumped(alloc, plans)?;
        Ok(Followed {
            judge,
            dumped,
            sums: Vec::new(alloc),
        })
    }

    // Takes up what an event of a stream wrote to results.
    fn tell(&mut self, stream: u32, effect: &Effect) -> Result<(), Memory>
        requires known { IsKnown (length self.old.dumped) stream }
        requires rising { IsStrictlyIncreasing (map (λ write. write.0) (writes_told effect.now)) }
        ensures told { OnOk result
            (HasHeard stream effect.now self.old.judge self.old.dumped self.new.dumped) }
        ensures same { self.new ≡ record self.old { dumped = self.new.dumped } }
    {
        let Effect::Results(writes) = effect else {
            return Ok(());
        };
        let finished = self.judge.finished(stream);
        self.dumped[stream as usize - 1].take(writes.as_slice(), finished)?;
        Ok(())
    }

    /// The first rule that an event breaks, which changes nothing. Where it breaks none, it is taken up.
    pub(crate) fn take(&mut self, plans: &Plans, event: &Event<'_>) -> Result<Option<u32>, Memory>
        requires fits { FitsPlans plans.now self.old.judge }
        requires counted { CountsAtMost 4294967294 self.old.judge }
        requires streams { length self.old.dumped ≡ length plans.now.plans }
        ensures fault { IfOk result (λ fault. fault ≡ fault_of plans.now self.old.judge event.now) }
        ensures followed { IfOk result
            (λ fault. fault ≡ None → HasFollowed plans.now event.now self.old self.new) }
        ensures kept { IfOk result (λ fault. IfSome fault (λ rule. self.new ≡ self.old)) }
        ensures fits { OnOk result (FitsPlans plans.now self.new.judge) }
    {
        match self.judge.enter(plans, event)? {
            Ok(effect) => {
                self.tell(stream_of(event), &effect)?;
                Ok(None)
            }
            Err(rule) => Ok(Some(rule)),
        }
    }

    /// Notes the sum of all texels after this number of events.
    pub(crate) fn note(&mut self, events: u32) -> Result<(), Memory>
        ensures { OnOk result (NotesSum events self.old self.new) }
    {
        let sum = texel_sum(self.judge.images());
        self.sums.push((events, sum))?;
        Ok(())
    }

    /// Whether each stream is lost or closed, or done.
    pub(crate) fn is_complete(&self, plans: &Plans) -> bool
        requires { FitsPlans plans.now self.now.judge }
        ensures settled { IsTrue result → AreAllSettled plans.now self.now.judge.watches }
        ensures open { result ≡ false → AreAllSettled plans.now self.now.judge.watches → ⊥ }
    {
        self.judge.is_complete(plans)
    }

    /// The images.
    pub fn images(&self) -> &Images
        ensures { result.now ≡ self.now.judge.images }
    {
        self.judge.images()
    }

    /// The images alone.
    pub fn into_images(self) -> Images
        ensures { result ≡ self.judge.images }
    {
        self.judge.into_images()
    }

    /// The state of a stream, counted from 1.
    pub fn state(&self, stream: u32) -> &StreamState
        requires { IsKnown (length self.now.judge.states) stream }
        ensures { result.now ≡ kept_state self.now.judge stream }
    {
        self.judge.state(stream)
    }

    /// The endings of waits, in order.
    pub fn endings(&self) -> &[Ending]
        ensures { result.now ≡ self.now.judge.core.endings }
    {
        self.judge.scene.sync.endings()
    }

    // What the dumped places of a stream have held.
    fn dumped_of(&self, stream: u32) -> Option<&Dumped>
        ensures { option_copied result ≡ dumped_of self.now.dumped stream }
    {
        if stream == 0 {
            return None;
        }
        self.dumped.get(stream as usize - 1)
    }

    /// Whether a dumped result place of a stream had a value at some moment when at least this number of the stream's flushes
    /// was finished. It had no greater value than one of 32 bits.
    pub fn may_be_told(&self, stream: u32, place: u32, least: u32, value: u32) -> bool
        ensures told { result ≡ may_be_told self.now stream place least value }
        ensures small { (other : ℕ) → may_be_told self.now stream place least other ≡ true
            → other < 2 ^ 32 }
    {
        match self.dumped_of(stream) {
            Some(dumped) => dumped.had(place, least, value, self.judge.finished(stream)),
            None => false,
        }
    }

    /// The sum of all texels after this number of events, where it was noted.
    pub fn sum_after(&self, events: u32) -> Option<u32>
        ensures { IfSome result (λ sum. IsSumIn self.now (events, sum)) }
    {
        for (count, sum) in &self.sums {
            if *count == events {
                return Some(*sum);
            }
        }
        None
    }
}
