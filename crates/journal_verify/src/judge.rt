ghost use Rattle.std.specs.Prelude.{◌≡◌, ◌+◌, ◌<◌, ◌^◌, length, option_copied};
ghost use Rattle.gpu_cmd.specs.Lawful.{IsLawfulFacts};
ghost use Rattle.sync_core.specs.Standing.{IsKnown};
ghost use Rattle.journal_verify.specs.Kept.{JudgeData, watch_of};
ghost use Rattle.journal_verify.specs.Faults.{is_open_in, order_fault, finished_in, flush_in, kept_state, kept_facts, are_held, verdict_outcome, fetch_outcome};
ghost use Rattle.journal_verify.specs.Entered.{FitsPlans};

use crate::copy::copy;
use crate::outcome::Outcome;
use crate::watch::Watch;
use gpu_cmd::{CmdError, Command, StreamFacts};
use gpu_journal::put_at;
use gpu_plan::Plans;
use std::marker::Model;
use step_parts::Scene;
use stream_state::StreamState;

/// The record while events are judged one after the other.
#[derive(Drop)]
pub(crate) struct Judge {
    pub(crate) drawn: u32,
    pub(crate) scene: Scene,
    pub(crate) states: Vec<StreamState>,
    pub(crate) watches: Vec<Watch>,
}

impl Model for Judge {
    ghost use Rattle.journal_verify.specs.Kept.{JudgeData};

    ghost Value = { JudgeData };

    ghost view = { λ j. record {
      drawn = j.drawn;
      core = j.scene.sync;
      images = j.scene.images;
      states = j.states.items;
      watches = j.watches.items;
    } };
}

impl Judge {
    // The record of a stream.
    pub(crate) fn watch(&self, s: u32) -> Option<&Watch>
        ensures { option_copied result ≡ watch_of self.now s }
    {
        if s == 0 {
            return None;
        }
        self.watches.get(s as usize - 1)
    }

    /// How many flushes of a stream are finished.
    pub(crate) fn finished(&self, s: u32) -> u32
        ensures { result ≡ finished_in self.now s }
    {
        match self.watch(s) {
            Some(watch) => watch.finished(),
            None => 0,
        }
    }

    // Whether a stream is one of the script, and is neither lost nor closed.
    pub(crate) fn is_open(&self, s: u32) -> bool
        ensures { result ≡ is_open_in self.now s }
    {
        match self.watch(s) {
            Some(watch) => watch.stays(),
            None => false,
        }
    }

    // Rules 1 to 3.
    pub(crate) fn order_fault(&self, s: u32, n: u32, c: u32) -> Option<u32>
        requires { self.now.drawn + 1 < 2 ^ 32 }
        ensures { result ≡ order_fault self.now s n c }
    {
        let Some(watch) = self.watch(s) else {
            return Some(1);
        };
        if !watch.stays() {
            return Some(1);
        }
        if n != self.drawn + 1 {
            return Some(2);
        }
        match watch.next_flush() {
            Some(place) if place == c => None,
            _ => Some(3),
        }
    }

    // The place of the first flush of a stream that is not finished.
    fn flush(&self, s: u32) -> u32
        ensures { result ≡ flush_in self.now s }
    {
        match self.watch(s) {
            Some(watch) => watch.flush(),
            None => 0,
        }
    }

    /// The state of a stream.
    pub(crate) fn state(&self, s: u32) -> &StreamState
        requires { IsKnown (length self.now.states) s }
        ensures { result.now ≡ kept_state self.now s }
    {
        &self.states[s as usize - 1]
    }

    // What the checks of the next command of a stream read.
    pub(crate) fn facts(&self, plans: &Plans, s: u32) -> StreamFacts
        requires fits { FitsPlans plans.now self.now }
        requires known { IsKnown (length plans.now.plans) s }
        ensures facts { result ≡ kept_facts plans.now self.now s }
        ensures lawful { IsLawfulFacts result }
    {
        let plan = plans.plan(s);
        let put = put_at(plan.actions(), self.flush(s));
        self.state(s).facts(plan.areas(), put)
    }

    // Whether each word is one that the client of a stream may have had.
    fn are_held(&self, s: u32, words: &[(u32, u32)]) -> bool
        ensures { result ≡ are_held self.now s words.now }
    {
        match self.watch(s) {
            Some(watch) => watch.may_have(words),
            None => false,
        }
    }

    // The verdict of all twelve checks, by that of the first ten.
    fn judged(&self, s: u32, verdict: Result<Command, CmdError>) -> Outcome
        requires known { IsKnown (length self.now.states) s }
        ensures { result ≡ verdict_outcome verdict (kept_state self.now s) }
    {
        match verdict {
            Ok(command) => match self.state(s).check(&command) {
                Ok(()) => Outcome::Valid(command),
                Err(error) => Outcome::Refused(error),
            },
            Err(error) => Outcome::Refused(error),
        }
    }

    // Rules 4 to 8 of words that are fetched, and the verdict on them.
    pub(crate) fn fetch_outcome(&self, plans: &Plans, s: u32, words: &[(u32, u32)]) -> Outcome
        requires fits { FitsPlans plans.now self.now }
        ensures { result ≡ fetch_outcome plans.now self.now s words.now }
    {
        if self.scene.sync.front(s).is_none() {
            return Outcome::Broken(4);
        }
        if self.scene.sync.blocked(s) {
            return Outcome::Broken(5);
        }
        let facts = self.facts(plans, s);
        if facts.get == facts.put {
            return Outcome::Broken(7);
        }
        let Some(verdict) = copy(words, &facts) else {
            return Outcome::Broken(7);
        };
        if !self.are_held(s, words) {
            return Outcome::Broken(8);
        }
        self.judged(s, verdict)
    }
}
