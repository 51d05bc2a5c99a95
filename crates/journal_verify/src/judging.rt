//! The rules of each event, and then what it does.
ghost use Rattle.std.specs.Prelude.{◌≡◌, None, IfOk, IfSome, OnOk};
ghost use Rattle.journal_verify.specs.Faults.{finish_fault, close_fault, fault_of};
ghost use Rattle.journal_verify.specs.Entered.{FitsPlans, CountsAtMost, HasEntered, JudgesSo};

use crate::judge::Judge;
use crate::outcome::Outcome;
use gpu_cmd::CmdError;
use gpu_journal::{Event, Why};
use gpu_plan::Plans;
use gpu_word::Memory;
use stream_state::Effect;

impl Judge {
    // Rules 4, 5 and 10.
    fn finish_fault(&self, plans: &Plans, s: u32, n: u32) -> Option<u32>
        requires fits { FitsPlans plans.now self.now }
        ensures { result ≡ finish_fault plans.now self.now s n }
    {
        match self.scene.sync.front(s) {
            Some(front) if front == n => {}
            _ => return Some(4),
        }
        if self.scene.sync.blocked(s) {
            return Some(5);
        }
        let facts = self.facts(plans, s);
        if facts.get != facts.put {
            return Some(10);
        }
        None
    }

    // Rule 12.
    fn close_fault(&self, plans: &Plans, s: u32) -> Option<u32>
        requires fits { FitsPlans plans.now self.now }
        ensures { result ≡ close_fault plans.now self.now s }
    {
        match self.watch(s) {
            Some(watch) if watch.may_close(plans.plan(s).actions()) => None,
            _ => Some(12),
        }
    }

    // An order: rules 1 to 3.
    fn order(
        &mut self,
        plans: &Plans,
        s: u32,
        n: u32,
        c: u32,
    ) -> Result<Result<Effect, u32>, Memory>
        requires fits { FitsPlans plans.now self.old }
        requires counted { CountsAtMost 4294967294 self.old }
        ensures { IfOk result (JudgesSo plans.now (Event.Order s n c) self.old self.new) }
    {
        if let Some(rule) = self.order_fault(s, n, c) {
            return Ok(Err(rule));
        }
        self.enter_order(plans, s, c)?;
        Ok(Ok(Effect::Nothing))
    }

    // A step: rules 4 to 9.
    fn step(
        &mut self,
        plans: &Plans,
        s: u32,
        words: &[(u32, u32)],
    ) -> Result<Result<Effect, u32>, Memory>
        requires fits { FitsPlans plans.now self.old }
        ensures { IfOk result (JudgesSo plans.now (Event.Step s words.now) self.old self.new) }
    {
        match self.fetch_outcome(plans, s, words) {
            Outcome::Broken(rule) => Ok(Err(rule)),
            Outcome::Refused(_) => Ok(Err(9)),
            Outcome::Valid(command) => {
                let effect = self.enter_step(plans, s, &command, words)?;
                Ok(Ok(effect))
            }
        }
    }

    // A loss by an error: rules 4 to 9.
    fn lose(
        &mut self,
        plans: &Plans,
        s: u32,
        error: CmdError,
        words: &[(u32, u32)],
    ) -> Result<Result<Effect, u32>, Memory>
        requires fits { FitsPlans plans.now self.old }
        ensures { IfOk result
            (JudgesSo plans.now (Event.Lost s (Why.Error error) words.now) self.old self.new) }
    {
        match self.fetch_outcome(plans, s, words) {
            Outcome::Broken(rule) => Ok(Err(rule)),
            Outcome::Valid(_) => Ok(Err(9)),
            Outcome::Refused(other) => {
                if other.code() != error.code() {
                    return Ok(Err(9));
                }
                self.enter_loss(plans, s);
                Ok(Ok(Effect::Nothing))
            }
        }
    }

    // A finish: rules 4, 5 and 10.
    fn finish(&mut self, plans: &Plans, s: u32, n: u32) -> Result<Result<Effect, u32>, Memory>
        requires fits { FitsPlans plans.now self.old }
        requires counted { CountsAtMost 4294967294 self.old }
        ensures { IfOk result (JudgesSo plans.now (Event.Finish s n) self.old self.new) }
    {
        if let Some(rule) = self.finish_fault(plans, s, n) {
            return Ok(Err(rule));
        }
        self.enter_finish(plans, s)?;
        Ok(Ok(Effect::Nothing))
    }

    // A loss as out of memory: rule 11.
    fn lose_for_memory(
        &mut self,
        plans: &Plans,
        s: u32,
        words: &[(u32, u32)],
    ) -> Result<Effect, u32>
        requires fits { FitsPlans plans.now self.old }
        ensures { JudgesSo plans.now (Event.Lost s Why.Memory words.now) self.old self.new result }
    {
        if !self.is_open(s) || !words.is_empty() {
            return Err(11);
        }
        self.enter_loss(plans, s);
        Ok(Effect::Nothing)
    }

    // A close: rule 12.
    fn close(&mut self, plans: &Plans, s: u32) -> Result<Effect, u32>
        requires fits { FitsPlans plans.now self.old }
        ensures { JudgesSo plans.now (Event.Close s) self.old self.new result }
    {
        if let Some(rule) = self.close_fault(plans, s) {
            return Err(rule);
        }
        self.enter_close(plans, s);
        Ok(Effect::Nothing)
    }

    /// The first rule that an event breaks, which changes nothing; or where it breaks none, it is taken up, and this is what
    /// it asks of the rest of the service.
    pub(crate) fn enter(
        &mut self,
        plans: &Plans,
        event: &Event<'_>,
    ) -> Result<Result<Effect, u32>, Memory>
        requires fits { FitsPlans plans.now self.old }
        requires counted { CountsAtMost 4294967294 self.old }
        ensures { IfOk result (JudgesSo plans.now event.now self.old self.new) }
    {
        match event {
            Event::Order {
                stream,
                order,
                place,
            } => self.order(plans, *stream, *order, *place),
            Event::Step { stream, words } => self.step(plans, *stream, words.as_slice()),
            Event::Finish { stream, order } => self.finish(plans, *stream, *order),
            Event::Lost { stream, why, words } => match why {
                Why::Error(error) => self.lose(plans, *stream, *error, words.as_slice()),
                Why::Memory => Ok(self.lose_for_memory(plans, *stream, words.as_slice())),
            },
            Event::Close { stream } => Ok(self.close(plans, *stream)),
        }
    }

    /// The first rule that an event breaks, which changes nothing. Where it breaks none, it is taken up.
    pub(crate) fn take(&mut self, plans: &Plans, event: &Event<'_>) -> Result<Option<u32>, Memory>
        requires fits { FitsPlans plans.now self.old }
        requires counted { CountsAtMost 4294967294 self.old }
        ensures fault { IfOk result (λ fault. fault ≡ fault_of plans.now self.old event.now) }
        ensures entered { IfOk result
            (λ fault. fault ≡ None → HasEntered plans.now event.now self.old self.new) }
        ensures kept { IfOk result (λ fault. IfSome fault (λ rule. self.new ≡ self.old)) }
        ensures fits { OnOk result (FitsPlans plans.now self.new) }
    {
        match self.enter(plans, event)? {
            Ok(_) => Ok(None),
            Err(rule) => Ok(Some(rule)),
        }
    }
}
