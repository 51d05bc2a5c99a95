//! What a step does to the record.
ghost use Rattle.std.specs.Prelude.{◌≡◌, ◌<◌, length, IfOk, OnOk};
ghost use Rattle.gpu_plan.specs.Plans.{plan_of};
ghost use Rattle.stream_state.specs.Steps.{command_in};
ghost use Rattle.stream_state.specs.Laws.{IsTaken};
ghost use Rattle.sync_core.specs.Core.{unprocessed_of};
ghost use Rattle.journal_verify.specs.Kept.{IsWatch};
ghost use Rattle.journal_verify.specs.Faults.{kept_state};
ghost use Rattle.gpu_journal.specs.World.{greatest_after};
ghost use Rattle.journal_verify.specs.Entered.{FitsPlans, IsEffect, HasEntered, counts_of};

use crate::judge::Judge;
use crate::watch::Watch;
use gpu_cmd::Command;
use gpu_journal::Event;
use gpu_plan::{Plan, Plans};
use gpu_word::Memory;
use step_parts::{Taken, act};
use stream_state::Effect;

// What an effect tells the client.
fn tell(watch: &mut Watch, plan: &Plan, effect: &Effect) -> Result<(), Memory>
    requires { IsWatch plan.now watch.old }
    ensures counts { OnOk result (counts_of watch.new
        ≡ record (counts_of watch.old) { token = greatest_after effect.now watch.old.token }) }
    ensures watch { OnOk result (IsWatch plan.now watch.new) }
{
    match effect {
        Effect::Token(token) => watch.tell(plan, *token),
        Effect::Nothing
        | Effect::Release(_)
        | Effect::Wait { .. }
        | Effect::WaitName { .. }
        | Effect::Pixels(_)
        | Effect::Results(_) => Ok(()),
    }
}

impl Judge {
    /// A step on these words, which are this command.
    pub(crate) fn enter_step(
        &mut self,
        plans: &Plans,
        s: u32,
        command: &Command,
        words: &[(u32, u32)],
    ) -> Result<Effect, Memory>
        requires fits { FitsPlans plans.now self.old }
        requires front { 0 < length (unprocessed_of self.old.core s) }
        requires taken { IsTaken (plan_of plans.now s).areas words.now (kept_state self.old s) }
        requires said { command.now ≡ command_in words.now }
        ensures effect { IfOk result
            (λ effect. IsEffect plans.now self.old (Event.Step s words.now) effect) }
        ensures entered { OnOk result
            (HasEntered plans.now (Event.Step s words.now) self.old self.new) }
        ensures fits { OnOk result (FitsPlans plans.now self.new) }
    {
        let index = s as usize - 1;
        let taken = Taken {
            plans,
            stream: s,
            command,
            words,
        };
        let acted = act(&mut self.scene, &mut self.states[index], &taken)?;
        tell(&mut self.watches[index], plans.plan(s), &acted.effect)?;
        Ok(acted.effect)
    }
}
