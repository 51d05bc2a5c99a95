//! Steps: the next command of a run is executed, or its stream is lost.
ghost use Rattle.std.specs.Prelude.{◌≡◌, length, false, Ok, IfOk, OnErr};
ghost use Rattle.std.specs.List.{All};
ghost use Rattle.sync_core.specs.Standing.{IsKnown};
ghost use Rattle.gpu_journal.specs.declared.event.Event.TheVariants.{Step};
ghost use Rattle.gpu_journal.specs.Facts.{facts_at, verdict_at};
ghost use Rattle.gpu_journal.specs.Legal.{Obeys};
ghost use Rattle.house_core.specs.Answers.{HasStepped, AnswersStep};
ghost use Rattle.house_core.specs.Core.{Stays, IsOfCore, IsAway, MayHavePut};

use crate::carried::Carried;
use crate::core_of::{Core, take_room};
use gpu_cmd::{CmdError, Command};
use gpu_fetch::Fetched;
use gpu_journal::{Event, Why};
use gpu_word::{Memory, Words};
use step_parts::{Acted, Taken};

/// How a step was answered.
#[derive(Drop)]
pub enum Stepped {
    /// The stream is lost. Nothing has changed.
    Lost,
    /// The stream is closed. Nothing has changed.
    Closed,
    /// The command is invalid, and the stream is lost by this error now.
    Invalid(CmdError),
    /// The command was executed.
    Done(Acted),
}

impl Core {
    // The verdict on what was fetched for a run whose stream is open.
    #[tactic(auto, using(stream_state::proofs::Telling::copy_refuses, stream_state::proofs::Telling::state_refuses, stream_state::proofs::Telling::command_passes))]
    fn judge(&self, stream: u32, fetched: &Fetched<'_>) -> Result<Command, CmdError>
        requires known { IsKnown (length self.now.plans.plans) stream }
        requires facts { fetched.now.facts ≡ facts_at self.now.plans self.now.past stream }
        ensures verdict { result
            ≡ verdict_at self.now.plans self.now.past stream fetched.now.words }
    {
        let command = fetched.verdict()?;
        self.stream(stream).check(&command)?;
        Ok(command)
    }

    // The journal notes the step of a command, which is executed.
    #[inline(always)]
    fn enter_step(
        &mut self,
        run: &mut Carried,
        command: &Command,
        words: &[(u32, u32)],
    ) -> Result<Acted, Memory>
        requires own { IsOfCore self.old run.old }
        requires away { IsAway self.old run.old }
        requires going { run.old.paused ≡ false }
        requires obeys { Obeys self.old.plans self.old.past (Step run.old.stream words.now) }
        requires command { verdict_at self.old.plans self.old.past run.old.stream words.now
            ≡ Ok command.now }
        ensures stepped { IfOk result (HasStepped self.old self.new run.old run.new words.now) }
        ensures err { OnErr result (Stays self.old self.new) }
        ensures same { OnErr result (run.new ≡ run.old) }
    {
        let stream = run.stream();
        take_room(&mut self.journal, self.owed, 1)?;
        self.journal.reserve_words(words.len())?;
        let desk = &mut self.desks[stream as usize - 1];
        let taken = Taken {
            plans: &self.plans,
            stream,
            command,
            words,
        };
        let acted = run.step(desk, &mut self.scene, &taken)?;
        self.scene.sync.shows_room();
        self.journal.push(Event::Step {
            stream,
            words: Words::of(words),
        });
        Ok(acted)
    }

    /// The step of a run on what was fetched for it: its command is executed, or its stream is lost by an error. Where the stream
    /// is lost or closed already, nothing changes.
    ///
    /// # Errors
    ///
    /// `Memory`: nothing has changed.
    #[inline(always)]
    pub fn step(&mut self, run: &mut Carried, fetched: &Fetched<'_>) -> Result<Stepped, Memory>
        requires own { IsOfCore self.old run.old }
        requires going { run.old.paused ≡ false }
        requires facts { fetched.now.facts ≡ run.old.facts }
        requires may { All (MayHavePut self.old.plans run.old) fetched.now.words }
        ensures steps { IfOk result (AnswersStep self.old self.new run.old run.new fetched.now.words) }
        ensures away { IsAway self.old run.old }
        ensures err { OnErr result (Stays self.old self.new) }
        ensures same { OnErr result (run.new ≡ run.old) }
    {
        self.shows_run(run);
        let stream = run.stream();
        if self.is_lost(stream) {
            return Ok(Stepped::Lost);
        }
        if self.is_closed(stream) {
            return Ok(Stepped::Closed);
        }
        let judged = self.judge(stream, fetched);
        let words = fetched.words();
        match judged {
            Ok(command) => Ok(Stepped::Done(self.enter_step(run, &command, words)?)),
            Err(error) => {
                self.enter_lost(stream, Why::Error(error), words)?;
                Ok(Stepped::Invalid(error))
            }
        }
    }
}
