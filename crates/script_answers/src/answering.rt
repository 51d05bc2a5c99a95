ghost use Rattle.std.specs.Prelude.{◌≡◌, ◌≤◌, ℕ, Some, true, length, reverse, IfOk};
ghost use Rattle.run_output.specs.Runs.{run_text};
ghost use Rattle.script_answers.specs.declared.command.Command.TheVariants.{Run, Check, Verify, VerifyWhole};
ghost use Rattle.script_answers.specs.Commands.{is_plain, IsSized};
ghost use Rattle.script_answers.specs.Runs.{IsSerialRun, IsOutput, IsTrial, run_ending};
ghost use Rattle.script_answers.specs.Says.{most_bytes, yes_line, Says};
ghost use Rattle.script_answers.specs.Answers.{answer_ending, answer_text, TellsFinding};

use crate::answer::Answer;
use crate::command::Command;
use crate::counts::check_text;
use crate::status::Status;
use gpu_plan::{MOST_BYTES, Plans, ScriptFault, parse};
use gpu_run::run_one;
use gpu_word::Memory;
use itoa::Buffer;
use run_output::{PictureOutput, RunOutput};
use script_generator::{MOST_SIZE, generate};
use script_laws::{dumps_may_be_told, generated_plans, trial_text};
use serial_laws::{plans_are_lawful, serial_history_is_legal_and_complete};
use std::alloc::Global;
use std::mem;
use verify_input::{Finding, MOST_WHOLE_BYTES, examine, examine_whole};
use wait_hooks::Hook;

// Runs a script, and takes all memory that writing its output takes.
#[tactic(auto, using(run_output::proofs::Texts::serial_text, run_output::proofs::Texts::length_all_dumps))]
fn run_plans<H: Hook>(alloc: Global, plans: Plans, hook: H) -> Result<RunOutput, Memory>
    ensures { IfOk result (λ run.
        IsOutput IsSerialRun plans (H.base hook) (run_ending (reverse run.report.past))
        (run_text run)) }
{
    plans_are_lawful(&plans);
    serial_history_is_legal_and_complete();
    dumps_may_be_told();
    let (report, dumps) = run_one(alloc, plans, hook)?;
    RunOutput::make(alloc, report, dumps, Vec::new(alloc))
}

// What `run` says of an input.
fn run_answer<H: Hook>(alloc: Global, input: &[u8], hook: H) -> Result<Answer, Memory>
    requires { length input.now ≤ MOST_BYTES }
    ensures { IfOk result (λ answer.
        Says Run (H.base hook) input.now (answer_ending answer) (answer_text answer)) }
{
    match parse(alloc, input) {
        Ok(plans) => Ok(Answer::Ran(run_plans(alloc, plans, hook)?)),
        Err(ScriptFault::Refused { line, kind }) => Ok(Answer::Found(Status::Refused {
            line,
            kind,
        })),
        Err(ScriptFault::Memory(memory)) => Err(memory),
    }
}

// What `check` says of an input.
fn check_answer(alloc: Global, input: &[u8]) -> Result<Answer, Memory>
    requires { length input.now ≤ MOST_BYTES }
    ensures { IfOk result (λ answer.
        (base : ℕ) → Says Check base input.now (answer_ending answer) (answer_text answer)) }
{
    match parse(alloc, input) {
        Ok(plans) => Ok(Answer::Text(check_text(alloc, &plans)?)),
        Err(ScriptFault::Refused { line, kind }) => Ok(Answer::Found(Status::Refused {
            line,
            kind,
        })),
        Err(ScriptFault::Memory(memory)) => Err(memory),
    }
}

// The line of the trial of a size and a seed, whose script it runs.
fn trial_line<H: Hook>(alloc: Global, size: u32, seed: u32, hook: H) -> Result<Vec<u8>, Memory>
    requires first { 1 ≤ size }
    requires last { size ≤ MOST_SIZE }
    ensures { IfOk result (λ text. IsTrial size seed text.items) }
{
    let plans = generated_plans(alloc, size, seed)?;
    plans_are_lawful(&plans);
    serial_history_is_legal_and_complete();
    dumps_may_be_told();
    let (report, _) = run_one(alloc, plans, hook)?;
    let text = trial_text(
        alloc,
        size,
        seed,
        report.journal(),
        report.images(),
        report.endings(),
    );
    // The program ends with this line, so the report's many lists of words are not given back one by one.
    mem::forget(report);
    text
}

// The line of a right journal of a given number of events.
fn yes_line(alloc: Global, events: u32) -> Result<Vec<u8>, Memory>
    ensures { IfOk result (λ text. text.items ≡ yes_line events) }
{
    let mut buffer = Buffer::new();
    let mut text = Vec::new(alloc);
    text.extend_from_slice(b"yes events ")?;
    text.extend_from_slice(buffer.format(u64::from(events)).as_bytes())?;
    text.push(b'\n')?;
    Ok(text)
}

// What `verify` says of an input.
fn verify_answer(alloc: Global, input: &[u8]) -> Result<Answer, Memory>
    requires { length input.now ≤ MOST_BYTES }
    ensures { IfOk result (λ answer.
        (base : ℕ) → Says Verify base input.now (answer_ending answer) (answer_text answer)) }
{
    answer_of(alloc, examine(alloc, input)?)
}

// What a finding says.
fn answer_of(alloc: Global, finding: Finding) -> Result<Answer, Memory>
    ensures { IfOk result (λ answer. TellsFinding finding (answer_ending answer) (answer_text answer)) }
{
    match finding {
        Finding::Refused { line, kind } => Ok(Answer::Found(Status::Refused { line, kind })),
        Finding::NoJournal { line } => Ok(Answer::Found(Status::NoJournal { line })),
        Finding::No { event, rule } => Ok(Answer::Found(Status::No { event, rule })),
        Finding::Differs { line, what } => Ok(Answer::Found(Status::Differs { line, what })),
        Finding::NotComplete => Ok(Answer::Found(Status::NotComplete)),
        Finding::Yes { images, events } => {
            let line = yes_line(alloc, events)?;
            Ok(Answer::Right(PictureOutput::make(alloc, line, images)?))
        }
    }
}

// What `verify --whole` says of an input.
fn whole_answer<H: Hook>(alloc: Global, input: &[u8], hook: H) -> Result<Answer, Memory>
    requires { length input.now ≤ MOST_WHOLE_BYTES }
    ensures { IfOk result (λ answer.
        Says VerifyWhole (H.base hook) input.now (answer_ending answer) (answer_text answer)) }
{
    answer_of(alloc, examine_whole(alloc, input, hook.base())?)
}

/// What a command of plain words says of an input. It neither reads nor writes.
///
/// # Errors
///
/// `Memory`: for the answer, or for what it is made from.
pub fn answer_to<H: Hook>(
    alloc: Global,
    command: Command,
    input: &[u8],
    hook: H,
) -> Result<Answer, Memory>
    requires plain { is_plain (Some command) ≡ true }
    requires short { length input.now ≤ most_bytes (Some command) }
    requires sized { IsSized command }
    ensures said { IfOk result (λ answer.
        Says command (H.base hook) input.now (answer_ending answer) (answer_text answer)) }
{
    match command {
        Command::Run => run_answer(alloc, input, hook),
        Command::RunOnThreads { .. } => unreachable!(),
        Command::Check => check_answer(alloc, input),
        Command::Generate { size, seed } => Ok(Answer::Text(generate(alloc, size, seed)?)),
        Command::Trial { size, seed } => Ok(Answer::Text(trial_line(alloc, size, seed, hook)?)),
        Command::Verify => verify_answer(alloc, input),
        Command::VerifyWhole => whole_answer(alloc, input, hook),
    }
}
