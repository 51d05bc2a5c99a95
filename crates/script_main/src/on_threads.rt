ghost use Rattle.std.specs.Prelude.{◌≤◌, Some, length, reverse, IfOk};
ghost use Rattle.run_output.specs.Runs.{run_text};
ghost use Rattle.script_answers.specs.declared.command.Command.TheVariants.{RunOnThreads};
ghost use Rattle.script_answers.specs.Commands.{IsSized};
ghost use Rattle.script_answers.specs.Runs.{IsViewedRun, IsOutput, run_ending};
ghost use Rattle.script_answers.specs.Says.{most_bytes, Says};
ghost use Rattle.script_answers.specs.Answers.{answer_ending, answer_text};
ghost use Rattle.live_view.specs.declared.making.TheConstants.{MOST_VIEWERS};

use gpu_io::Gate;
use gpu_plan::{MOST_BYTES, Plans, ScriptFault, parse};
use gpu_threads::{Team, run_threads};
use gpu_word::Memory;
use run_output::RunOutput;
use script_answers::{Answer, Command, MOST_WORKERS, Status, answer_to};
use std::alloc::Global;
use std::sync::Wait;
use std::thread::Threads;
use wait_hooks::Hook;

// Runs a script on threads, and takes all memory that writing its output takes.
#[tactic(auto, using(crate::proofs::OnThreads::length_all_read))]
fn run_plans<H: Hook + Send, G: Gate + Sync, R: Threads + Wait + Sync>(
    rt: &R,
    alloc: Global,
    plans: Plans,
    team: Team,
    gate: &G,
    hook: H,
) -> Result<RunOutput, Memory>
    requires some_workers { 1 ≤ team.workers }
    requires few_workers { team.workers ≤ MOST_WORKERS }
    requires few_viewers { team.viewers ≤ MOST_VIEWERS }
    ensures { IfOk result (λ run.
        IsOutput (IsViewedRun team.viewers) plans (H.base hook) (run_ending (reverse run.report.past))
        (run_text run)) }
{
    let ran = run_threads(rt, alloc, plans, team, hook, gate)?;
    RunOutput::make(alloc, ran.report, ran.dumps, ran.looks)
}

// What `run` says of an input with a given number of workers and viewers.
fn run_answer<H: Hook + Send, G: Gate + Sync, R: Threads + Wait + Sync>(
    rt: &R,
    alloc: Global,
    team: Team,
    input: &[u8],
    gate: &G,
    hook: H,
) -> Result<Answer, Memory>
    requires short { length input.now ≤ MOST_BYTES }
    requires some_workers { 1 ≤ team.workers }
    requires few_workers { team.workers ≤ MOST_WORKERS }
    requires few_viewers { team.viewers ≤ MOST_VIEWERS }
    ensures { IfOk result (λ answer.
        Says (RunOnThreads team.workers team.viewers) (H.base hook) input.now (answer_ending answer)
        (answer_text answer)) }
{
    match parse(alloc, input) {
        Ok(plans) => Ok(Answer::Ran(run_plans(rt, alloc, plans, team, gate, hook)?)),
        Err(ScriptFault::Refused { line, kind }) => Ok(Answer::Found(Status::Refused {
            line,
            kind,
        })),
        Err(ScriptFault::Memory(memory)) => Err(memory),
    }
}

/// What a command says of an input: a run on threads, or one of plain words. It neither reads nor writes.
pub(crate) fn answer_on<H: Hook + Send, G: Gate + Sync, R: Threads + Wait + Sync>(
    rt: &R,
    alloc: Global,
    command: Command,
    input: &[u8],
    gate: &G,
    hook: H,
) -> Result<Answer, Memory>
    requires short { length input.now ≤ most_bytes (Some command) }
    requires sized { IsSized command }
    ensures said { IfOk result (λ answer.
        Says command (H.base hook) input.now (answer_ending answer) (answer_text answer)) }
{
    match command {
        Command::RunOnThreads { workers, views } => {
            let team = Team {
                workers,
                viewers: views,
            };
            run_answer(rt, alloc, team, input, gate, hook)
        }
        _ => answer_to(alloc, command, input, hook),
    }
}
