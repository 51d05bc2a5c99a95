ghost use Rattle.std.specs.Prelude.{◌≡◌, true, false, reverse, IfOk, OnErr};
ghost use Rattle.std.specs.List.{list_any};
ghost use Rattle.run_output.specs.Pieces.{Adds};
ghost use Rattle.script_answers.specs.Answers.{answer_ending, answer_text};
ghost use Rattle.script_answers.specs.Runs.{is_error_loss, run_ending};
ghost use Rattle.script_answers.specs.Statuses.{tells_all};
ghost use Rattle.serial_laws.specs.Going.{is_memory_loss};

use crate::status::Status;
use gpu_io::{Failed, Sink};
use gpu_journal::{Event, Journal, Why};
use run_output::{PictureOutput, RunOutput, write_all};

/// An answer, with all memory that writing it takes.
#[derive(Drop)]
pub enum Answer {
    /// What is wrong with the input, of which nothing is written.
    Found(Status),
    /// A text that was made whole.
    Text(Vec<u8>),
    /// A run, whose output is written.
    Ran(RunOutput),
    /// The line of a right journal, and the images that it leaves.
    Right(PictureOutput),
}

// Whether an event is a loss by an error.
fn is_error_loss(event: &Event<'_>) -> bool
    ensures { result ≡ is_error_loss event.now }
{
    matches!(
        event,
        Event::Lost {
            why: Why::Error(_),
            ..
        }
    )
}

// Whether an event is a loss as out of memory.
fn wants_memory(event: &Event<'_>) -> bool
    ensures { result ≡ is_memory_loss event.now }
{
    matches!(
        event,
        Event::Lost {
            why: Why::Memory,
            ..
        }
    )
}

// Whether one of the events is a loss by an error.
fn has_error_loss(journal: &Journal) -> bool
    ensures { result ≡ list_any is_error_loss (reverse journal.now.events) }
{
    for index in 0..journal.count() {
        if is_error_loss(&journal.event(index)) {
            return true;
        }
    }
    false
}

// Whether one of the events is a loss as out of memory.
fn has_memory_loss(journal: &Journal) -> bool
    ensures { result ≡ list_any is_memory_loss (reverse journal.now.events) }
{
    for index in 0..journal.count() {
        if wants_memory(&journal.event(index)) {
            return true;
        }
    }
    false
}

// How a run ends that prints these events.
fn run_ending(journal: &Journal) -> Status
    ensures { result ≡ run_ending (reverse journal.now.events) }
{
    match (has_memory_loss(journal), has_error_loss(journal)) {
        (true, _) => Status::MemoryLost,
        (false, true) => Status::SomeLost,
        (false, false) => Status::Ok,
    }
}

// Writes the output of a run, and tells how the run ends.
#[tactic(auto, using(crate::proofs::Endings::run_writes))]
fn write_run<K: Sink>(run: RunOutput, sink: &mut K) -> Result<Status, Failed>
    ensures adds { Adds K.written K.faults sink.old sink.new result (answer_text (Answer.Ran run)) }
    ensures ending { IfOk result (λ ending. ending ≡ answer_ending (Answer.Ran run)) }
    ensures writing { tells_all (answer_ending (Answer.Ran run)) ≡ true }
{
    let ending = run_ending(run.report().journal());
    run.write(sink)?;
    Ok(ending)
}

impl Answer {
    /// Writes the text, and tells how the answer ends. After a fault a front of the text stands.
    ///
    /// # Errors
    ///
    /// `Failed`: a write failed.
    #[tactic(auto, using(crate::proofs::Endings::adds_nothing))]
    pub fn write<K: Sink>(self, sink: &mut K) -> Result<Status, Failed>
        ensures adds { Adds K.written K.faults sink.old sink.new result (answer_text self) }
        ensures ending { IfOk result (λ ending. ending ≡ answer_ending self) }
        // Only an ending that tells of a text is written.
        ensures writing { OnErr result (tells_all (answer_ending self) ≡ true) }
        ensures silent { tells_all (answer_ending self) ≡ false → sink.new ≡ sink.old }
    {
        match self {
            Answer::Found(ending) => Ok(ending),
            Answer::Text(text) => {
                write_all(sink, &text)?;
                Ok(Status::Ok)
            }
            Answer::Ran(run) => write_run(run, sink),
            Answer::Right(right) => {
                right.write(sink)?;
                Ok(Status::Ok)
            }
        }
    }
}
