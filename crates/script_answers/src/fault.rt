ghost use Rattle.std.specs.Prelude.{◌≡◌};
ghost use Rattle.script_answers.specs.Statuses.{status_fault};

use crate::status::Status;
use gpu_plan::Kind;
use thiserror::Error;
use verify_input::What;

/// The table of texts: what standard error shows of a status other than `Ok`.
#[derive(Clone, Copy, Debug, Error)]
pub enum Fault {
    #[error("some streams were lost")]
    SomeLost,
    #[error("bad command line")]
    Usage,
    #[error("read fault")]
    Read,
    #[error("write fault")]
    Write,
    #[error("refused: line {line}: {kind:?}")]
    Refused { line: u32, kind: Kind },
    #[error("no memory")]
    Memory,
    #[error("input too long")]
    TooLong,
    #[error("streams were lost for want of memory")]
    MemoryLost,
    #[error("no: event {event} rule {rule}")]
    No { event: u32, rule: u32 },
    #[error("no: line {line}: {what}")]
    Differs { line: u32, what: What },
    #[error("not complete")]
    NotComplete,
    #[error("refused: journal line {line}")]
    NoJournal { line: u32 },
}

/// What a status says.
pub fn fault_of(status: Status) -> Option<Fault>
    ensures { result ≡ status_fault status }
{
    match status {
        Status::Ok => None,
        Status::SomeLost => Some(Fault::SomeLost),
        Status::Usage => Some(Fault::Usage),
        Status::ReadFault => Some(Fault::Read),
        Status::WriteFault => Some(Fault::Write),
        Status::Refused { line, kind } => Some(Fault::Refused { line, kind }),
        Status::NoMemory => Some(Fault::Memory),
        Status::TooLong => Some(Fault::TooLong),
        Status::MemoryLost => Some(Fault::MemoryLost),
        Status::No { event, rule } => Some(Fault::No { event, rule }),
        Status::Differs { line, what } => Some(Fault::Differs { line, what }),
        Status::NotComplete => Some(Fault::NotComplete),
        Status::NoJournal { line } => Some(Fault::NoJournal { line }),
    }
}
