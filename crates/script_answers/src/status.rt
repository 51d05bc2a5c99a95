ghost use Rattle.std.specs.Prelude.{◌≡◌};
ghost use Rattle.script_answers.specs.Statuses.{status_code};

use gpu_plan::Kind;
use verify_input::What;

/// How the program ended.
#[derive(Clone, Copy)]
pub enum Status {
    /// All is written that was asked for, and no stream of it was lost by an error.
    Ok,
    /// The script was run and all of its output written, in which a stream is lost by an error.
    SomeLost,
    /// The command line is none that the program knows; nothing was read or written.
    Usage,
    /// The input could not be read; nothing was written.
    ReadFault,
    /// The output could not be written; a front of it stands.
    WriteFault,
    /// The input is no script: its first bad line, counted from 1, with its first kind; nothing was written.
    Refused { line: u32, kind: Kind },
    /// Memory ran out; nothing was written.
    NoMemory,
    /// The input is longer than that of its command may be; nothing was written.
    TooLong,
    /// The script was run and all of its output written, in which a stream is lost as out of memory.
    MemoryLost,
    /// The journal is not legal: the first event that breaks a rule, counted from 1, and the least rule that it breaks.
    No { event: u32, rule: u32 },
    /// A line of a whole output is off: the first, counted from 1, and what is off there.
    Differs { line: u32, what: What },
    /// The journal is legal, and not complete.
    NotComplete,
    /// No journal stands after the script: the first line that is none, counted from 1.
    NoJournal { line: u32 },
}

impl Status {
    /// The exit status of the program.
    pub fn code(&self) -> u8
        ensures { result ≡ status_code self.now }
    {
        match self {
            Status::Ok => 0,
            Status::SomeLost => 1,
            Status::Usage => 2,
            Status::ReadFault => 3,
            Status::WriteFault => 4,
            Status::Refused { .. } => 5,
            Status::NoMemory => 6,
            Status::TooLong => 7,
            Status::MemoryLost => 8,
            Status::No { .. } | Status::Differs { .. } => 9,
            Status::NotComplete => 10,
            Status::NoJournal { .. } => 11,
        }
    }
}
