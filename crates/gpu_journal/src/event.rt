ghost use Rattle.std.specs.Prelude.{◌≡◌};
ghost use Rattle.gpu_journal.specs.Past.{event_words};

use gpu_cmd::CmdError;
use gpu_word::Words;

/// Why a stream was lost.
#[derive(Clone, Copy)]
pub enum Why {
    /// Its next command is invalid.
    Error(CmdError),
    /// The service wanted memory.
    Memory,
}

/// One event of a run. Streams and orders count from 1.
#[derive(Drop)]
pub enum Event<'a> {
    /// A flush drew the next order number; `place` is how many actions of the stream stand before it.
    Order {
        stream: u32,
        order: u32,
        place: u32,
    },
    /// A command was executed on these words.
    Step {
        stream: u32,
        words: Words<'a>,
    },
    /// All commands of an order were executed.
    Finish {
        stream: u32,
        order: u32,
    },
    /// The stream was lost. An error carries the words that it was found in.
    Lost {
        stream: u32,
        why: Why,
        words: Words<'a>,
    },
    /// The client closed its stream.
    Close {
        stream: u32,
    },
}

impl<'a> Event<'a> {
    /// The words that the event carries.
    #[inline(always)]
    pub fn words(&self) -> &[(u32, u32)]
        ensures { result.now ≡ event_words self.now }
    {
        match self {
            Event::Step { words, .. } | Event::Lost { words, .. } => words.as_slice(),
            Event::Order { .. } | Event::Finish { .. } | Event::Close { .. } => &[],
        }
    }
}
