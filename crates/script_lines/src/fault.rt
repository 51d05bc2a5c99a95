ghost use Rattle.std.specs.Prelude.{◌≡◌};
ghost use Rattle.gpu_word.specs.Refused.{refused};
ghost use Rattle.script_lines.specs.declared.fault.LineError.TheVariants.{Memory};

use gpu_word::Memory;
use std::alloc::{AllocError, AllocFailed};

/// What is wrong with a line, in the order in which it is looked for.
#[derive(Clone, Copy, Debug)]
pub enum Kind {
    /// The line stands where the head line should, and is none.
    Head,
    /// The first word is unknown, or the words do not fit it.
    Word,
    /// A word at a number's place is no number in its range.
    Number,
    /// The line stands where such a line may not stand.
    Order,
    /// What the line declares is declared already.
    Double,
    /// The line speaks of a place that is not there.
    Place,
    /// The line goes past a limit of the format.
    Limit,
}

/// Why a text gave no plans.
#[derive(Drop)]
pub enum ScriptFault {
    /// The first bad line, counted from 1, with its first kind.
    Refused { line: u32, kind: Kind },
    /// An allocation was refused; nothing is said of the text.
    Memory(Memory),
}

/// Why a line was not taken up.
#[derive(Drop)]
pub enum LineError {
    Refused(Kind),
    Memory(Memory),
}

impl From<Memory> for LineError {
    ghost from_gives = { λ memory e. e ≡ Memory memory };

    fn from(memory: Memory) -> LineError {
        LineError::Memory(memory)
    }
}

impl From<AllocError> for LineError {
    ghost from_gives = { λ _ e. e ≡ Memory refused };

    fn from(error: AllocError) -> LineError {
        LineError::Memory(Memory::from(error))
    }
}

impl<T: Drop> From<AllocFailed<T>> for LineError {
    ghost from_gives = { λ _ e. e ≡ Memory refused };

    fn from(error: AllocFailed<T>) -> LineError {
        LineError::Memory(Memory::from(error))
    }
}
