ghost use Rattle.std.specs.Prelude.{◌≡◌};
ghost use Rattle.gpu_word.specs.Refused.{refused};

use gpu_word::Memory;
use std::alloc::AllocFailed;

/// Why a text gave no events.
#[derive(Drop)]
pub enum JournalFault {
    /// The first line that is no event line, counted from 1.
    Refused { line: u32 },
    /// An allocation was refused; nothing is said of the text.
    Memory(Memory),
}

impl From<Memory> for JournalFault {
    ghost use Rattle.verify_input.specs.declared.fault.JournalFault.TheVariants as faults;

    ghost from_gives = { λ memory e. e ≡ faults.Memory memory };

    fn from(memory: Memory) -> JournalFault {
        JournalFault::Memory(memory)
    }
}

impl<T: Drop> From<AllocFailed<T>> for JournalFault {
    ghost use Rattle.verify_input.specs.declared.fault.JournalFault.TheVariants as faults;

    ghost from_gives = { λ _ e. e ≡ faults.Memory refused };

    fn from(error: AllocFailed<T>) -> JournalFault {
        JournalFault::Memory(Memory::from(error))
    }
}
