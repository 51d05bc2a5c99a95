ghost use Rattle.std.specs.Prelude.{◌≡◌, ◌<◌, ◌≤◌, true, false, Some, length, IfOk, IfSome, IsErrOf};
ghost use Rattle.gpu_io.specs.Faults.{HasRisen};
ghost use Rattle.gpu_io.specs.Whole.{ReadsAtMost, ReadsMoreThan};
ghost use Rattle.script_answers.specs.Says.{reads, most_bytes};
ghost use Rattle.script_answers.specs.Tells.{Takes, held};

use crate::command::Command;
use gpu_io::{ReadError, Source, read_all};
use std::alloc::Global;

/// The input of a command: all that its source has left, or nothing where the command does not read.
///
/// # Errors
///
/// A read failed, the input is too long, or there is no memory for it.
pub fn take_input<S: Source>(
    alloc: Global,
    command: Command,
    source: &mut S,
) -> Result<Vec<u8>, ReadError>
    ensures taken { IfOk result (λ input.
        Takes (most_bytes (Some command)) (reads (Some command)) (S.left source.old)
        (S.left source.new) input.items) }
    ensures short { IfOk result (λ input. length input.items ≤ most_bytes (Some command)) }
    ensures told { IfOk result (λ input.
        IfSome (held (reads (Some command)) (S.left source.old)) (λ text. input.items ≡ text)) }
    ensures unread { reads (Some command) ≡ false → source.new ≡ source.old }

    ensures only { IsErrOf result ReadError.TooLong → reads (Some command) ≡ true }
    ensures too_long { IsErrOf result ReadError.TooLong
        → ReadsMoreThan (most_bytes (Some command)) (S.left source.old) (S.left source.new) }
    ensures told_long { IsErrOf result ReadError.TooLong
        → IfSome (held (reads (Some command)) (S.left source.old))
        (λ text. most_bytes (Some command) < length text) }

    ensures reading { IsErrOf result ReadError.Fault → reads (Some command) ≡ true }
    ensures fault { IsErrOf result ReadError.Fault
        → HasRisen (S.faults source.old) (S.faults source.new) }
    ensures early { IsErrOf result ReadError.Fault
        → ReadsAtMost (most_bytes (Some command)) (S.left source.old) (S.left source.new) }
{
    if command.reads() {
        read_all(alloc, source, command.most_bytes())
    } else {
        Ok(Vec::new(alloc))
    }
}
