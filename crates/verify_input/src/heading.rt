ghost use Rattle.std.specs.Prelude.{◌<◌, ◌≤◌, ◌^◌, length, reverse, IfOk, IfErr};
ghost use Rattle.verify_input.specs.Reading.{whole_lines};
ghost use Rattle.verify_input.specs.Found.{head_of, TellsBehind, IsOtherAt};

use crate::fault::JournalFault;
use crate::reading::read_journal;
use crate::rest::{Bad, Rest};
use crate::sections::take_names;
use gpu_journal::Journal;
use gpu_plan::{MOST_BYTES, Plans};
use journal_text::Sheet;
use std::alloc::Global;

/// The events of a journal text with the head that these plans ask for. The text has at most 16,777,216 bytes.
///
/// Refused: the first line, counted from 1, that is missing or another than that of the head, or no event's.
pub(crate) fn read_behind_head(
    alloc: Global,
    plans: &Plans,
    text: &[u8],
) -> Result<Journal, JournalFault>
    requires { length text.now ≤ MOST_BYTES }
    ensures ok { IfOk result
        (λ journal. TellsBehind (head_of plans.now) (whole_lines text.now)
        (reverse journal.events)) }
    ensures few { IfOk result (λ journal. length journal.events < 2 ^ 32) }
    ensures err { IfErr result
        (λ fault. IsOtherAt (head_of plans.now) (whole_lines text.now) fault) }
{
    let mut sheet = Sheet::make(alloc, 0)?;
    let mut rest = Rest { text, line: 1 };
    match take_names(&mut rest, &mut sheet, plans) {
        Ok(()) => {}
        Err(Bad::Off { line, .. }) => return Err(JournalFault::Refused { line }),
        Err(Bad::Memory(memory)) => return Err(JournalFault::Memory(memory)),
    }
    match read_journal(alloc, rest.text) {
        Ok(journal) => Ok(journal),
        Err(JournalFault::Refused { line }) => Err(JournalFault::Refused {
            line: rest.line - 1 + line,
        }),
        Err(JournalFault::Memory(memory)) => Err(JournalFault::Memory(memory)),
    }
}
