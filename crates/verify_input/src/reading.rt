ghost use Rattle.std.specs.Prelude.{◌≡◌, ◌+◌, ◌≤◌, ◌∷◌, ◌++◌, length, reverse, IfOk, IfErr, IfSome, MatchOption};
ghost use Rattle.verify_input.specs.Reading.{HasNoFeed, IsJournal, IsFault};

use crate::event::read_event;
use crate::fault::JournalFault;
use crate::rest::MOST_WHOLE_BYTES;
use gpu_journal::Journal;
use script_lines::{cut_at, line_end};
use std::alloc::Global;

// The first line, without its line feed, and what stands after it.
fn first_line(text: &[u8]) -> Option<(&[u8], &[u8])>
    ensures cut { IfSome result (λ cut. text.now ≡ cut.0.now ++ 10 ∷ cut.1.now) }
    ensures first { MatchOption result (HasNoFeed text.now) (λ cut. HasNoFeed cut.0.now) }
{
    match line_end(text) {
        Some(end) => Some(cut_at(text, end)),
        None => None,
    }
}

/// The events of a journal text, which has at most 67,108,864 bytes.
///
/// Refused: the first line that is no event line in its exact spelling with a line feed, of numbers of 32 bits.
pub fn read_journal(alloc: Global, text: &[u8]) -> Result<Journal, JournalFault>
    requires { length text.now ≤ MOST_WHOLE_BYTES }
    ensures ok { IfOk result (λ journal. IsJournal text.now (reverse journal.events)) }
    ensures err { IfErr result (λ fault. IsFault text.now fault) }
{
    let mut journal = Journal::make(alloc);
    let mut room = Vec::new(alloc);
    let mut rest = text;
    while !rest.is_empty() {
        let line = journal.count() as u32 + 1;
        let Some((front, behind)) = first_line(rest) else {
            return Err(JournalFault::Refused { line });
        };
        let Some(said) = read_event(&mut room, front)? else {
            return Err(JournalFault::Refused { line });
        };
        journal.add(said)?;
        rest = behind;
    }
    Ok(journal)
}
