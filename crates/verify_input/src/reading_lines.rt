//! The values that a line of a dump or of a look has, at the places where they are due.
ghost use Rattle.std.specs.Prelude.{◌≡◌, ℕ};
ghost use Rattle.verify_input.specs.Said.{pieces_of};
ghost use Rattle.verify_input.specs.Looks.{EndsWith, BeginsWithLook, look_said};

use crate::cut::first_line;
use crate::number::{own_number, own_value};
use crate::pieces::{Pieces, first_piece};

/// The value of eight digits that stand before the line feed of a first line of `count` bytes, or 0.
pub(crate) fn value_before_end(text: &[u8], count: usize) -> u32
    ensures { (value : ℕ) → EndsWith text.now count value → result ≡ value }
{
    if count < 9 {
        return 0;
    }
    if text.len() < count {
        return 0;
    }
    let (front, _) = text.split_at(count - 1);
    let (_, digits) = front.split_at(count - 9);
    own_value(digits).unwrap_or(0)
}

// The number of events and the sum that the pieces after `view` name.
#[tactic(auto, unfolding(crate::specs::Looks::look_said))]
fn look_in(mut pieces: Pieces<'_>) -> (u32, u32)
    ensures { result ≡ look_said (pieces_of pieces.entry.rest.now) }
{
    let (Some(_), Some(events), Some(sum), None) = (
        pieces.next(),
        pieces.next(),
        pieces.next(),
        pieces.next(),
    ) else {
        return (0, 0);
    };
    (own_number(events).unwrap_or(0), own_value(sum).unwrap_or(0))
}

// The number of events and the sum that a line without its line feed names.
fn look_on(line: &[u8]) -> (u32, u32)
    ensures { result ≡ look_said (pieces_of line.now) }
{
    let (_, pieces) = first_piece(line);
    look_in(pieces)
}

/// The number of events and the sum that the first line names, where that is the line of a look.
pub(crate) fn first_look(text: &[u8]) -> (u32, u32)
    ensures { (look : ℕ × ℕ) → BeginsWithLook text.now look → result ≡ look }
{
    match first_line(text) {
        Some((line, _)) => look_on(line),
        None => (0, 0),
    }
}
