ghost use Rattle.std.specs.Prelude.{◌≡◌, IfOk};
ghost use Rattle.verify_input.specs.Said.{pieces_of, why_said, lost_with, order_said, step_said, finish_said, lost_said, close_said, said_by, line_said};

use crate::number::own_number;
use crate::pieces::{Pieces, first_piece};
use crate::word::read_words;
use gpu_cmd::CmdError;
use gpu_journal::{Event, Why};
use gpu_word::{Memory, Words};

// Why a stream was lost: a word that is `memory` or the number of an error.
fn why(word: &[u8]) -> Option<Why>
    ensures { result ≡ why_said word.now }
{
    if word == b"memory".as_slice() {
        Some(Why::Memory)
    } else if word == b"1".as_slice() {
        Some(Why::Error(CmdError::InvalidSize))
    } else if word == b"2".as_slice() {
        Some(Why::Error(CmdError::OutOfBounds))
    } else if word == b"3".as_slice() {
        Some(Why::Error(CmdError::UnknownCommand))
    } else if word == b"4".as_slice() {
        Some(Why::Error(CmdError::InvalidArguments))
    } else if word == b"6".as_slice() {
        Some(Why::Error(CmdError::Quota))
    } else {
        None
    }
}

// The pieces after `order`.
#[tactic(auto, unfolding(crate::specs::Said::order_said))]
fn order<'a>(mut pieces: Pieces<'_>) -> Option<Event<'a>>
    ensures { result ≡ order_said (pieces_of pieces.entry.rest.now) }
{
    let (Some(s), Some(n), Some(c), None) = (
        pieces.next(),
        pieces.next(),
        pieces.next(),
        pieces.next(),
    ) else {
        return None;
    };
    let stream = own_number(s)?;
    let order = own_number(n)?;
    let place = own_number(c)?;
    Some(Event::Order {
        stream,
        order,
        place,
    })
}

// The pieces after `step`.
#[tactic(auto, unfolding(crate::specs::Said::step_said))]
fn read_step<'a>(
    room: &'a mut Vec<(u32, u32)>,
    mut pieces: Pieces<'_>,
) -> Result<Option<Event<'a>>, Memory>
    ensures { IfOk result (λ said. said ≡ step_said (pieces_of pieces.entry.rest.now)) }
{
    let Some(s) = pieces.next() else {
        return Ok(None);
    };
    let Some(stream) = own_number(s) else {
        return Ok(None);
    };
    match read_words(room, pieces)? {
        Some(words) => Ok(Some(Event::Step { stream, words })),
        None => Ok(None),
    }
}

// The pieces after `finish`.
#[tactic(auto, unfolding(crate::specs::Said::finish_said))]
fn finish<'a>(mut pieces: Pieces<'_>) -> Option<Event<'a>>
    ensures { result ≡ finish_said (pieces_of pieces.entry.rest.now) }
{
    let (Some(s), Some(n), None) = (pieces.next(), pieces.next(), pieces.next()) else {
        return None;
    };
    let stream = own_number(s)?;
    let order = own_number(n)?;
    Some(Event::Finish { stream, order })
}

// A loss with these words: one as out of memory has none.
fn lost_with<'a>(stream: u32, why: Why, words: Words<'a>) -> Option<Event<'a>>
    ensures { result ≡ lost_with stream why words.entry }
{
    match why {
        Why::Error(_) => {}
        Why::Memory => {
            if !words.as_slice().is_empty() {
                return None;
            }
        }
    }
    Some(Event::Lost { stream, why, words })
}

// The pieces after `lost`.
#[tactic(auto, unfolding(crate::specs::Said::lost_said))]
fn read_lost<'a>(
    room: &'a mut Vec<(u32, u32)>,
    mut pieces: Pieces<'_>,
) -> Result<Option<Event<'a>>, Memory>
    ensures { IfOk result (λ said. said ≡ lost_said (pieces_of pieces.entry.rest.now)) }
{
    let (Some(s), Some(w)) = (pieces.next(), pieces.next()) else {
        return Ok(None);
    };
    let (Some(stream), Some(why)) = (own_number(s), why(w)) else {
        return Ok(None);
    };
    match read_words(room, pieces)? {
        Some(words) => Ok(lost_with(stream, why, words)),
        None => Ok(None),
    }
}

// The pieces after `close`.
#[tactic(auto, unfolding(crate::specs::Said::close_said))]
fn close<'a>(mut pieces: Pieces<'_>) -> Option<Event<'a>>
    ensures { result ≡ close_said (pieces_of pieces.entry.rest.now) }
{
    let (Some(s), None) = (pieces.next(), pieces.next()) else {
        return None;
    };
    let stream = own_number(s)?;
    Some(Event::Close { stream })
}

// What a first word says with the pieces after it.
#[tactic(auto, unfolding(crate::specs::Said::said_by))]
fn read_by_keyword<'a>(
    room: &'a mut Vec<(u32, u32)>,
    keyword: &[u8],
    pieces: Pieces<'_>,
) -> Result<Option<Event<'a>>, Memory>
    ensures { IfOk result (λ said. said ≡ said_by keyword.now (pieces_of pieces.entry.rest.now)) }
{
    if keyword == b"step".as_slice() {
        read_step(room, pieces)
    } else if keyword == b"order".as_slice() {
        Ok(order(pieces))
    } else if keyword == b"finish".as_slice() {
        Ok(finish(pieces))
    } else if keyword == b"lost".as_slice() {
        read_lost(room, pieces)
    } else if keyword == b"close".as_slice() {
        Ok(close(pieces))
    } else {
        Ok(None)
    }
}

/// The event whose line this is, without its line feed. Its words lie in `room`.
#[tactic(auto, unfolding(crate::specs::Said::line_said))]
pub(crate) fn read_event<'a>(
    room: &'a mut Vec<(u32, u32)>,
    line: &[u8],
) -> Result<Option<Event<'a>>, Memory>
    ensures { IfOk result (λ said. said ≡ line_said line.now) }
{
    let (keyword, pieces) = first_piece(line);
    read_by_keyword(room, keyword, pieces)
}
