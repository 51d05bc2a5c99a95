ghost use Rattle.std.specs.Prelude.{◌≡◌, position, MatchOption, IfOk, IsTrue, Some, None, if◌then◌else◌};
ghost use Rattle.std.specs.Bool.{Decides};
ghost use Rattle.verify_input.specs.Said.{pieces_of, words_said};
ghost use Rattle.verify_input.specs.Fronts.{is_colon, IsCut, HasValue, HasNoValue, HasWord, HasNoWord};

use crate::number::{own_value, short_number};
use crate::pieces::Pieces;
use gpu_word::Words;
use script_lines::cut_at;
use std::alloc::AllocError;

// The place of the first colon.
fn colon_in(text: &[u8]) -> Option<usize>
    ensures { result ≡ position is_colon text.now }
{
    text.iter().position(|byte| *byte == b':')
}

// Whether a text is nothing, or begins with a space.
fn is_cut(text: &[u8]) -> bool
    ensures { Decides result (IsCut text.now) }
{
    match text.first() {
        Some(byte) => *byte == b' ',
        None => true,
    }
}

// The value whose eight digits a text begins with, and what stands after them: nothing, or a space and more.
fn first_value(text: &[u8]) -> Option<(u32, &[u8])>
    ensures { MatchOption result (HasNoValue text.now)
        (λ front. HasValue text.now front.0 front.1.now) }
{
    if text.len() < 8 {
        return None;
    }
    let (digits, rest) = text.split_at(8);
    if !is_cut(rest) {
        return None;
    }
    let value = own_value(digits)?;
    Some((value, rest))
}

// Whether the first colon has one byte before it.
fn is_behind_one(text: &[u8]) -> bool
    ensures { IsTrue result → position is_colon text.now ≡ Some 1 }
{
    text.len() > 1 && text[0] != b':' && text[1] == b':'
}

// Whether the first colon has two bytes before it.
fn is_behind_two(text: &[u8]) -> bool
    ensures { IsTrue result → position is_colon text.now ≡ Some 2 }
{
    text.len() > 2 && text[0] != b':' && text[1] != b':' && text[2] == b':'
}

// The place and the value of the word that a text begins with, whose first colon stands here, and what stands after it:
// nothing, or a space and more.
#[inline(always)]
fn word_at(text: &[u8], colon: usize) -> Option<((u32, u32), &[u8])>
    requires { position is_colon text.now ≡ Some colon }
    ensures { MatchOption result (HasNoWord text.now)
        (λ front. HasWord text.now front.0 front.1.now) }
{
    let (digits, behind) = cut_at(text, colon);
    let place = short_number(digits)?;
    let (value, rest) = first_value(behind)?;
    Some(((place, value), rest))
}

// The place and the value of the word that a text begins with, and what stands after it: nothing, or a space and more.
//
// Most words stand in a ring or a memory of few words, so a place of one digit or two is read without a loop.
fn first_word(text: &[u8]) -> Option<((u32, u32), &[u8])>
    ensures { MatchOption result (HasNoWord text.now)
        (λ front. HasWord text.now front.0 front.1.now) }
{
    if is_behind_two(text) {
        return word_at(text, 2);
    }
    if is_behind_one(text) {
        return word_at(text, 1);
    }
    let colon = colon_in(text)?;
    word_at(text, colon)
}

// The words that all pieces say, in place of what was there; false where some piece is no word.
fn collect_words(words: &mut Vec<(u32, u32)>, pieces: Pieces<'_>) -> Result<bool, AllocError>
    ensures { IfOk result (λ all. words_said (pieces_of pieces.entry.rest.now)
        ≡ (if all then Some words.new.items else None)) }
{
    words.clear();
    let mut rest = pieces.from_space();
    while let Some((_, text)) = rest.split_first() {
        let Some((word, more)) = first_word(text) else {
            return Ok(false);
        };
        words.push(word)?;
        rest = more;
    }
    Ok(true)
}

/// The words that all pieces say, if each is a word. They lie in `room`.
pub(crate) fn read_words<'a>(
    room: &'a mut Vec<(u32, u32)>,
    pieces: Pieces<'_>,
) -> Result<Option<Words<'a>>, AllocError>
    ensures { IfOk result (λ said. said ≡ words_said (pieces_of pieces.entry.rest.now)) }
{
    if collect_words(room, pieces)? {
        Ok(Some(Words::of(room)))
    } else {
        Ok(None)
    }
}
