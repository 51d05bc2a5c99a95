ghost use Rattle.std.specs.Prelude.{◌≡◌, ◌≤◌, ◌^◌, length, IfOk, IfSome};
ghost use Rattle.script_lines.specs.Left.{words_left, values_left};
ghost use Rattle.script_lines.specs.Numbers.{decimal_of, long_decimal_of};
ghost use Rattle.script_lines.specs.Outcome.{Gives, or_error};
ghost use Rattle.script_lines.specs.Shown.{begun_shown, fill_begun_shown, put_shown, fill_shown, values_counted};
ghost use Rattle.script_lines.specs.Said.{priority_of, none_said, one_said, two_said, numbered_said, named_said, stream_said, put_begun, put_said, fill_begun, fill_said};
ghost use Rattle.script_lines.specs.declared.fault.Kind.TheVariants.{Number};

use crate::fault::{Kind, LineError};
use crate::number::{decimal_u32, decimal_u64};
use crate::reading::{Values, first_decimal, has_word};
use crate::text::Words;
use gpu_cmd::{Name, Priority};

fn priority_of(word: &[u8]) -> Option<Priority>
    ensures { result ≡ priority_of word.now }
{
    if word == b"high".as_slice() {
        Some(Priority::High)
    } else if word == b"normal".as_slice() {
        Some(Priority::Normal)
    } else if word == b"low".as_slice() {
        Some(Priority::Low)
    } else {
        None
    }
}

/// A decimal number of 32 bits that a word says.
pub(crate) fn decimal_at(word: &[u8]) -> Result<u32, LineError>
    ensures { Gives (λ n. n) result (or_error Number (decimal_of word.now)) }
{
    match decimal_u32(word) {
        Some(number) => Ok(number),
        None => Err(LineError::Refused(Kind::Number)),
    }
}

/// A decimal number of 64 bits that a word says.
pub(crate) fn long_decimal_at(word: &[u8]) -> Result<u64, LineError>
    ensures { Gives (λ n. n) result (or_error Number (long_decimal_of word.now)) }
{
    match decimal_u64(word) {
        Some(number) => Ok(number),
        None => Err(LineError::Refused(Kind::Number)),
    }
}

/// The words after `finish` and `close`: there is none.
#[tactic(auto, unfolding(crate::specs::Said::none_said))]
pub fn none_said(mut words: Words<'_>) -> Result<(), LineError>
    ensures { Gives (λ said. tt) result (none_said (words_left words.entry)) }
{
    match words.next() {
        None => Ok(()),
        Some(_) => Err(LineError::Refused(Kind::Word)),
    }
}

/// The word after `token`.
#[tactic(auto, unfolding(crate::specs::Said::one_said))]
pub fn one_said(mut words: Words<'_>) -> Result<u32, LineError>
    ensures { Gives (λ said. said) result (one_said (words_left words.entry)) }
{
    let (Some(n), None) = (words.next(), words.next()) else {
        return Err(LineError::Refused(Kind::Word));
    };
    decimal_at(n)
}

/// The words after `memory`, `results` and `dump`.
#[tactic(auto, unfolding(crate::specs::Said::two_said))]
pub fn two_said(mut words: Words<'_>) -> Result<(u32, u32), LineError>
    ensures { Gives (λ said. said) result (two_said (words_left words.entry)) }
{
    let (Some(m), Some(n), None) = (words.next(), words.next(), words.next()) else {
        return Err(LineError::Refused(Kind::Word));
    };
    let first = decimal_at(m)?;
    let second = decimal_at(n)?;
    Ok((first, second))
}

// The words after `stream` in version 1: stream S has the name (0, S).
#[tactic(auto, unfolding(crate::specs::Said::numbered_said))]
fn numbered_said(mut words: Words<'_>) -> Result<(Name, Priority, u32), LineError>
    ensures { Gives (λ said. said) result (numbered_said (words_left words.entry)) }
{
    let (Some(s), Some(p), Some(r), None) = (words.next(), words.next(), words.next(), words.next())
    else {
        return Err(LineError::Refused(Kind::Word));
    };
    let Some(priority) = priority_of(p) else {
        return Err(LineError::Refused(Kind::Word));
    };
    let stream = decimal_at(s)?;
    let ring = decimal_at(r)?;
    let name = Name {
        namespace: 0,
        id: u64::from(stream),
    };
    Ok((name, priority, ring))
}

// The words after `stream` in version 2.
#[tactic(auto, unfolding(crate::specs::Said::named_said))]
fn named_said(mut words: Words<'_>) -> Result<(Name, Priority, u32), LineError>
    ensures { Gives (λ said. said) result (named_said (words_left words.entry)) }
{
    let (Some(n), Some(i), Some(p)) = (words.next(), words.next(), words.next()) else {
        return Err(LineError::Refused(Kind::Word));
    };
    let (Some(r), None) = (words.next(), words.next()) else {
        return Err(LineError::Refused(Kind::Word));
    };
    let Some(priority) = priority_of(p) else {
        return Err(LineError::Refused(Kind::Word));
    };
    let namespace = decimal_at(n)?;
    let id = long_decimal_at(i)?;
    let ring = decimal_at(r)?;
    Ok((Name { namespace, id }, priority, ring))
}

/// The words after `stream`, by the version.
pub fn stream_said(version: u32, words: Words<'_>) -> Result<(Name, Priority, u32), LineError>
    ensures { Gives (λ said. said) result (stream_said version (words_left words.entry)) }
{
    if version == 2 {
        named_said(words)
    } else {
        numbered_said(words)
    }
}

// How many words there are, where each of them is a value.
fn count_values(values: Values<'_>) -> Option<usize>
    ensures counted { result ≡ values_counted (values_left values.entry) }
    ensures few { IfSome result (λ count. count ≤ 2 ^ 63) }
{
    let mut count = 0;
    for value in values {
        value?;
        count += 1;
    }
    Some(count)
}

/// What a put line says: a place, and a given number of words that are values.
#[derive(Clone, Copy)]
pub struct Putting<'a> {
    pub place: u32,
    pub values: Words<'a>,
    pub count: usize,
}

/// The words after `put`, but for what the values are: a place, and one or more words that are not read yet.
#[tactic(auto, using(crate::proofs::Puts::put_without_value, crate::proofs::Puts::put_with_place), unfolding(crate::specs::Said::put_begun))]
pub fn put_begun<'a>(words: Words<'a>) -> Result<(u32, Values<'a>), LineError>
    ensures { Gives begun_shown result (put_begun (words_left words.entry)) }
{
    let Some((place, rest)) = first_decimal(words.rest) else {
        return Err(LineError::Refused(Kind::Word));
    };
    if !has_word(rest) {
        return Err(LineError::Refused(Kind::Word));
    }
    match place {
        Some(place) => Ok((place, Values { rest })),
        None => Err(LineError::Refused(Kind::Number)),
    }
}

/// The words after `put`.
#[tactic(auto, using(crate::proofs::Puts::put_said_is))]
pub fn put_said<'a>(words: Words<'a>) -> Result<Putting<'a>, LineError>
    ensures said { Gives put_shown result (put_said (words_left words.entry)) }
    ensures counted { IfOk result (λ said. said.count ≡ length (words_left said.values)) }
    ensures few { IfOk result (λ said. said.count ≤ 2 ^ 63) }
{
    let (place, values) = put_begun(words)?;
    match count_values(values) {
        Some(count) => Ok(Putting {
            place,
            values: Words { rest: values.rest },
            count,
        }),
        None => Err(LineError::Refused(Kind::Number)),
    }
}

/// The words after `fill`, but for what the values are: a memory, and what a put line begins with.
#[tactic(auto, unfolding(crate::specs::Said::fill_begun))]
pub fn fill_begun<'a>(words: Words<'a>) -> Result<(u32, u32, Values<'a>), LineError>
    ensures { Gives fill_begun_shown result (fill_begun (words_left words.entry)) }
{
    let Some((memory, rest)) = first_decimal(words.rest) else {
        return Err(LineError::Refused(Kind::Word));
    };
    let mut behind = Words { rest };
    let Some(memory) = memory else {
        let (Some(_), Some(_)) = (behind.next(), behind.next()) else {
            return Err(LineError::Refused(Kind::Word));
        };
        return Err(LineError::Refused(Kind::Number));
    };
    let (place, values) = put_begun(behind)?;
    Ok((memory, place, values))
}

/// The words after `fill`: a memory, and what a put line says.
#[tactic(auto, unfolding(crate::specs::Said::fill_said))]
pub fn fill_said<'a>(mut words: Words<'a>) -> Result<(u32, Putting<'a>), LineError>
    ensures said { Gives fill_shown result (fill_said (words_left words.entry)) }
    ensures counted { IfOk result (λ said. said.1.count ≡ length (words_left said.1.values)) }
    ensures few { IfOk result (λ said. said.1.count ≤ 2 ^ 63) }
{
    let Some(first) = words.next() else {
        return Err(LineError::Refused(Kind::Word));
    };
    let rest = words;
    let (Some(_), Some(_)) = (words.next(), words.next()) else {
        return Err(LineError::Refused(Kind::Word));
    };
    let memory = decimal_at(first)?;
    let putting = put_said(rest)?;
    Ok((memory, putting))
}
