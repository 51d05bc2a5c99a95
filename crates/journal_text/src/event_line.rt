ghost use Rattle.std.specs.Prelude.{◌≡◌, ◌+◌, ◌≤◌, ◌^◌, length, vec_len, vec_capacity, IfSome, IsNone};
ghost use Rattle.std.specs.List.{flat_map};
ghost use Rattle.journal_text.specs.Appended.{Appended};
ghost use Rattle.journal_text.specs.Digits.{numeral};
ghost use Rattle.journal_text.specs.Text.{word_text, why_text, event_words, event_text};

use crate::digits::{NUMBER, digit, hex, put_decimal, put_hex, put_number};
use crate::put::put;
use gpu_journal::{Event, Why};

/// The most bytes of an event's line beside its words.
pub(crate) const EVENT: usize = 80;

/// The most bytes of a word's place and value, with a space and a colon.
const WORD: usize = 20;

// Appends a word at a place of three digits or more.
fn put_far_word(out: &mut Vec<u8>, place: u32, value: u32)
    requires { vec_len out.old + length (word_text (place, value)) ≤ vec_capacity out.old }
    ensures text { Appended out.old out.new (word_text (place, value)) }
    ensures len { vec_len out.new ≡ vec_len out.old + length (word_text (place, value)) }
{
    out.push_reserved(b' ');
    put_decimal(out, u64::from(place));
    out.push_reserved(b':');
    put_hex(out, value);
}

// Appends a word that was fetched. Most stand in a ring or a memory of few words, and are put down in one piece.
#[tactic(auto, using(crate::proofs::Numerals::numeral_of_one, crate::proofs::Numerals::numeral_of_two))]
fn put_word(out: &mut Vec<u8>, place: u32, value: u32)
    requires { vec_len out.old + length (word_text (place, value)) ≤ vec_capacity out.old }
    ensures text { Appended out.old out.new (word_text (place, value)) }
    ensures len { vec_len out.new ≡ vec_len out.old + length (word_text (place, value)) }
{
    if place >= 100 {
        put_far_word(out, place, value);
        return;
    }
    let near = u64::from(place);
    let [a, b, c, d, e, f, g, h] = hex(value);
    if near < 10 {
        put(out, &[b' ', digit(near), b':', a, b, c, d, e, f, g, h]);
        return;
    }
    let (ten, one) = (digit(near / 10), digit(near % 10));
    put(out, &[b' ', ten, one, b':', a, b, c, d, e, f, g, h]);
}

// Appends words that were fetched.
fn put_words(out: &mut Vec<u8>, words: &[(u32, u32)])
    requires { vec_len out.old + length (flat_map word_text words.now) ≤ vec_capacity out.old }
    ensures text { Appended out.old out.new (flat_map word_text words.now) }
    ensures len { vec_len out.new ≡ vec_len out.old + length (flat_map word_text words.now) }
{
    for (place, value) in words {
        put_word(out, *place, *value);
    }
}

/// Appends why a stream was lost.
pub(crate) fn put_why(out: &mut Vec<u8>, why: Why)
    requires { vec_len out.old + NUMBER ≤ vec_capacity out.old }
    ensures text { Appended out.old out.new (why_text why) }
    ensures few { vec_len out.new ≤ vec_len out.old + NUMBER }
{
    match why {
        Why::Error(error) => put_number(out, u64::from(error.code())),
        Why::Memory => put(out, b" memory"),
    }
}

/// Appends the line of an event.
#[tactic(auto, unfolding(crate::specs::Text::event_text))]
pub(crate) fn put_event(out: &mut Vec<u8>, event: &Event<'_>)
    requires { vec_len out.old + EVENT + length (flat_map word_text (event_words event.now))
        ≤ vec_capacity out.old }
    ensures { Appended out.old out.new (event_text event.now) }
{
    match event {
        Event::Order {
            stream,
            order,
            place,
        } => {
            put(out, b"order");
            put_number(out, u64::from(*stream));
            put_number(out, u64::from(*order));
            put_number(out, u64::from(*place));
        }
        Event::Step { stream, words } => {
            put(out, b"step");
            put_number(out, u64::from(*stream));
            put_words(out, words.as_slice());
        }
        Event::Finish { stream, order } => {
            put(out, b"finish");
            put_number(out, u64::from(*stream));
            put_number(out, u64::from(*order));
        }
        Event::Lost { stream, why, words } => {
            put(out, b"lost");
            put_number(out, u64::from(*stream));
            put_why(out, *why);
            put_words(out, words.as_slice());
        }
        Event::Close { stream } => {
            put(out, b"close");
            put_number(out, u64::from(*stream));
        }
    }
    out.push_reserved(b'\n');
}

// How many bytes hold a word at this place.
#[tactic(auto, using(crate::proofs::Lengths::place_few))]
fn word_room(place: u32) -> usize
    ensures few { result ≤ WORD }
    ensures room { length (numeral place) + 10 ≤ result }
{
    WORD
}

// How many bytes hold the line of an event with these words, where that many can be counted.
fn room_with(words: &[(u32, u32)]) -> Option<usize>
    ensures room { IfSome result (λ room. EVENT + length (flat_map word_text words.now) ≤ room) }
    ensures many { IsNone result → 2 ^ 32 ≤ length words.now }
{
    let mut room = EVENT;
    for (place, _) in words {
        room = room.checked_add(word_room(*place))?;
    }
    Some(room)
}

/// How many bytes hold the line of an event, where that many can be counted.
pub(crate) fn room_of(event: &Event<'_>) -> Option<usize>
    ensures room { IfSome result (λ room. EVENT + length
        (flat_map word_text (event_words event.now)) ≤ room) }
    ensures many { IsNone result → 2 ^ 32 ≤ length (event_words event.now) }
{
    match event {
        Event::Step { words, .. } | Event::Lost { words, .. } => room_with(words.as_slice()),
        Event::Order { .. } | Event::Finish { .. } | Event::Close { .. } => Some(EVENT),
    }
}
