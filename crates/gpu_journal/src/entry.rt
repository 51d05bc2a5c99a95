ghost use Rattle.std.specs.Prelude.{◌≡◌, ◌+◌, ◌≤◌, ◌<◌, ◌^◌, ◌++◌, length, slice_range, vec_capacity};
ghost use Rattle.gpu_journal.specs.Past.{event_words};
ghost use Rattle.gpu_journal.specs.Entries.{event_of, LiesInWords};

use crate::event::{Event, Why};
use gpu_word::Words;

/// How a journal keeps an event. Its words stand in the list of words from one index up to another.
#[derive(Clone, Copy)]
pub(crate) enum Entry {
    /// An order, as it is.
    Order {
        stream: u32,
        order: u32,
        place: u32,
    },
    /// A step.
    Step {
        stream: u32,
        from: u32,
        end: u32,
    },
    /// A finish, as it is.
    Finish {
        stream: u32,
        order: u32,
    },
    /// A loss.
    Lost {
        stream: u32,
        why: Why,
        from: u32,
        end: u32,
    },
    /// A close, as it is.
    Close {
        stream: u32,
    },
}

// Appends words, in room that was made before, and gives the indices between which they stand.
#[inline(always)]
fn append(list: &mut Vec<(u32, u32)>, words: Words<'_>) -> (u32, u32)
    requires room { length list.old.items + length words ≤ vec_capacity list.old }
    requires few { length list.old.items + length words < 2 ^ 32 }
    ensures list { list.new.items ≡ list.old.items ++ words.entry }
    ensures from { result.0 ≡ length list.old.items }
    ensures end { result.1 ≡ length list.old.items + length words.entry }
{
    let from = list.len() as u32;
    match list.extend_from_slice(words.as_slice()) {
        Ok(()) => {}
        Err(_) => unreachable!(),
    }
    (from, list.len() as u32)
}

/// The entry of an event, whose words are appended to these, in room that was made before.
#[inline(always)]
pub(crate) fn keep(list: &mut Vec<(u32, u32)>, event: Event<'_>) -> Entry
    requires room { length list.old.items + length (event_words event) ≤ vec_capacity list.old }
    requires few { length list.old.items + length (event_words event) < 2 ^ 32 }
    ensures list { list.new.items ≡ list.old.items ++ event_words event.entry }
    ensures lies { LiesInWords list.new.items result }
    ensures event { event_of list.new.items result ≡ event.entry }
{
    match event {
        Event::Order {
            stream,
            order,
            place,
        } => Entry::Order {
            stream,
            order,
            place,
        },
        Event::Step { stream, words } => {
            let (from, end) = append(list, words);
            Entry::Step { stream, from, end }
        }
        Event::Finish { stream, order } => Entry::Finish { stream, order },
        Event::Lost { stream, why, words } => {
            let (from, end) = append(list, words);
            Entry::Lost {
                stream,
                why,
                from,
                end,
            }
        }
        Event::Close { stream } => Entry::Close { stream },
    }
}

// The words from one index up to another.
#[inline(always)]
fn cut(words: &[(u32, u32)], from: u32, end: u32) -> Words<'_>
    requires order { from ≤ end }
    requires within { end ≤ length words.now }
    ensures { result ≡ slice_range words.now from end }
{
    Words::of(&words[from as usize..end as usize])
}

/// The event of an entry, whose words lie in these.
#[inline(always)]
pub(crate) fn event_of<'a>(words: &'a [(u32, u32)], entry: &Entry) -> Event<'a>
    requires { LiesInWords words.now entry.now }
    ensures { result ≡ event_of words.now entry.now }
{
    match *entry {
        Entry::Order {
            stream,
            order,
            place,
        } => Event::Order {
            stream,
            order,
            place,
        },
        Entry::Step { stream, from, end } => Event::Step {
            stream,
            words: cut(words, from, end),
        },
        Entry::Finish { stream, order } => Event::Finish { stream, order },
        Entry::Lost {
            stream,
            why,
            from,
            end,
        } => Event::Lost {
            stream,
            why,
            words: cut(words, from, end),
        },
        Entry::Close { stream } => Event::Close { stream },
    }
}
