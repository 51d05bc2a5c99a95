//! The view lines of an output, before they are judged.
ghost use Rattle.std.specs.Prelude.{◌≡◌, ◌+◌, ◌≤◌, min, if◌then◌else◌, vec_len, IfOk, OnOk};
ghost use Rattle.script_lines.specs.Text.{words_of};
ghost use Rattle.verify_input.specs.Reading.{whole_lines};
ghost use Rattle.verify_input.specs.Due.{begins_view, viewers_in};

use crate::cut::first_line;
use live_view::{ALL_LOOKS, LOOKS, MOST_VIEWERS};
use script_lines::{Words, decimal_u32};
use std::alloc::{AllocError, Global};

/// The most looks that a run has.
const MOST_LOOKS: usize = MOST_VIEWERS as usize * ALL_LOOKS;

// Whether the first word is `view`.
fn begins_view(mut words: Words<'_>) -> bool
    ensures { result ≡ begins_view (words_of words.entry.rest.now) }
{
    match words.next() {
        Some(word) => word == b"view".as_slice(),
        None => false,
    }
}

// The number that stands as the third word, or 0.
fn third_number(mut words: Words<'_>) -> u32 {
    words.next();
    words.next();
    match words.next() {
        Some(word) => decimal_u32(word).unwrap_or(0),
        None => 0,
    }
}

// Notes the number of events that a view line names, while there are fewer than a run has looks.
fn note_look(events: &mut Vec<u32>, line: &[u8]) -> Result<(), AllocError>
    requires { vec_len events.old ≤ MOST_LOOKS }
    ensures { OnOk result (vec_len events.new ≡ min MOST_LOOKS
        (vec_len events.old + (if begins_view (words_of line.now) then 1 else 0))) }
{
    let words = Words { rest: line };
    if !begins_view(words) {
        return Ok(());
    }
    if events.len() >= MOST_LOOKS {
        return Ok(());
    }
    events.push(third_number(words))?;
    Ok(())
}

/// The view lines of a text: how many viewers they are of, and the numbers of events that the first of them name, in rising
/// order.
#[derive(Drop)]
pub(crate) struct ViewLines {
    pub(crate) viewers: u32,
    pub(crate) events: Vec<u32>,
}

/// Looks for the view lines of a text.
pub(crate) fn view_lines(alloc: Global, text: &[u8]) -> Result<ViewLines, AllocError>
    ensures { IfOk result (λ views. views.viewers ≡ viewers_in (whole_lines text.now)) }
{
    let mut events = Vec::new(alloc);
    let mut rest = text;
    while let Some((line, more)) = first_line(rest) {
        note_look(&mut events, line)?;
        rest = more;
    }
    let viewers = (events.len() as u32 + LOOKS) / ALL_LOOKS as u32;
    events.sort()?;
    Ok(ViewLines { viewers, events })
}
