ghost use Rattle.std.specs.Prelude.{◌≡◌, ◌++◌, reverse, IfOk, IfSome, IsSome};
ghost use Rattle.gpu_store.specs.Images.{picture_of};
ghost use Rattle.journal_text.specs.Text.{tally_of, journal_text, stream_text};
ghost use Rattle.journal_text.specs.Picture.{image_text, picture_text};
ghost use Rattle.journal_text.specs.Lines.{mark_text};

use crate::event_line::{put_event, room_of};
use crate::other_lines::{OTHER, put_mark};
use crate::picture_line::{HEAD, TEXEL, put_head, put_row};
use crate::stream_line::{STREAM, put_stream};
use crate::tally::Tally;
use gpu_journal::{End, Journal};
use gpu_store::Images;
use gpu_word::Memory;
use std::alloc::Global;
use stream_state::StreamState;
use sync_core::Ending;

/// The text of a journal: a line for each event, in their order.
#[tactic(auto, unfolding(crate::specs::Text::journal_text))]
pub fn journal_text(alloc: Global, journal: &Journal) -> Result<Vec<u8>, Memory>
    ensures { IfOk result (λ text. text.items ≡ journal_text (reverse journal.now.events)) }
{
    let mut text = Vec::new(alloc);
    for index in 0..journal.count() {
        let event = journal.event(index);
        let Some(room) = room_of(&event) else {
            return Err(Memory::of_too_many(alloc, event.words().len(), 0));
        };
        text.reserve(room)?;
        put_event(&mut text, &event);
    }
    Ok(text)
}

// Appends the lines of an image.
fn push_image(out: &mut Vec<u8>, images: &Images, image: u32) -> Result<(), Memory>
    requires { IsSome (picture_of images.now image) }
    ensures { IfOk result (λ _. IfSome (picture_of images.now image)
        (λ picture. out.new.items ≡ out.old.items ++ image_text (image, picture))) }
{
    let (width, height) = images.size(image).unwrap();
    out.reserve(HEAD)?;
    put_head(out, image, width, height);
    for y in 0..height {
        let row = images.row(image, y);
        out.reserve(TEXEL * row.len() + 1)?;
        put_row(out, row);
    }
    Ok(())
}

/// The text of images: for each in rising order of its number its own line, and a line for each of its rows.
#[tactic(auto, unfolding(crate::specs::Picture::picture_text))]
pub fn picture_text(alloc: Global, images: &Images) -> Result<Vec<u8>, Memory>
    ensures { IfOk result (λ text. text.items ≡ picture_text images.now) }
{
    let mut text = Vec::new(alloc);
    for image in images.numbers() {
        push_image(&mut text, images, image)?;
    }
    Ok(text)
}

/// The line of a stream: how it ended, and what it counted.
pub fn stream_text(
    alloc: Global,
    stream: u32,
    state: &StreamState,
    end: End,
) -> Result<Vec<u8>, Memory>
    ensures { IfOk result (λ text. text.items ≡ stream_text stream (tally_of state.now) end) }
{
    tally_text(alloc, stream, &Tally::of(state), end)
}

/// The line of a stream that counted so much.
pub fn tally_text(alloc: Global, stream: u32, tally: &Tally, end: End) -> Result<Vec<u8>, Memory>
    ensures { IfOk result (λ text. text.items ≡ stream_text stream tally.now end) }
{
    let mut text = Vec::with_capacity(alloc, STREAM)?;
    put_stream(&mut text, stream, tally, end);
    Ok(text)
}

/// The mark line of an ending: who waited on what, how the wait ended, and the mark that is kept of it.
pub fn mark_text(alloc: Global, ending: &Ending, value: u32) -> Result<Vec<u8>, Memory>
    ensures { IfOk result (λ text. text.items ≡ mark_text ending.now value) }
{
    let mut text = Vec::with_capacity(alloc, OTHER)?;
    put_mark(&mut text, ending, value);
    Ok(text)
}
