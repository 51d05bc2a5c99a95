ghost use Rattle.std.specs.Prelude.{◌≡◌, ◌+◌, ◌<◌, ◌≤◌, [], ◌++◌, length, IfOk, IfSome, IsSome, IsSomeAnd};
ghost use Rattle.std.specs.List.{All};
ghost use Rattle.gpu_store.specs.Images.{picture_of};
ghost use Rattle.gpu_store.specs.Picture.{texel_row};
ghost use Rattle.journal_text.specs.Text.{event_words, event_text, tally_of, stream_text};
ghost use Rattle.journal_text.specs.Picture.{head_text, row_text};
ghost use Rattle.journal_text.specs.Lines.{journal_head, name_text, mark_text, dump_text, view_text};

use crate::event_line::put_event;
use crate::other_lines::{put_dump, put_mark, put_name, put_view};
use crate::picture_line::{put_head, put_row};
use crate::put::put;
use crate::stream_line::put_stream;
use crate::tally::Tally;
use gpu_cmd::{MOST_RING, MOST_WORDS, Name};
use gpu_journal::{End, Event};
use gpu_store::Images;
use gpu_word::Memory;
use std::alloc::Global;
use std::marker::Model;
use stream_state::StreamState;
use sync_core::Ending;

/// The most words that an event has: those of the longest ring and of all memories. Each stands at a place below it.
pub const MOST_EVENT_WORDS: u64 = MOST_RING as u64 + MOST_WORDS;

/// The bytes that a line has room for. The longest is that of an event with all its words, each of them at most 15 bytes.
pub const MOST_LINE: usize = 1_048_576;

/// Lines of the output with their line feeds, one after the other, seen as their bytes and as a limit.
///
/// Each call puts another line after those that are there, as long as these have no more bytes than the limit. All memory
/// is taken by `make`.
#[derive(Drop)]
pub struct Sheet {
    bytes: Vec<u8>,
    limit: usize,
}

impl Model for Sheet {
    ghost use Rattle.std.specs.Prelude.{◌+◌, ◌≤◌, vec_capacity};
    ghost use Rattle.journal_text.specs.Sheet.{SheetData};
    ghost use Rattle.journal_text.specs.declared.sheet.TheConstants.{MOST_LINE};

    ghost Value = { SheetData };

    ghost view = { λ sheet. record { bytes = sheet.bytes.items; limit = sheet.limit } };

    ghost invariant = { λ sheet. sheet.limit + MOST_LINE ≤ vec_capacity sheet.bytes };
}

impl Sheet {
    /// No line yet, and room for one after as many bytes as the limit.
    pub fn make(alloc: Global, limit: usize) -> Result<Sheet, Memory>
        ensures { IfOk result (λ sheet. sheet ≡ record { bytes = []; limit = limit }) }
    {
        let Some(room) = limit.checked_add(MOST_LINE) else {
            return Err(Memory::of_too_many(alloc, limit, MOST_LINE));
        };
        let bytes = Vec::with_capacity(alloc, room)?;
        Ok(Sheet { bytes, limit })
    }

    /// Takes all lines away.
    pub fn clear(&mut self)
        ensures bytes { self.new.bytes ≡ [] }
        ensures limit { self.new.limit ≡ self.old.limit }
    {
        self.bytes.clear();
    }

    /// Puts a text, with which there are at most `MOST_LINE` bytes more than the limit.
    pub fn put_text(&mut self, text: &[u8])
        requires { length self.old.bytes + length text.now ≤ self.old.limit + MOST_LINE }
        ensures bytes { self.new.bytes ≡ self.old.bytes ++ text.now }
        ensures limit { self.new.limit ≡ self.old.limit }
    {
        put(&mut self.bytes, text);
    }

    /// Puts the first line of the output of a script of version 2.
    pub fn put_head(&mut self)
        requires { length self.old.bytes ≤ self.old.limit }
        ensures bytes { self.new.bytes ≡ self.old.bytes ++ journal_head }
        ensures limit { self.new.limit ≡ self.old.limit }
    {
        put(&mut self.bytes, b"gpu-journal 2\n");
    }

    /// Puts the line of a stream's name.
    pub fn put_name(&mut self, stream: u32, name: Name)
        requires { length self.old.bytes ≤ self.old.limit }
        ensures bytes { self.new.bytes ≡ self.old.bytes ++ name_text stream name }
        ensures limit { self.new.limit ≡ self.old.limit }
    {
        put_name(&mut self.bytes, stream, name);
    }

    /// Puts the line of an event, which has at most `MOST_EVENT_WORDS` words, each at a place below that.
    pub fn put_event(&mut self, event: &Event<'_>)
        requires room { length self.old.bytes ≤ self.old.limit }
        requires few { length (event_words event.now) ≤ MOST_EVENT_WORDS }
        requires near { All (λ word. word.0 < MOST_EVENT_WORDS) (event_words event.now) }
        ensures bytes { self.new.bytes ≡ self.old.bytes ++ event_text event.now }
        ensures limit { self.new.limit ≡ self.old.limit }
    {
        put_event(&mut self.bytes, event);
    }

    /// Puts the own line of an image: its number, its width and its height.
    pub fn put_image(&mut self, images: &Images, image: u32)
        requires room { length self.old.bytes ≤ self.old.limit }
        requires there { IsSome (picture_of images.now image) }
        ensures bytes { IfSome (picture_of images.now image) (λ picture. self.new.bytes
            ≡ self.old.bytes ++ head_text image picture.width picture.height) }
        ensures limit { self.new.limit ≡ self.old.limit }
    {
        let (width, height) = images.size(image).unwrap();
        put_head(&mut self.bytes, image, width, height);
    }

    /// Puts the line of a row of an image: its texels from left to right.
    pub fn put_row(&mut self, images: &Images, image: u32, y: u32)
        requires room { length self.old.bytes ≤ self.old.limit }
        requires there { IsSomeAnd (picture_of images.now image) (λ picture. y < picture.height) }
        ensures bytes { IfSome (picture_of images.now image) (λ picture. self.new.bytes
            ≡ self.old.bytes ++ row_text (texel_row picture y)) }
        ensures limit { self.new.limit ≡ self.old.limit }
    {
        put_row(&mut self.bytes, images.row(image, y));
    }

    /// Puts the line of a stream: how it ended, and what it counted.
    pub fn put_stream(&mut self, stream: u32, state: &StreamState, end: End)
        requires { length self.old.bytes ≤ self.old.limit }
        ensures bytes { self.new.bytes
            ≡ self.old.bytes ++ stream_text stream (tally_of state.now) end }
        ensures limit { self.new.limit ≡ self.old.limit }
    {
        put_stream(&mut self.bytes, stream, &Tally::of(state), end);
    }

    /// Puts the mark line of an ending: who waited on what, how the wait ended, and the mark that is kept of it.
    pub fn put_mark(&mut self, ending: &Ending, value: u32)
        requires { length self.old.bytes ≤ self.old.limit }
        ensures bytes { self.new.bytes ≡ self.old.bytes ++ mark_text ending.now value }
        ensures limit { self.new.limit ≡ self.old.limit }
    {
        put_mark(&mut self.bytes, ending, value);
    }

    /// Puts the line of a dump: its stream, its action place, its result place, and the value that was read.
    pub fn put_dump(&mut self, stream: u32, place: u32, index: u32, value: u32)
        requires { length self.old.bytes ≤ self.old.limit }
        ensures bytes { self.new.bytes ≡ self.old.bytes ++ dump_text stream place index value }
        ensures limit { self.new.limit ≡ self.old.limit }
    {
        put_dump(&mut self.bytes, stream, place, index, value);
    }

    /// Puts the line of a look: its viewer, how many events it saw, and the sum of all texels after these.
    pub fn put_view(&mut self, viewer: u32, events: u32, sum: u32)
        requires { length self.old.bytes ≤ self.old.limit }
        ensures bytes { self.new.bytes ≡ self.old.bytes ++ view_text viewer events sum }
        ensures limit { self.new.limit ≡ self.old.limit }
    {
        put_view(&mut self.bytes, viewer, events, sum);
    }

    /// The bytes of all lines.
    pub fn bytes(&self) -> &[u8]
        ensures { result.now ≡ self.now.bytes }
    {
        self.bytes.as_slice()
    }

    /// Up to how many bytes another line may be begun.
    pub fn limit(&self) -> usize
        ensures { result ≡ self.now.limit }
    {
        self.limit
    }
}
