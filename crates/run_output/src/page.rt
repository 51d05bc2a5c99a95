ghost use Rattle.std.specs.Prelude.{◌≡◌, ◌+◌, ◌<◌, ◌≤◌, [], length, slice_index_or, IfOk};
ghost use Rattle.std.specs.List.{concat};
ghost use Rattle.run_output.specs.Page.{blank_page};
ghost use Rattle.run_output.specs.Pieces.{Adds, Puts};

use crate::writing::write_all;
use gpu_io::{Failed, Sink};
use gpu_word::Memory;
use journal_text::{Lines, MOST_LINE, Sheet};
use std::alloc::Global;
use std::marker::Model;

/// How many bytes are gathered before they are given to the sink.
const PIECE_BYTES: usize = 65_536;

// Gives all that is gathered to the sink. Nothing of it is kept, since after a fault a front of it stands there.
fn give<K: Sink>(sheet: &mut Sheet, sink: &mut K) -> Result<(), Failed>
    ensures adds { Adds K.written K.faults sink.old sink.new result sheet.old.bytes }
    ensures empty { sheet.new.bytes ≡ [] }
    ensures limit { sheet.new.limit ≡ sheet.old.limit }
{
    let done = write_all(sink, sheet.bytes());
    sheet.clear();
    done
}

// Gives a text to the sink, after all that is gathered.
#[tactic(auto, using(crate::proofs::Pieces::puts_behind, crate::proofs::Pieces::failed_before))]
fn pass<K: Sink>(sheet: &mut Sheet, text: &[u8], sink: &mut K) -> Result<(), Failed>
    ensures puts { Puts K.written K.faults sink.old sheet.old.bytes sink.new
        sheet.new.bytes result
        text.now }
    ensures empty { sheet.new.bytes ≡ [] }
    ensures limit { sheet.new.limit ≡ sheet.old.limit }
{
    give(sheet, sink)?;
    write_all(sink, text)
}

// Gives all that is gathered to the sink where that has as many bytes as the limit or more; below that nothing is written.
#[tactic(auto, using(crate::proofs::Pieces::puts_nothing, crate::proofs::Pieces::puts_all))]
fn settle<K: Sink>(sheet: &mut Sheet, sink: &mut K) -> Result<(), Failed>
    ensures puts { Puts K.written K.faults sink.old sheet.old.bytes sink.new
        sheet.new.bytes result
        [] }
    ensures below { length sheet.old.bytes < sheet.old.limit → sink.new ≡ sink.old }
    ensures room { length sheet.new.bytes ≤ sheet.new.limit }
    ensures limit { sheet.new.limit ≡ sheet.old.limit }
{
    let limit = sheet.limit();
    if sheet.bytes().len() < limit {
        return Ok(());
    }
    give(sheet, sink)
}

/// Lines that are gathered before they go to a sink, seen as the bytes that are gathered, and at how many they go.
///
/// All memory is taken by `make`: there is room for the bytes at which they go, and for one longest line after them.
#[derive(Drop)]
pub(crate) struct Page {
    sheet: Sheet,
}

impl Model for Page {
    ghost use Rattle.std.specs.Prelude.{◌≤◌, length};
    ghost use Rattle.run_output.specs.Page.{PageData};

    ghost Value = { PageData };

    ghost view = { λ page. record { gathered = page.sheet.bytes; limit = page.sheet.limit } };

    ghost invariant = { λ page. length page.sheet.bytes ≤ page.sheet.limit };
}

impl Page {
    /// A page without lines, which is given to a sink whenever it has 64 KiB or more. It has room for these, and for
    /// one longest line after them.
    pub(crate) fn make(alloc: Global) -> Result<Page, Memory>
        ensures { IfOk result (λ page. page ≡ blank_page) }
    {
        Page::within(alloc, PIECE_BYTES)
    }

    /// A page without lines, which is given to a sink whenever it has `limit` bytes or more.
    pub(crate) fn within(alloc: Global, limit: usize) -> Result<Page, Memory>
        ensures { IfOk result (λ page. page ≡ record { gathered = []; limit = limit }) }
    {
        let sheet = Sheet::make(alloc, limit)?;
        Ok(Page { sheet })
    }

    /// Makes one of the lines after those that are gathered, and gives all of them to the sink where they have as many
    /// bytes as the limit or more.
    #[tactic(auto, using(crate::proofs::Pieces::puts_more))]
    pub(crate) fn put<K: Sink, L: Lines>(
        &mut self,
        sink: &mut K,
        lines: &L,
        index: usize,
    ) -> Result<(), Failed>
        requires fits { L.fits lines.now }
        requires within { index < length (L.lines lines.now) }
        ensures puts { Puts K.written K.faults sink.old self.old.gathered sink.new
            self.new.gathered result
            (slice_index_or (L.lines lines.now) index []) }
        ensures below { length self.old.gathered + length
            (slice_index_or (L.lines lines.now) index []) < self.old.limit
            → sink.new ≡ sink.old }
        ensures limit { self.new.limit ≡ self.old.limit }
    {
        lines.make(index, &mut self.sheet);
        settle(&mut self.sheet, sink)
    }

    /// Puts a text after the lines that are gathered. One that is too long for
    /// the room goes to the sink by itself.
    #[tactic(auto, using(crate::proofs::Pieces::puts_more))]
    pub(crate) fn put_text<K: Sink>(&mut self, sink: &mut K, text: &[u8]) -> Result<(), Failed>
        ensures puts { Puts K.written K.faults sink.old self.old.gathered sink.new
            self.new.gathered result
            text.now }
        ensures below { length self.old.gathered + length text.now < self.old.limit
            → sink.new ≡ sink.old }
        ensures limit { self.new.limit ≡ self.old.limit }
    {
        // There is room for as many bytes as the limit leaves, and for those of a line after them.
        let left = self.sheet.limit() - self.sheet.bytes().len();
        if text.len().saturating_sub(MOST_LINE) > left {
            return pass(&mut self.sheet, text, sink);
        }
        self.sheet.put_text(text);
        settle(&mut self.sheet, sink)
    }

    /// Puts lines after those that are gathered. After a fault a front of all of them stands in the sink. Where all of them stay
    /// below the limit nothing is written.
    pub(crate) fn put_all<K: Sink, L: Lines>(
        &mut self,
        sink: &mut K,
        lines: &L,
    ) -> Result<(), Failed>
        requires { L.fits lines.now }
        ensures puts { Puts K.written K.faults sink.old self.old.gathered sink.new
            self.new.gathered result
            (concat (L.lines lines.now)) }
        ensures below { length self.old.gathered + length (concat (L.lines lines.now))
            < self.old.limit → sink.new ≡ sink.old }
        ensures limit { self.new.limit ≡ self.old.limit }
    {
        for index in 0..lines.count() {
            self.put(sink, lines, index)?;
        }
        Ok(())
    }

    /// Gives all that is gathered to the sink.
    pub(crate) fn give<K: Sink>(&mut self, sink: &mut K) -> Result<(), Failed>
        ensures adds { Adds K.written K.faults sink.old sink.new result self.old.gathered }
        ensures empty { self.new.gathered ≡ [] }
        ensures limit { self.new.limit ≡ self.old.limit }
    {
        give(&mut self.sheet, sink)
    }
}
