// What the seats at a stream's result words know. No value of these types is ever made.

use std::collections::LinkedList;
use std::marker::Model;

/// Results and finishes in the order in which they were written. Seen as their list.
pub struct WrittenList;

impl Model for WrittenList {
    ghost use Rattle.std.specs.Prelude.{List, []};
    ghost use Rattle.gpu_word.specs.Results.{Written};
    ghost use Rattle.result_words.specs.Codes.{written_list_coded};

    ghost Value = { List Written };

    ghost coded = { written_list_coded };

    ghost view = { λ _. [] };
}

/// What the writer knows.
pub struct WriterView {
    /// What it has written.
    pub written: WrittenList,
    /// The reads of the reader that it took back last: place, finishes asked for, value.
    pub taken: LinkedList<(u64, u64, u64)>,
}

/// What a reader knows.
pub struct ReaderView {
    /// The numbers of finishes that it loaded.
    pub counts: LinkedList<u64>,
    /// Its reads: place, finishes asked for, value.
    pub reads: LinkedList<(u64, u64, u64)>,
}

/// What a seat knows.
pub enum View {
    Writer(WriterView),
    Reader(ReaderView),
    /// A reader that was taken back.
    Spent,
}
