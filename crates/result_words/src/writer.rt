ghost use Rattle.std.specs.Prelude.{◌≡◌, ◌<◌, [], ◌∷◌, ◌++◌};
ghost use Rattle.gpu_word.specs.Results.{Write, Finish, Settles};
ghost use Rattle.result_words.specs.Seen.{WriterKeeps, seen_of_writer};

use crate::plays::{CountsFinish, LooksBack, Readers, StoresResult};
use crate::reader::ResultReader;
use crate::view::View;
use crate::words::ResultWords;
use atomic_table::Seat;
use std::marker::Model;

/// What the service writes the results of one stream with. No call of it waits or takes memory.
///
/// Seen as the words that it belongs to, the number of result places, and the list of what it has written: values and
/// finishes, in order.
#[derive(Drop)]
pub struct ResultWriter {
    finished: u64,
    seat: Seat<(), View>,
}

impl Model for ResultWriter {
    ghost use Rattle.result_words.specs.Seen.{ResultWriterData, WriterKeeps, seen_of_writer};

    ghost Value = { ResultWriterData };

    ghost view = { λ w. seen_of_writer w.seat.table_id w.seat.me };

    ghost invariant = { λ w. WriterKeeps w.finished w.seat.me };
}

impl ResultWriter {
    // A writer that has counted no finish.
    pub(crate) fn of(seat: Seat<(), View>) -> ResultWriter
        requires keeps { WriterKeeps 0 seat.me }
        ensures { result ≡ seen_of_writer seat.table_id seat.me }
    {
        ResultWriter { finished: 0, seat }
    }

    /// Writes a value to a result place.
    pub fn write(&mut self, words: &ResultWords, place: u32, value: u32)
        requires table { words.now ≡ self.old.table }
        requires place { place < self.old.places }

        ensures written { self.new
            ≡ record self.old { written = self.old.written ++ Write place value ∷ [] } }
    {
        let shared = &words.table.shared;
        shared.store::<StoresResult>(&mut self.seat, 1 + place as usize, u64::from(value));
    }

    /// Counts one more finish. Word 0 has 64 bits and stays at its last value, which no read asks for.
    pub fn finish(&mut self, words: &ResultWords)
        requires table { words.now ≡ self.old.table }

        ensures written { self.new ≡ record self.old { written = self.old.written ++ Finish ∷ [] } }
    {
        let shared = &words.table.shared;
        let next = self.finished.saturating_add(1);
        shared.store::<CountsFinish>(&mut self.seat, 0, next);
        self.finished = next;
    }

    /// Takes the reader back: each value that it was given is the last one written to its place, or 0, in a first part of
    /// the list that has at least as many finishes as the read asked for.
    pub fn settle(&mut self, words: &ResultWords, reader: ResultReader)
        requires table { words.now ≡ self.old.table }
        requires reader { reader.table ≡ self.old.table }

        ensures same { self.new ≡ self.old }
        ensures settled { Settles self.new.written reader.reads }
    {
        let shared = &words.table.shared;
        let ResultReader { seat } = reader;
        shared.join_seat::<Readers>(&mut self.seat, seat);
        shared.load::<LooksBack>(&mut self.seat, 0);
    }
}
