ghost use Rattle.std.specs.Prelude.{◌≡◌, ◌<◌, ◌≤◌, [], ◌∷◌, ◌++◌};
ghost use Rattle.std.specs.List.{All};
ghost use Rattle.result_words.specs.Seen.{Answers, HasCounted, IsReader, read_of, seen_of_reader};

use crate::plays::{Asked, LoadsCount, LoadsResult};
use crate::view::View;
use crate::words::ResultWords;
use atomic_table::Seat;
use std::marker::{Brand, Model};

/// What the client reads the results of its stream with. No call of it waits or takes memory.
///
/// Seen as the words that it belongs to, the number of result places, the numbers of finishes that it loaded, and the
/// list of its reads: place, finishes asked for, value.
#[derive(Drop)]
pub struct ResultReader {
    pub(crate) seat: Seat<(), View>,
}

impl Model for ResultReader {
    ghost use Rattle.result_words.specs.Seen.{ReaderData, IsReader, seen_of_reader};

    ghost Value = { ReaderData };

    ghost view = { λ r. seen_of_reader r.seat.table_id r.seat.me };

    ghost invariant = { λ r. IsReader r.seat.me };
}

impl ResultReader {
    pub(crate) fn of(seat: Seat<(), View>) -> ResultReader
        requires reader { IsReader seat.me }
        ensures { result ≡ seen_of_reader seat.table_id seat.me }
    {
        ResultReader { seat }
    }

    // Loads the number of finishes.
    fn load_count(&mut self, words: &ResultWords) -> u64
        requires table { words.now ≡ self.old.table }

        ensures loaded { self.new ≡ record self.old { counts = self.old.counts ++ result ∷ [] } }
        ensures rises { All (λ earlier. earlier ≤ result) self.old.counts }
    {
        let shared = &words.table.shared;
        shared.load::<LoadsCount>(&mut self.seat, 0)
    }

    // Loads a result, once the given number of finishes was counted.
    fn load_result<N: Asked>(&mut self, words: &ResultWords, place: u32, at_least: u32) -> u32
        requires table { words.now ≡ self.old.table }
        requires place { place < self.old.places }
        requires asked { at_least ≡ N.at_least }
        requires counted { HasCounted at_least self.old.counts }

        ensures { self.new ≡ record self.old {
          reads = self.old.reads ++
              (place, at_least, result) ∷ [];
        } }
    {
        let shared = &words.table.shared;
        let found = shared.load::<LoadsResult<N>>(&mut self.seat, 1 + place as usize);
        found as u32
    }

    /// Reads a result once at least the given number of finishes is counted: the last value written to its place by
    /// then, or a later one. None is answered exactly where the number of finishes that this call loads is lower.
    pub fn read(&mut self, words: &ResultWords, place: u32, at_least: u32) -> Option<u32>
        requires table { words.now ≡ self.old.table }
        requires place { place < self.old.places }

        ensures table { self.new.table ≡ self.old.table }
        ensures places { self.new.places ≡ self.old.places }
        ensures answers { Answers self.old.counts self.new.counts at_least result }
        ensures reads { self.new.reads ≡ self.old.reads ++ read_of place at_least result }
    {
        if self.load_count(words) < u64::from(at_least) {
            return None;
        }
        Some(self.load_result::<Brand>(words, place, at_least))
    }
}
