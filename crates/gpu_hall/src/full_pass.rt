//! The service's side of a stream whose client reads its results.
ghost use Rattle.std.specs.Prelude.{◌≡◌};
ghost use Rattle.gpu_fetch.specs.Shared.{side_of, IsPassOf, IsNoteOf};

use gpu_fetch::ServiceSide;
use gpu_word::Memory;
use result_words::{ResultReader, ResultWords, ResultWriter};
use shm_words::{Note, ServicePass, SharedWords};

/// The service's side of one stream over words that it shares with its client, with result words beside them: what its steps write is
/// written there, and its finishes are counted there before the client hears of them.
#[derive(Drop)]
pub struct FullPass {
    /// The service's pass over the shared words.
    pub pass: ServicePass,
}

impl ServiceSide for FullPass {
    type Words = (SharedWords, ResultWords);

    type Note = Note;

    type Results = ResultWriter;

    type Reader = ResultReader;

    ghost use Rattle.std.specs.Prelude.{nat_lt, Some};

    ghost side = { λ s. side_of s.pass };

    ghost table = { λ s. s.pass.table };

    ghost mark = { λ n. n.mark };

    ghost note_of = { λ n t. n.table ≡ t };

    ghost results_of = { λ r t. r.table ≡ t };

    ghost reader_of = { λ r t. r.table ≡ t };

    ghost belongs = { λ s w. IsPassOf s.pass w.0 };

    ghost note_belongs = { λ s w n. IsNoteOf s.pass w.0 n };

    ghost wants = { ⊥ };

    ghost results_belong = { λ w r. w.1 ≡ r.table };

    ghost reader_belongs = { λ w r. w.1 ≡ r.table };

    ghost takes = { λ r place. nat_lt place r.places };

    ghost written = { λ r. Some r.written };

    ghost reads = { λ r. r.reads };

    fn fetch(&mut self, words: &(SharedWords, ResultWords), place: u32) -> Result<u32, Memory> {
        Ok(self.pass.fetch(&words.0, place))
    }

    fn meet(&mut self, words: &(SharedWords, ResultWords), note: Note) {
        self.pass.meet(&words.0, note);
    }

    fn publish_token(&mut self, words: &(SharedWords, ResultWords), token: u32) {
        self.pass.publish_token(&words.0, token);
    }

    fn publish_finish(&mut self, words: &(SharedWords, ResultWords), results: &ResultWriter) {
        let _ = results;
        self.pass.publish_finish(&words.0);
    }

    fn publish_results(
        results: &mut ResultWriter,
        words: &(SharedWords, ResultWords),
        writes: &[(u32, u32)],
    ) {
        for write in writes {
            let (place, value) = *write;
            results.write(&words.1, place, value);
        }
    }

    fn count_finish(results: &mut ResultWriter, words: &(SharedWords, ResultWords)) {
        results.finish(&words.1);
    }

    fn settle(
        results: &mut ResultWriter,
        words: &(SharedWords, ResultWords),
        reader: ResultReader,
    ) {
        results.settle(&words.1, reader);
    }

    ghost without_note = { λ s w n h. h.0 };
}
