ghost use Rattle.std.specs.Prelude.{◌≡◌, ◌<◌, [], ◌∷◌, IsOk, IfErr, IfOk, MatchResult};
ghost use Rattle.gpu_cmd.specs.Lawful.{places_of};
ghost use Rattle.shm_words.specs.Seen.{NoteData};
ghost use Rattle.gpu_fetch.specs.Side.{MayFetch, with_words};
ghost use Rattle.gpu_fetch.specs.Shared.{side_of, IsPassOf, IsNoteOf};

use crate::side::ServiceSide;
use gpu_word::Memory;
use shm_words::{Note, ServicePass, SharedWords};

impl ServiceSide for ServicePass {
    type Words = SharedWords;

    type Note = Note;

    type Results = ();

    type Reader = ();

    ghost use Rattle.std.specs.Prelude.{true, None};

    ghost side = { side_of };

    ghost table = { λ s. s.table };

    ghost mark = { λ n. n.mark };

    ghost note_of = { λ n t. n.table ≡ t };

    ghost belongs = { IsPassOf };

    ghost note_belongs = { IsNoteOf };

    ghost wants = { ⊥ };

    ghost results_belong = { λ w r. Unit {0} };

    ghost reader_belongs = { λ w r. Unit {0} };

    ghost takes = { λ r place. true };

    ghost written = { λ r. None };

    ghost reads = { λ r. [] };

    /// Fetches the word at a place by one load. No memory is needed.
    fn fetch(&mut self, words: &SharedWords, place: u32) -> Result<u32, Memory>
        requires belongs { IsPassOf self.old words.now }
        requires place { place < places_of self.old.plan.areas }

        ensures grows { MatchResult result
            (λ value. side_of self.new ≡ with_words (side_of self.old) ((place, value) ∷ []))
            (λ _. side_of self.new ≡ side_of self.old) }
        ensures may { IfOk result (λ value. MayFetch (side_of self.old) (place, value)) }
        ensures memory { IfErr result (λ _. ⊥) }
        ensures belongs { IsPassOf self.new words.now }
        ensures notes { (n : NoteData) → IsNoteOf self.old words.now n
            → IsNoteOf self.new words.now n }
        ensures table { self.new.table ≡ self.old.table }
        ensures never { IsOk result }
    {
        Ok(ServicePass::fetch(self, words, place))
    }

    fn meet(&mut self, words: &SharedWords, note: Note) {
        ServicePass::meet(self, words, note);
    }

    fn publish_token(&mut self, words: &SharedWords, token: u32) {
        ServicePass::publish_token(self, words, token);
    }

    fn publish_finish(&mut self, words: &SharedWords, results: &()) {
        let () = *results;
        ServicePass::publish_finish(self, words);
    }

    fn publish_results(results: &mut (), words: &SharedWords, writes: &[(u32, u32)]) {
        let _ = words;
        let _ = writes;
    }

    fn count_finish(results: &mut (), words: &SharedWords) {
        let _ = words;
    }

    fn settle(results: &mut (), words: &SharedWords, reader: ()) {
        let _ = words;
        let () = reader;
    }

    ghost without_note = { λ s w n h. h.0 };
}
