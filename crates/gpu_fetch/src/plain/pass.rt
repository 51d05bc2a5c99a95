ghost use Rattle.std.specs.Prelude.{◌≡◌, ℕ, ◌<◌, [], ◌∷◌, IfOk, IfErr, Ok, MatchResult};
ghost use Rattle.gpu_cmd.specs.Lawful.{places_of};
ghost use Rattle.gpu_plan.specs.Values.{value_at};
ghost use Rattle.gpu_fetch.specs.Side.{MayFetch, fresh_side, with_words};
ghost use Rattle.gpu_fetch.specs.Plain.{IsBeside, IsNoteBeside, IsValueOfPlace};

use crate::plain::list::FetchList;
use crate::plain::words::{PlainNote, PlainWords};
use crate::side::ServiceSide;
use gpu_plan::Plan;
use gpu_word::Memory;
use std::marker::Model;
use std::snapshot::Snapshot;

/// The service's side of plain words.
#[derive(Drop)]
pub struct PlainPass {
    plan: Snapshot<Plan>,
    fetched: FetchList,
    finished: u64,
    greatest: u32,
    met: u32,
}

impl Model for PlainPass {
    ghost use Rattle.gpu_fetch.specs.Side.{SideData};

    ghost Value = { SideData };

    ghost view = { λ p. record {
      plan = p.plan.value;
      fetched = p.fetched.items;
      finished = p.finished;
      greatest = p.greatest;
      met = p.met;
    } };
}

impl PlainPass {
    // A side that has done nothing.
    pub(crate) fn of(plan: &Plan) -> PlainPass
        ensures { result ≡ fresh_side plan.now }
    {
        PlainPass {
            plan: Snapshot::of(plan),
            fetched: FetchList::new(),
            finished: 0,
            greatest: 0,
            met: 0,
        }
    }
}

impl ServiceSide for PlainPass {
    type Words = PlainWords;

    type Note = PlainNote;

    type Results = ();

    type Reader = ();

    ghost use Rattle.std.specs.Prelude.{true, None};
    ghost use Rattle.gpu_fetch.specs.Side.{no_table};

    ghost side = { λ s. s };

    ghost table = { λ s. no_table };

    ghost mark = { λ n. n };

    ghost belongs = { IsBeside };

    ghost note_belongs = { IsNoteBeside };

    ghost shows = { IsValueOfPlace };

    ghost wants = { ⊥ };

    ghost results_belong = { λ w r. Unit {0} };

    ghost reader_belongs = { λ w r. Unit {0} };

    ghost takes = { λ r place. true };

    ghost written = { λ r. None };

    ghost reads = { λ r. [] };

    /// Fetches the word at a place: the answer is its value, and never out of memory. The list of fetches grows by the
    /// place and the answer.
    fn fetch(&mut self, words: &PlainWords, place: u32) -> Result<u32, Memory>
        requires belongs { IsBeside self.old words.now }
        requires place { place < places_of self.old.plan.areas }

        ensures grows { MatchResult result
            (λ value. self.new ≡ with_words self.old ((place, value) ∷ []))
            (λ _. self.new ≡ self.old) }
        ensures may { IfOk result (λ value. MayFetch self.old (place, value)) }
        ensures shows { IfOk result (λ value. IsValueOfPlace words.now (place, value)) }
        ensures memory { IfErr result (λ _. ⊥) }
        ensures belongs { IsBeside self.new words.now }
        ensures notes { (n : ℕ) → IsNoteBeside self.old words.now n
            → IsNoteBeside self.new words.now n }
        ensures value { result ≡ Ok (value_at words.now.plan.actions words.now.done place) }
    {
        let value = words.value(place);
        self.fetched = FetchList::with(&self.fetched, &place, &value);
        Ok(value)
    }

    fn meet(&mut self, words: &PlainWords, note: PlainNote) {
        let _ = words;
        self.met = self.met.max(note.mark());
    }

    fn publish_token(&mut self, words: &PlainWords, token: u32) {
        let _ = words;
        self.greatest = self.greatest.max(token);
    }

    fn publish_finish(&mut self, words: &PlainWords, results: &()) {
        let _ = words;
        let () = *results;
        self.finished += 1;
    }

    fn publish_results(results: &mut (), words: &PlainWords, writes: &[(u32, u32)]) {
        let _ = words;
        let _ = writes;
    }

    fn count_finish(results: &mut (), words: &PlainWords) {
        let _ = words;
    }

    fn settle(results: &mut (), words: &PlainWords, reader: ()) {
        let _ = words;
        let () = reader;
    }

    ghost without_note = { λ s w n h. h.0 };
}
