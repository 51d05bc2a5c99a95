ghost use Rattle.std.specs.Prelude.{◌≡◌, ℕ, ◌+◌, ◌≤◌, ◌<◌, ◌↔◌, [], ◌∷◌, drop, IsTrue, IfOk, IfErr, Ok, MatchResult};
ghost use Rattle.gpu_cmd.specs.Lawful.{places_of};
ghost use Rattle.gpu_plan.specs.Values.{value_at};
ghost use Rattle.gpu_fetch.specs.Side.{SideData, MayFetch, fresh_side, with_words};
ghost use Rattle.gpu_fetch.specs.Plain.{IsBeside, IsNoteBeside};
ghost use Rattle.service_tests.specs.Stirred.{ComesToFlush, puts_ahead, puts_further, stirred_words};

use gpu_fetch::{PlainNote, PlainPass, PlainWords, ServiceSide};
use gpu_plan::{Action, Plan};
use gpu_word::Memory;
use std::alloc::Global;
use std::marker::Model;

/// A side whose words a client goes on storing into, between one fetch and the next.
///
/// Before its j-th fetch the client does as many further puts as the j-th turn says, at most those that are left; a
/// missing turn counts as 0. Seen as the side, the words and the turns.
#[derive(Drop)]
pub struct StirredPass {
    plan: Plan,
    pass: PlainPass,
    words: PlainWords,
    left: usize,
    turns: Vec<u32>,
    next: usize,
}

impl Model for StirredPass {
    ghost use Rattle.std.specs.Prelude.{◌≡◌, drop, length, min};
    ghost use Rattle.service_tests.specs.Stirred.{StirredData, puts_ahead};

    ghost Value = { StirredData };

    ghost view = { λ s. record { side = s.pass; words = s.words; turns = s.turns.items } };

    ghost invariant = { λ s. (s.plan ≡ s.words.plan)
        × (s.left ≡ puts_ahead (drop s.words.done s.words.plan.actions))
        × (s.next ≡ min (length s.pass.fetched) (length s.turns.items)) };
}

/// The note of the one flush of a stirred client.
///
/// Seen as the place of the flush and one more.
#[derive(Drop)]
pub struct StirNote {
    note: PlainNote,
}

impl Model for StirNote {
    ghost use Rattle.std.specs.Prelude.{ℕ};

    ghost Value = { ℕ };

    ghost view = { λ n. n.note };
}

// How many puts stand at the head of actions.
fn count_puts(actions: &[Action]) -> usize
    ensures { result ≡ puts_ahead actions.now }
{
    let mut count = 0;
    for action in actions {
        match action {
            Action::Put { .. } => count += 1,
            _ => return count,
        }
    }
    count
}

// Does a given number of puts.
fn put_many(words: &mut PlainWords, plan: &Plan, count: usize)
    requires plan { plan.now ≡ words.old.plan }
    requires there { count ≤ puts_ahead (drop words.old.done plan.now.actions) }

    ensures done { words.new ≡ puts_further words.old count }
    ensures beside { (side : SideData) → IsBeside side words.old → IsBeside side words.new }
    ensures notes { (side : SideData) (mark : ℕ) → IsNoteBeside side words.old mark
        → IsNoteBeside side words.new mark }
    ensures left { puts_ahead (drop words.new.done plan.now.actions) + count
        ≡ puts_ahead (drop words.old.done plan.now.actions) }
{
    for _put in 0..count {
        words.put(plan);
    }
}

impl StirredPass {
    /// Whether puts alone stand before the first flush of a plan, and there is a flush.
    pub fn can_stir(plan: &Plan) -> bool
        ensures { IsTrue result ↔ ComesToFlush plan.now.actions }
    {
        let actions = plan.actions();
        match actions.get(count_puts(actions)) {
            Some(Action::Flush { .. }) => true,
            _ => false,
        }
    }

    /// A side of a plan whose client has come past its first flush, and the note of this flush.
    pub fn make(
        alloc: Global,
        plan: &Plan,
        turns: Vec<u32>,
    ) -> Result<(StirredPass, StirNote), Memory>
        requires { ComesToFlush plan.now.actions }

        ensures side { IfOk result (λ made. made.0.side ≡ fresh_side plan.now) }
        ensures turns { IfOk result (λ made. made.0.turns ≡ turns.items) }
        ensures words { IfOk result
            (λ made. made.0.words
            ≡ record { plan = plan.now; done = puts_ahead plan.now.actions + 1 }) }
        ensures note { IfOk result (λ made. made.1 ≡ puts_ahead plan.now.actions + 1) }
        ensures belongs { IfOk result (λ made. IsNoteBeside made.0.side made.0.words made.1) }
    {
        let (mut words, pass) = PlainWords::make(alloc, plan)?;
        let plan = plan.try_clone(alloc)?;
        put_many(&mut words, &plan, count_puts(plan.actions()));
        let note = words.flush(&plan);
        let left = count_puts(&plan.actions()[words.done() as usize..]);
        let stirred = StirredPass {
            plan,
            pass,
            words,
            left,
            turns,
            next: 0,
        };
        Ok((stirred, StirNote { note }))
    }
}

impl ServiceSide for StirredPass {
    type Words = ();

    type Note = StirNote;

    type Results = ();

    type Reader = ();

    ghost use Rattle.std.specs.Prelude.{true, None};
    ghost use Rattle.gpu_fetch.specs.Side.{no_table};

    ghost side = { λ s. s.side };

    ghost table = { λ s. no_table };

    ghost mark = { λ n. n };

    ghost belongs = { λ s w. IsBeside s.side s.words };

    ghost note_belongs = { λ s w n. IsNoteBeside s.side s.words n };

    ghost wants = { ⊥ };

    ghost results_belong = { λ w r. Unit {0} };

    ghost reader_belongs = { λ w r. Unit {0} };

    ghost takes = { λ r place. true };

    ghost written = { λ r. None };

    ghost reads = { λ r. [] };

    /// Lets the client do the puts of the next turn, and fetches the word at a place.
    fn fetch(&mut self, words: &(), place: u32) -> Result<u32, Memory>
        requires belongs { IsBeside self.old.side self.old.words }
        requires place { place < places_of self.old.side.plan.areas }

        ensures grows { MatchResult result
            (λ value. self.new.side ≡ with_words self.old.side ((place, value) ∷ []))
            (λ _. self.new.side ≡ self.old.side) }
        ensures may { IfOk result (λ value. MayFetch self.old.side (place, value)) }
        ensures shows { IfOk result (λ _. Unit {0}) }
        ensures memory { IfErr result (λ _. ⊥) }
        ensures belongs { IsBeside self.new.side self.new.words }
        ensures notes { (n : ℕ) → IsNoteBeside self.old.side self.old.words n
            → IsNoteBeside self.new.side self.new.words n }
        ensures stirs { self.new.words ≡ stirred_words self.old }
        ensures value { result ≡ Ok
            (value_at self.new.words.plan.actions self.new.words.done place) }
        ensures turns { self.new.turns ≡ self.old.turns }
    {
        let () = *words;
        let turn = self.turns.get(self.next).copied().unwrap_or(0);
        self.next = (self.next + 1).min(self.turns.len());
        let puts = self.left.min(turn as usize);
        put_many(&mut self.words, &self.plan, puts);
        self.left -= puts;
        self.pass.fetch(&self.words, place)
    }

    fn meet(&mut self, words: &(), note: StirNote) {
        let () = *words;
        let StirNote { note } = note;
        self.pass.meet(&self.words, note);
    }

    fn publish_token(&mut self, words: &(), token: u32) {
        let () = *words;
        self.pass.publish_token(&self.words, token);
    }

    fn publish_finish(&mut self, words: &(), results: &()) {
        let () = *words;
        self.pass.publish_finish(&self.words, results);
    }

    fn publish_results(results: &mut (), words: &(), writes: &[(u32, u32)]) {
        let () = *words;
        let _ = writes;
    }

    fn count_finish(results: &mut (), words: &()) {
        let () = *words;
    }

    fn settle(results: &mut (), words: &(), reader: ()) {
        let () = *words;
        let () = reader;
    }

    ghost without_note = { λ s w n h. h.0 };
}
