ghost use Rattle.std.specs.Prelude.{◌≡◌, ◌↔◌, ℕ, ◌+◌, ◌<◌, ◌≤◌, [], ◌∷◌, length, slice_index, vec_len, IfOk, IsTrue};
ghost use Rattle.gpu_cmd.specs.Lawful.{places_of};
ghost use Rattle.gpu_plan.specs.Plans.{IsWithin};
ghost use Rattle.gpu_plan.specs.Passes.{passes};
ghost use Rattle.gpu_plan.specs.Values.{after, value_at};
ghost use Rattle.gpu_fetch.specs.Side.{SideData, fresh_side};
ghost use Rattle.gpu_fetch.specs.Plain.{fresh_words, one_further, ArePuts, IsNext, IsPut, IsFlush, IsAwait, IsBeside, IsNoteBeside};

use crate::plain::pass::PlainPass;
use gpu_plan::{Action, Plan};
use gpu_word::Memory;
use std::alloc::Global;
use std::marker::Model;
use std::snapshot::Snapshot;

/// The words of a stream as one thread keeps them: the value of each place after the actions that the client has done.
///
/// Seen as the plan and the number of actions done.
#[derive(Drop)]
pub struct PlainWords {
    plan: Snapshot<Plan>,
    done: u32,
    values: Vec<u32>,
}

impl Model for PlainWords {
    ghost use Rattle.gpu_fetch.specs.Plain.{PlainData, HoldItsValues};

    ghost Value = { PlainData };

    ghost view = { λ w. record { plan = w.plan.value; done = w.done } };

    ghost invariant = { λ w. HoldItsValues (w.plan.value) w.done w.values.items };
}

/// What the client of plain words hands over with a flush.
///
/// Seen as how many actions were done once the flush was made: the place of the flush and one more.
#[derive(Drop)]
pub struct PlainNote {
    mark: u32,
}

impl Model for PlainNote {
    ghost use Rattle.std.specs.Prelude.{ℕ};

    ghost Value = { ℕ };

    ghost view = { λ note. note.mark };
}

impl PlainNote {
    pub(crate) fn mark(&self) -> u32
        ensures { result ≡ self.now }
    {
        self.mark
    }
}

// So many words that are 0.
fn zeros(alloc: Global, count: usize) -> Result<Vec<u32>, Memory>
    ensures count { IfOk result (λ words. vec_len words ≡ count) }
    ensures zero { IfOk result (λ words. (i : ℕ) → slice_index words.items i ≡ 0) }
{
    Ok(vec![in alloc; 0u32; count]?)
}

// Whether the action at a position is a put.
fn is_put(actions: &[Action], position: usize) -> bool
    ensures { IsTrue result ↔ IsNext IsPut actions.now position }
{
    matches!(actions.get(position), Some(Action::Put { .. }))
}

// Stores the value of a put.
fn store(values: &mut Vec<u32>, action: &Action)
    requires { IsWithin (length values.old.items) action.now }
    ensures count { length values.new.items ≡ length values.old.items }
    ensures each { (i : ℕ) → slice_index values.new.items i
        ≡ after i (slice_index values.old.items i) action.now }
{
    if let Action::Put { place, value } = action {
        values[place.get() as usize] = *value;
    }
}

impl PlainWords {
    /// The words of a plan of which no action is done, and a side for them. All values are 0.
    pub fn make(alloc: Global, plan: &Plan) -> Result<(PlainWords, PlainPass), Memory>
        ensures words { IfOk result (λ made. made.0 ≡ fresh_words plan.now) }
        ensures side { IfOk result (λ made. made.1 ≡ fresh_side plan.now) }
        ensures beside { IfOk result (λ made. IsBeside made.1 made.0) }
    {
        let values = zeros(alloc, plan.areas().places() as usize)?;
        let words = PlainWords {
            plan: Snapshot::of(plan),
            done: 0,
            values,
        };
        Ok((words, PlainPass::of(plan)))
    }

    // Does the next action.
    fn advance(&mut self, plan: &Plan)
        requires plan { plan.now ≡ self.old.plan }
        requires next { self.old.done < length plan.now.actions }
        ensures { self.new ≡ one_further self.old }
    {
        store(&mut self.values, &plan.actions()[self.done as usize]);
        self.done += 1;
    }

    /// Stores the value of the next action, a put.
    pub fn put(&mut self, plan: &Plan)
        requires plan { plan.now ≡ self.old.plan }
        requires next { IsNext IsPut plan.now.actions self.old.done }

        ensures done { self.new ≡ one_further self.old }
        ensures beside { (side : SideData) → IsBeside side self.old → IsBeside side self.new }
        ensures notes { (side : SideData) (mark : ℕ) → IsNoteBeside side self.old mark
            → IsNoteBeside side self.new mark }
    {
        self.advance(plan);
    }

    /// Stores the values of all puts that come next, one after the other, and answers how many actions are done then.
    pub fn put_all(&mut self, plan: &Plan) -> u32
        requires { plan.now ≡ self.old.plan }

        ensures plan { self.new.plan ≡ self.old.plan }
        ensures done { result ≡ self.new.done }
        ensures further { self.old.done ≤ self.new.done }
        ensures puts { ArePuts plan.now.actions self.old.done self.new.done }
        ensures last { IsNext IsPut plan.now.actions self.new.done → ⊥ }
        ensures beside { (side : SideData) → IsBeside side self.old → IsBeside side self.new }
        ensures notes { (side : SideData) (mark : ℕ) → IsNoteBeside side self.old mark
            → IsNoteBeside side self.new mark }
    {
        let actions = plan.actions();
        let mut done = self.done as usize;
        while is_put(actions, done) {
            store(&mut self.values, &actions[done]);
            done += 1;
        }
        self.done = done as u32;
        self.done
    }

    /// Passes the next action, an await that passes at this number of finished flushes and this greatest token.
    pub fn pass(&mut self, plan: &Plan, finishes: u32, token: u32)
        requires plan { plan.now ≡ self.old.plan }
        requires next { IsNext IsAwait plan.now.actions self.old.done }
        requires passes { IsTrue (passes plan.now.actions self.old.done finishes (token ∷ [])) }

        ensures done { self.new ≡ one_further self.old }
        ensures beside { (side : SideData) → finishes ≤ side.finished → token ≤ side.greatest
            → IsBeside side self.old → IsBeside side self.new }
        ensures notes { (side : SideData) (mark : ℕ) → finishes ≤ side.finished
            → token ≤ side.greatest → IsNoteBeside side self.old mark
            → IsNoteBeside side self.new mark }
    {
        let _ = (finishes, token);
        self.advance(plan);
    }

    /// Does the next action, a flush, and gives its note.
    pub fn flush(&mut self, plan: &Plan) -> PlainNote
        requires plan { plan.now ≡ self.old.plan }
        requires next { IsNext IsFlush plan.now.actions self.old.done }

        ensures done { self.new ≡ one_further self.old }
        ensures note { result ≡ self.old.done + 1 }
        ensures beside { (side : SideData) → IsBeside side self.old
            → IsNoteBeside side self.new result }
        ensures notes { (side : SideData) (mark : ℕ) → IsNoteBeside side self.old mark
            → IsNoteBeside side self.new mark }
    {
        self.advance(plan);
        PlainNote { mark: self.done }
    }

    // The value at a place.
    pub(crate) fn value(&self, place: u32) -> u32
        requires { place < places_of self.now.plan.areas }
        ensures { result ≡ value_at self.now.plan.actions self.now.done place }
    {
        self.values[place as usize]
    }

    // How many actions are done.
    pub fn done(&self) -> u32
        ensures value { result ≡ self.now.done }
        ensures within { result ≤ length self.now.plan.actions }
    {
        self.done
    }
}
