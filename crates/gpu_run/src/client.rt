//! The client of one stream: it does the actions of its plan, and reads its dumps.
ghost use Rattle.std.specs.Prelude.{◌≡◌, ℕ, ◌+◌, ◌≤◌, [], ◌∷◌, ◌++◌, length, slice_get, true, IfOk, IfSome, IfNone, OnOk};
ghost use Rattle.gpu_plan.specs.Passes.{passes};
ghost use Rattle.gpu_fetch.specs.Side.{SideData, fresh_side};
ghost use Rattle.gpu_fetch.specs.Plain.{ArePuts, IsBeside, IsNoteBeside, IsNext, IsPut, IsFlush, one_further};
ghost use Rattle.stream_state.specs.State.{result_of};
ghost use Rattle.gpu_run.specs.Clients.{fresh_run_client, flushes_to};
ghost use Rattle.gpu_run.specs.Reading.{read_with};

use gpu_fetch::{PlainNote, PlainPass, PlainWords};
use gpu_plan::{Action, Plan};
use gpu_word::Memory;
use result_words::Dumps;
use std::alloc::Global;
use std::marker::Model;
use stream_state::StreamState;

/// The client of one stream.
///
/// Seen as its words, and the dumps that it has read.
#[derive(Drop)]
pub(crate) struct Client {
    words: PlainWords,
    position: u32,
    flushed: u32,
    dumps: Dumps,
}

impl Model for Client {
    ghost use Rattle.gpu_run.specs.Clients.{RunClientData, IsCounted};

    ghost Value = { RunClientData };

    ghost view = { λ c. record { words = c.words; read = c.dumps } };

    ghost invariant = { λ c. IsCounted c.words c.position c.flushed };
}

impl Client {
    /// The client of a plan, which has done nothing, and the service's side of its words.
    pub(crate) fn make(alloc: Global, plan: &Plan) -> Result<(Client, PlainPass), Memory>
        ensures client { IfOk result (λ made. made.0 ≡ fresh_run_client plan.now) }
        ensures side { IfOk result (λ made. made.1 ≡ fresh_side plan.now) }
        ensures beside { IfOk result (λ made. IsBeside made.1 made.0.words) }
    {
        let (words, side) = PlainWords::make(alloc, plan)?;
        let dumps = Vec::with_capacity(alloc, plan.dumps().len())?;
        let client = Client {
            words,
            position: 0,
            flushed: 0,
            dumps: Dumps::of(dumps),
        };
        Ok((client, side))
    }

    /// The words.
    pub(crate) fn words(&self) -> &PlainWords
        ensures { result.now ≡ self.now.words }
    {
        &self.words
    }

    /// How many actions are done.
    pub(crate) fn position(&self) -> u32
        ensures { result ≡ self.now.words.done }
    {
        self.position
    }

    /// Whether the next action passes at this number of finished flushes and this greatest token.
    pub(crate) fn passes(&self, plan: &Plan, finishes: u32, token: u32) -> bool
        requires { plan.now ≡ self.now.words.plan }
        ensures { result ≡ passes plan.now.actions self.now.words.done finishes (token ∷ []) }
    {
        match plan.actions().get(self.position as usize) {
            Some(action) => action.passes(self.flushed, finishes, token),
            None => false,
        }
    }

    /// Reads the next dump where it is of the next action, which passes.
    pub(crate) fn read(&mut self, plan: &Plan, state: &StreamState) -> Result<(), Memory>
        ensures words { self.new.words ≡ self.old.words }
        ensures read { OnOk result (self.new.read
            ≡ self.old.read ++ read_with
            (slice_get plan.now.dumps (length self.old.read)) self.old.words.done
            (result_of state.now)) }
    {
        let Some(dump) = plan.dumps().get(self.dumps.as_slice().len()) else {
            return Ok(());
        };
        let (action, place) = *dump;
        if action != self.position {
            return Ok(());
        }
        self.dumps.push(action, place, state.result(place))
    }

    /// The dumps that were read.
    pub(crate) fn into_dumps(self) -> Dumps
        ensures { result ≡ self.read }
    {
        self.dumps
    }

    /// Stores the values of all puts that come next, one after the other.
    pub(crate) fn put_all(&mut self, plan: &Plan)
        requires { plan.now ≡ self.old.words.plan }
        ensures plan { self.new.words.plan ≡ self.old.words.plan }
        ensures read { self.new.read ≡ self.old.read }
        ensures further { self.old.words.done ≤ self.new.words.done }
        ensures puts { ArePuts plan.now.actions self.old.words.done self.new.words.done }
        ensures last { IsNext IsPut plan.now.actions self.new.words.done → ⊥ }
        ensures beside { (side : SideData) → IsBeside side self.old.words
            → IsBeside side self.new.words }
        ensures notes { (side : SideData) (mark : ℕ)
            → IsNoteBeside side self.old.words mark → IsNoteBeside side self.new.words mark }
    {
        self.position = self.words.put_all(plan);
    }

    /// Does the next action, which passes. A flush gives its note.
    pub(crate) fn act(&mut self, plan: &Plan, finishes: u32, token: u32) -> Option<PlainNote>
        requires plan { plan.now ≡ self.old.words.plan }
        requires passes { passes plan.now.actions self.old.words.done finishes (token ∷ []) ≡ true }
        ensures words { self.new.words ≡ one_further self.old.words }
        ensures read { self.new.read ≡ self.old.read }
        ensures beside { (side : SideData) → finishes ≤ side.finished → token ≤ side.greatest
            → IsBeside side self.old.words → IsBeside side self.new.words }
        ensures notes { (side : SideData) (mark : ℕ) → finishes ≤ side.finished
            → token ≤ side.greatest
            → IsNoteBeside side self.old.words mark → IsNoteBeside side self.new.words mark }
        ensures quiet { IfNone result (flushes_to plan.now (self.old.words.done + 1)
            ≡ flushes_to plan.now self.old.words.done) }
        ensures flush { IfSome result
            (λ note. IsNext IsFlush plan.now.actions self.old.words.done) }
        ensures mark { IfSome result (λ note. note ≡ self.old.words.done + 1) }
        ensures noted { IfSome result
            (λ note. (side : SideData) → IsBeside side self.old.words
            → IsNoteBeside side self.new.words note) }
    {
        let action = &plan.actions()[self.position as usize];
        self.position += 1;
        match action {
            Action::Put { .. } => {
                self.words.put(plan);
                None
            }
            Action::Flush { .. } => {
                self.flushed += 1;
                Some(self.words.flush(plan))
            }
            _ => {
                self.words.pass(plan, finishes, token);
                None
            }
        }
    }
}
