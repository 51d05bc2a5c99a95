ghost use Rattle.std.specs.Prelude.{◌≡◌, ◌↔◌, ◌==◌, ◌<◌, ◌+◌, ◌%◌, ◌^◌, false, IsTrue, IfOk, OnOk, OnErr};
ghost use Rattle.gpu_cmd.specs.Lawful.{IsLawfulFacts};
ghost use Rattle.house_core.specs.Desks.{Agree, at_home, run_of};
ghost use Rattle.gpu_journal.specs.World.{greatest_after};
ghost use Rattle.step_parts.specs.Executing.{areas_of, IsReady, AnswersAct};
ghost use Rattle.house_core.specs.Stepping.{stepped_desk};
ghost use Rattle.stream_state.specs.State.{facts_of};

use crate::desk::{Desk, OtherHalf, note, numbers};
use gpu_books::Half;
use gpu_cmd::StreamFacts;
use gpu_plan::Plan;
use gpu_word::Memory;
use std::marker::Model;
use std::snapshot::Snapshot;
use step_parts::{Acted, Scene, Taken, act};
use stream_state::{Effect, StreamState};

/// What a run carries outside the lock.
#[derive(Drop)]
pub struct Carried {
    stream: u32,
    order: u32,
    // For contracts alone, as the numbers of the half are.
    place: Snapshot<u32>,
    facts: StreamFacts,
    paused: bool,
    half: Half,
}

impl Model for Carried {
    ghost use Rattle.std.specs.Prelude.{◌≡◌, ◌<◌, ◌%◌, slice_index};
    ghost use Rattle.gpu_cmd.specs.Lawful.{IsLawfulFacts};
    ghost use Rattle.house_core.specs.Desks.{RunData, book_numbers};

    ghost Value = { RunData };

    ghost view = { λ r. record {
      stream = r.stream;
      order = r.order;
      place = r.place.value;
      facts = r.facts;
      entries = slice_index r.half.numbers 0;
      finished = slice_index r.half.numbers 2;
      greatest = slice_index r.half.numbers 3;
      paused = r.paused;
      book = r.half.book;
    } };

    ghost invariant = { λ r. (0 < r.order) × IsLawfulFacts r.facts
        × (r.facts.get ≡ slice_index r.half.numbers 0 % r.facts.areas.ring)
        × (r.half.numbers
        ≡ book_numbers (slice_index r.half.numbers 0) r.facts.fetched
        (slice_index r.half.numbers 2) (slice_index r.half.numbers 3)
        (record { order = r.order; paused = r.paused })) };
}

// The facts of the next command, once the state of the stream went on.
fn refresh(facts: &mut StreamFacts, state: &StreamState)
    requires { IsLawfulFacts facts.old }
    ensures facts { facts.new ≡ facts_of facts.old.areas facts.old.put state.now }
    ensures lawful { IsLawfulFacts facts.new }
{
    facts.get = (state.entries() % u64::from(facts.areas.ring)) as u32;
    facts.fetched = state.fetched();
}

// The greatest token of a stream after a step that asked for this effect.
fn greatest_after(effect: &Effect, greatest: u32) -> u32
    ensures { result ≡ greatest_after effect.now greatest }
{
    match effect {
        Effect::Token(token) => (*token).max(greatest),
        _ => greatest,
    }
}

impl Carried {
    /// The stream of the run.
    pub fn stream(&self) -> u32
        ensures { result ≡ self.now.stream }
    {
        self.stream
    }

    /// The order number of the run.
    pub fn order(&self) -> u32
        ensures order { result ≡ self.now.order }
        ensures positive { 0 < self.now.order }
    {
        self.order
    }

    /// What the checks of the next command read.
    pub fn facts(&self) -> &StreamFacts
        ensures facts { result.now ≡ self.now.facts }
        ensures lawful { IsLawfulFacts self.now.facts }
    {
        &self.facts
    }

    /// Whether nothing is left of the flush.
    pub fn at_end(&self) -> bool
        ensures value { result ≡ (self.now.facts.get == self.now.facts.put) }
        ensures at_end { IsTrue result ↔ (self.now.facts.get ≡ self.now.facts.put) }
    {
        self.facts.get == self.facts.put
    }

    /// Whether the latest step of the run was answered Paused.
    pub fn paused(&self) -> bool
        ensures { result ≡ self.now.paused }
    {
        self.paused
    }

    /// A run has what the desk of its book has.
    pub fn shows_desk(&mut self, desk: &mut Desk)
        requires { self.old.book ≡ desk.old.book }
        ensures desk { desk.new ≡ desk.old }
        ensures run { self.new ≡ self.old }
        ensures positive { 0 < self.old.order }
        ensures get { self.old.facts.get ≡ self.old.entries % self.old.facts.areas.ring }
        ensures agree { Agree self.old desk.old }
    {
        desk.shows_half(&mut self.half);
    }

    /// The run comes home.
    pub fn come(self, desk: &mut Desk)
        requires { self.book ≡ desk.old.book }
        ensures { desk.new ≡ record desk.old { out = at_home } }
    {
        let Carried { half, .. } = self;
        desk.come(half);
    }

    /// The run comes home, and its order is finished.
    pub fn finish(self, desk: &mut Desk)
        requires book { self.book ≡ desk.old.book }
        requires room { desk.old.finished + 1 < 2 ^ 32 }
        ensures { desk.new ≡ record desk.old { finished = desk.old.finished + 1; out = at_home } }
    {
        let Carried { half, .. } = self;
        desk.finish(half);
    }

    /// The run of this order, whose flush stands at this place and ends at this put, leaves its desk.
    #[inline(always)]
    pub fn take(
        desk: &mut Desk,
        plan: &Plan,
        stream: u32,
        order: u32,
        place: u32,
        put: u32,
    ) -> Carried
        requires order { 0 < order }
        requires home { desk.old.out.order ≡ 0 }
        ensures desk { desk.new ≡
            record desk.old { out = record { order = order; paused = false } } }
        ensures home { desk.old.out ≡ at_home }
        ensures run { result ≡ run_of stream plan.now.areas place put desk.new }
    {
        let half = desk.leave(order);
        Carried {
            stream,
            order,
            place: Snapshot::of(&place),
            facts: desk.state().facts(plan.areas(), put),
            paused: false,
            half,
        }
    }

    /// The run executes the command that was taken for it. Its desk and both halves of the book go on with it.
    pub fn step(
        &mut self,
        desk: &mut Desk,
        scene: &mut Scene,
        taken: &Taken<'_>,
    ) -> Result<Acted, Memory>
        requires book { self.old.book ≡ desk.old.book }
        requires areas { self.old.facts.areas ≡ areas_of taken.now }
        requires ready { IsReady taken.now scene.old.sync desk.old.state }
        ensures acts { AnswersAct taken.now scene.old scene.new desk.old.state desk.new.state
            result }
        ensures desk { IfOk result
            (λ acted. desk.new ≡ stepped_desk desk.new.state acted self.old.order desk.old) }
        ensures run { OnOk result (self.new
            ≡ run_of self.old.stream
            (areas_of taken.now) self.old.place self.old.facts.put desk.new) }
        ensures same_desk { OnErr result (desk.new ≡ desk.old) }
        ensures same_run { OnErr result (self.new ≡ self.old) }
    {
        let acted = act(scene, &mut desk.state, taken)?;
        let paused = acted.kept;
        let greatest = greatest_after(&acted.effect, desk.greatest);
        let order = self.order;
        let numbers = numbers(&desk.state, desk.finished, greatest, order, paused);
        note(&desk.book, &mut desk.kept, &mut self.half, &numbers);
        desk.greatest = greatest;
        desk.other = OtherHalf::Out { order, paused };
        refresh(&mut self.facts, &desk.state);
        self.paused = paused;
        Ok(acted)
    }
}
