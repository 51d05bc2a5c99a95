ghost use Rattle.std.specs.Prelude.{◌≡◌, length, map};
ghost use Rattle.sync_core.specs.Standing.{IsKnown};
ghost use Rattle.wait_hooks.specs.Marks.{mark};
ghost use Rattle.gpu_journal.specs.World.{state_of, replay};
ghost use Rattle.gpu_journal.specs.Waits.{endings_in};
ghost use Rattle.gpu_journal.specs.Legal.{IsLegal};
ghost use Rattle.gpu_house.specs.Ending.{doing_of};

use crate::answers::Doing;
use crate::doing::doing;
use gpu_journal::Journal;
use gpu_plan::Plans;
use gpu_store::Images;
use house_core::Core;
use std::marker::Model;
use stream_state::StreamState;
use sync_core::Ending;
use wait_hooks::{Hook, Hooks};

/// What a house leaves: the plans, the base of the marks, the journal, and what follows from it.
///
/// Contracts see the plans, the base and the journal with its newest event first.
#[derive(Drop)]
pub struct Report {
    core: Core,
    base: u32,
    marks: Vec<u32>,
}

impl Model for Report {
    ghost use Rattle.std.specs.Prelude.{◌≡◌, map};
    ghost use Rattle.wait_hooks.specs.Marks.{mark};
    ghost use Rattle.gpu_journal.specs.Waits.{endings_in};
    ghost use Rattle.gpu_house.specs.House.{ReportData};

    ghost Value = { ReportData };

    ghost view = { λ r. record { plans = r.core.plans; base = r.base; past = r.core.past } };

    ghost invariant = { λ r. r.marks.items
        ≡ map (mark r.base) (endings_in r.core.plans r.core.past) };
}

impl Report {
    // What a core and its hooks leave.
    pub(crate) fn of<H: Hook>(core: Core, hooks: Hooks<H>) -> Report
        requires { hooks.marks ≡ map (mark hooks.base) (endings_in core.plans core.past) }
        ensures { result ≡ record { plans = core.plans; base = hooks.base; past = core.past } }
    {
        let (hook, marks) = hooks.into_marks();
        let base = hook.base();
        Report { core, base, marks }
    }

    /// The plans of the streams.
    pub fn plans(&self) -> &Plans
        ensures { result.now ≡ self.now.plans }
    {
        self.core.plans()
    }

    /// The base of the marks.
    pub fn base(&self) -> u32
        ensures { result ≡ self.now.base }
    {
        self.base
    }

    /// The journal. It is legal.
    pub fn journal(&self) -> &Journal
        ensures past { result.now.events ≡ self.now.past }
        ensures legal { IsLegal self.now.plans self.now.past }
    {
        self.core.journal()
    }

    /// Shows that the journal is legal. It changes nothing.
    pub fn shows_legal(&self)
        ensures { IsLegal self.now.plans self.now.past }
    {
        self.core.shows_legal();
    }

    /// The images: what the journal's steps drew.
    pub fn images(&self) -> &Images
        ensures { result.now ≡ replay self.now.plans self.now.past }
    {
        self.core.images()
    }

    /// The state of a stream: what its steps left.
    pub fn stream(&self, stream: u32) -> &StreamState
        requires { IsKnown (length self.now.plans.plans) stream }
        ensures { result.now ≡ state_of self.now.plans self.now.past stream }
    {
        self.core.stream(stream)
    }

    /// The waits that have ended, in order.
    pub fn endings(&self) -> &[Ending]
        ensures { result.now ≡ endings_in self.now.plans self.now.past }
    {
        self.core.endings()
    }

    /// The mark of each wait that has ended, in order: what the stored callback answered.
    pub fn marks(&self) -> &[u32]
        ensures { result.now ≡ map (mark self.now.base) (endings_in self.now.plans self.now.past) }
    {
        self.marks.as_slice()
    }

    /// What a stream was doing.
    pub fn state(&self, stream: u32) -> Doing
        requires { IsKnown (length self.now.plans.plans) stream }
        ensures { result ≡ doing_of self.now.plans self.now.past stream }
    {
        doing(&self.core, stream)
    }
}
