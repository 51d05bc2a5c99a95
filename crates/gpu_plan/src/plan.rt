ghost use Rattle.std.specs.Prelude.{◌≡◌, ◌-◌, ◌<◌, ◌≤◌, [], ◌∷◌, length, slice_get, position, Some, IfSome};
ghost use Rattle.std.specs.List.{All};
ghost use Rattle.gpu_cmd.specs.Lawful.{IsLawfulAreas};
ghost use Rattle.std.specs.Option.{option_map};
ghost use Rattle.gpu_plan.specs.Plans.{IsLawfulPlan, IsLawfulScript, IsDump, RiseFrom, is_of, number_of};
ghost use Rattle.gpu_plan.specs.Passes.{passes_behind};
ghost use Rattle.gpu_plan.specs.Fencing.{fences_in};
ghost use Rattle.gpu_plan.specs.Named.{names_in, IsVersion, AreLawfulNames};
ghost use Rattle.gpu_plan.specs.declared.adding.TheConstants.{MOST_STREAMS, LAST_NAMESPACE};

use crate::fenced::{Fenced, noted_at};
use crate::fences::Fences;
use crate::place::Place;
use gpu_cmd::{Areas, Name, Priority};
use std::marker::Model;

/// One act of a client, in the order of its script.
///
/// It takes eight bytes, since a script may have a million actions, and most are puts:
/// - one byte says which it is
/// - three have a put's place
/// - four have a put's value, or the number of a flush or a token
#[derive(Drop)]
pub enum Action {
    /// Stores a value in one of the stream's words.
    Put { place: Place, value: u32 },
    /// Hands the ring's entries up to `put` to the service, after these fences.
    Flush { put: u32, fences: Fences },
    /// Waits until all flushes before are finished.
    Finish,
    /// Waits until the stream has set a token of at least this one, or as `Finish` does.
    Token { token: u32 },
    /// Closes the stream.
    Close,
}

impl Action {
    /// Whether the action passes after `behind` flushes, where `finished` are finished and this is the greatest token.
    pub fn passes(&self, behind: u32, finished: u32, greatest: u32) -> bool
        ensures { result ≡ passes_behind behind finished (greatest ∷ []) self.now }
    {
        match self {
            Action::Put { .. } | Action::Flush { .. } => true,
            Action::Finish => behind <= finished,
            Action::Token { token } => behind <= finished || *token <= greatest,
            Action::Close => false,
        }
    }
}

/// What one stream is called, has and does.
///
/// The areas take some 400 bytes, so they lie apart: a plan is moved with its draft at each line that declares.
#[derive(Drop)]
pub struct Plan {
    pub(crate) name: Name,
    pub(crate) areas: Box<Areas>,
    pub(crate) priority: Priority,
    pub(crate) actions: Vec<Action>,
    pub(crate) fenced: Vec<Fenced>,
    pub(crate) dumps: Vec<(u32, u32)>,
}

impl Model for Plan {
    ghost use Rattle.std.specs.Prelude.{◌≡◌};
    ghost use Rattle.std.specs.List.{All};
    ghost use Rattle.gpu_plan.specs.Plans.{PlanData, IsLawfulPlan, IsDump, RiseFrom};
    ghost use Rattle.gpu_plan.specs.Fencing.{fenced_from};

    ghost Value = { PlanData };

    ghost view = { λ p. record {
      name = p.name;
      areas = p.areas.value;
      priority = p.priority;
      actions = p.actions.items;
      dumps = p.dumps.items;
    } };

    ghost invariant = { λ p. IsLawfulPlan p.areas.value p.actions.items
        × All (IsDump p.areas.value.results p.actions.items) p.dumps.items
        × RiseFrom 0 p.dumps.items
        × (p.fenced.items ≡ fenced_from 0 p.actions.items) };
}

impl Plan {
    /// The actions of the stream's client, in order. They are lawful beside the stream's areas.
    pub fn actions(&self) -> &[Action]
        ensures value { result.now ≡ self.now.actions }
        ensures lawful { IsLawfulPlan self.now.areas result.now }
    {
        &self.actions
    }

    /// The fences of the flush at a place, or none where no flush is.
    #[tactic(auto, using(crate::proofs::Fencing::rise_here, crate::proofs::Fencing::noted_here))]
    pub fn fences_at(&self, place: u32) -> &[(u32, u64)]
        ensures { result.now ≡ fences_in (slice_get self.now.actions place) }
    {
        match noted_at(&self.fenced, place) {
            Some(noted) => noted.pairs.as_slice(),
            None => &[],
        }
    }

    /// The ring and the memories of the stream. They are lawful.
    pub fn areas(&self) -> &Areas
        ensures value { result.now ≡ self.now.areas }
        ensures lawful { IsLawfulAreas result.now }
    {
        &self.areas
    }

    /// The stream's name.
    pub fn name(&self) -> Name
        ensures { result ≡ self.now.name }
    {
        self.name
    }

    /// The stream's priority.
    pub fn priority(&self) -> Priority
        ensures { result ≡ self.now.priority }
    {
        self.priority
    }

    /// What the client reads: for each dump line in order, the place of its Finish among the actions, and the result place
    /// that is read once this Finish has passed. The places of the Finishes rise.
    pub fn dumps(&self) -> &[(u32, u32)]
        ensures value { result.now ≡ self.now.dumps }
        ensures lawful { All (IsDump self.now.areas.results self.now.actions) result.now }
        ensures rising { RiseFrom 0 result.now }
    {
        &self.dumps
    }

    /// Shows what each plan keeps: its actions are lawful beside its areas, and its dumps beside both. It changes nothing.
    pub fn shows_lawful(&self)
        ensures actions { IsLawfulPlan self.now.areas self.now.actions }
        ensures dumps { All (IsDump self.now.areas.results self.now.actions) self.now.dumps }
    {
        let _ = &self.actions;
    }
}

/// The plans of one script, of version 1 or 2, at most 16, in the order of their stream lines. No two streams have the same
/// name, and no namespace is greater than 255.
#[derive(Drop)]
pub struct Plans {
    version: u32,
    plans: Vec<Plan>,
}

impl Model for Plans {
    ghost use Rattle.gpu_plan.specs.Plans.{PlansData, IsLawfulScript};
    ghost use Rattle.gpu_plan.specs.Named.{names_in, IsVersion, AreLawfulNames};

    ghost Value = { PlansData };

    ghost view = { λ p. record { version = p.version; plans = p.plans.items } };

    ghost invariant = { λ p. IsLawfulScript p.plans.items
        × AreLawfulNames p.version (names_in p.plans.items) × IsVersion p.version };
}

impl Plans {
    pub(crate) fn of(version: u32, plans: Vec<Plan>) -> Plans
        requires lawful { IsLawfulScript plans.items }
        requires named { AreLawfulNames version (names_in plans.items) }
        requires known { IsVersion version }
        ensures { result ≡ record { version = version; plans = plans.items } }
    {
        Plans { version, plans }
    }

    /// The version of the script: 1 or 2.
    pub fn version(&self) -> u32
        ensures value { result ≡ self.now.version }
        ensures known { IsVersion result }
    {
        self.version
    }

    /// Shows that the version is 1 or 2. It changes nothing.
    pub fn shows_version(&self)
        ensures { IsVersion self.now.version }
    {
        let _ = &self.plans;
    }

    /// How many streams there are. They and their names are lawful.
    pub fn count(&self) -> u32
        ensures count { result ≡ length self.now.plans }
        ensures lawful { IsLawfulScript self.now.plans }
        ensures named { AreLawfulNames self.now.version (names_in self.now.plans) }
        ensures few { result ≤ MOST_STREAMS }
    {
        self.plans.len() as u32
    }

    /// The plan of a stream, counted from 1.
    pub fn plan(&self, stream: u32) -> &Plan
        requires first { 1 ≤ stream }
        requires last { stream ≤ length self.now.plans }
        ensures { slice_get self.now.plans (stream - 1) ≡ Some result.now }
    {
        &self.plans[stream as usize - 1]
    }

    /// The name of a stream, counted from 1. No other stream has it, and its namespace is at most 255. In version 1 stream S
    /// has the name (0, S).
    pub fn name(&self, stream: u32) -> Name
        requires first { 1 ≤ stream }
        requires last { stream ≤ length self.now.plans }
        ensures value { option_map (λ plan. plan.name) (slice_get self.now.plans (stream - 1))
            ≡ Some result }
        ensures numbered { self.now.version ≡ 1 → result ≡ record { namespace = 0; id = stream } }
        ensures own { number_of self.now.plans result ≡ stream }
        ensures space { result.namespace ≤ LAST_NAMESPACE }
    {
        self.plans[stream as usize - 1].name()
    }

    /// The number of the stream that has a name, or 0 where none has it.
    pub fn number(&self, name: Name) -> u32
        ensures { result ≡ number_of self.now.plans name }
    {
        number_of(&self.plans, name)
    }
}

/// The number of the stream that has a name among these, or 0 where none has it.
pub(crate) fn number_of(plans: &[Plan], name: Name) -> u32
    requires { length plans.now ≤ MOST_STREAMS }
    ensures { result ≡ number_of plans.now name }
{
    match place_of(plans, name) {
        Some(at) => at as u32 + 1,
        None => 0,
    }
}

// The place of the plan of the stream that has a name.
fn place_of(plans: &[Plan], name: Name) -> Option<usize>
    ensures place { result ≡ position (is_of name) plans.now }
    ensures within { IfSome result (λ at. at < length plans.now) }
{
    plans.iter().position(|plan| name == plan.name)
}
