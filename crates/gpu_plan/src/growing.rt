ghost use Rattle.std.specs.Prelude.{◌≡◌, ◌+◌, ◌<◌, ◌≤◌, ◌^◌, ◌++◌, [], ◌∷◌, false, length, take, Some, is_some, OnOk, OnErr, IfOk, IfSome, IfNone, OnSome};
ghost use Rattle.gpu_cmd.specs.Lawful.{places_of};
ghost use Rattle.gpu_cmd.specs.Spans.{AreTiles, words_in};
ghost use Rattle.gpu_cmd.specs.declared.areas.TheConstants.{LEAST_RING, MOST_RING};
ghost use Rattle.script_lines.specs.Left.{values_left};
ghost use Rattle.gpu_plan.specs.Plans.{IsWithin, is_closed, ring_alone};
ghost use Rattle.gpu_plan.specs.Adding.{fresh_plan};
ghost use Rattle.gpu_plan.specs.Putting.{can_put, word_puts, with_word_puts};
ghost use Rattle.gpu_plan.specs.declared.acting.TheConstants.{MOST_ACTIONS, MOST_FENCES};
ghost use Rattle.gpu_plan.specs.declared.plan.Action.TheVariants.{Flush, Finish};
ghost use Rattle.gpu_plan.specs.Fencing.{fences_in};

use crate::fenced::Fenced;
use crate::fences::Fences;
use crate::place::Place;
use crate::plan::{Action, Plan};
use gpu_cmd::{Areas, Name, Priority, Span};
use script_lines::Values;
use std::alloc::{AllocError, Global};

// Adds puts of the words that are left of a line, from one place on, up to a word that is no value, or to another place.
// Where all words were put, this is the place after them.
fn push_puts(
    actions: &mut Vec<Action>,
    place: u32,
    end: u32,
    values: Values<'_>,
) -> Result<Option<u32>, AllocError>
    requires ordered { place ≤ end }
    requires small { end ≤ 2 ^ 24 }
    ensures told { IfOk result (λ at. is_some at ≡ can_put place end (values_left values.entry)) }
    ensures within { IfOk result (λ at. IfSome at (λ at. at ≤ end)) }
    ensures at { IfOk result
        (λ at. IfSome at (λ at. at ≡ place + length (values_left values.entry))) }
    ensures put { IfOk result
        (λ at. OnSome at
        (actions.new.items ≡ actions.old.items ++ word_puts place (values_left values.entry))) }
    ensures behind { take (length actions.old.items) actions.new.items ≡ actions.old.items }
{
    actions.reserve((end - place) as usize)?;
    let mut at = place;
    for value in values {
        let Some(value) = value else {
            return Ok(None);
        };
        if at == end {
            return Ok(None);
        }
        actions.push_reserved(Action::Put {
            place: Place::of(at),
            value,
        });
        at += 1;
    }
    Ok(Some(at))
}

// The areas of a stream that has a ring and no memory.
fn ring_alone(ring: u32) -> Areas
    ensures { result ≡ ring_alone ring }
{
    Areas {
        ring,
        memories: [None; 16],
        results: [None; 16],
    }
}

impl Plan {
    /// The plan of a stream that has a ring and no memory, and has not acted.
    #[tactic(auto, using(crate::proofs::Lawful::lawful_start))]
    pub(crate) fn start(
        alloc: Global,
        name: Name,
        priority: Priority,
        ring: u32,
    ) -> Result<Plan, AllocError>
        requires least { LEAST_RING ≤ ring }
        requires most { ring ≤ MOST_RING }
        ensures { IfOk result (λ plan. plan ≡ fresh_plan name priority ring) }
    {
        let areas = Box::new(alloc, ring_alone(ring))?;
        Ok(Plan {
            name,
            areas,
            priority,
            actions: Vec::new(alloc),
            fenced: Vec::new(alloc),
            dumps: Vec::new(alloc),
        })
    }

    /// Whether the stream's client has closed it.
    pub(crate) fn is_closed(&self) -> bool
        ensures { result ≡ is_closed self.now.actions }
    {
        matches!(self.actions.as_slice(), [.., Action::Close])
    }

    /// Adds an action that has no fences.
    pub(crate) fn add_action(&mut self, action: Action) -> Result<(), AllocError>
        requires unclosed { is_closed self.old.actions ≡ false }
        requires few { length self.old.actions < MOST_ACTIONS }
        requires within { IsWithin (places_of self.old.areas) action }
        requires unfenced { fences_in (Some action) ≡ [] }
        ensures added { OnOk result
            (self.new ≡ record self.old { actions = self.old.actions ++ action ∷ [] }) }
        ensures same { OnErr result (self.new ≡ self.old) }
    {
        self.actions.push(action)?;
        Ok(())
    }

    /// Adds a flush that waits for these fences.
    pub(crate) fn add_flush(&mut self, put: u32, fences: Vec<(u32, u64)>) -> Result<(), AllocError>
        requires unclosed { is_closed self.old.actions ≡ false }
        requires few { length self.old.actions < MOST_ACTIONS }
        requires fenced { length fences.items ≤ MOST_FENCES }
        ensures added { OnOk result
            (self.new
            ≡ record self.old { actions = self.old.actions ++ Flush put fences.items ∷ [] }) }
        ensures same { OnErr result (self.new ≡ self.old) }
    {
        let action = Action::Flush {
            put,
            fences: Fences::of(&fences),
        };
        if fences.is_empty() {
            return self.add_action(action);
        }
        let place = self.actions.len() as u32;
        self.fenced.reserve(1)?;
        self.actions.push(action)?;
        self.fenced.push_reserved(Fenced {
            place,
            pairs: fences,
        });
        Ok(())
    }

    /// Adds puts of the words that are left of a line, from one place on, where these are values and their places stay below
    /// another. How many they are; else the plan is as it was.
    pub(crate) fn add_puts(
        &mut self,
        place: u32,
        end: u32,
        values: Values<'_>,
    ) -> Result<Option<usize>, AllocError>
        requires ordered { place ≤ end }
        requires unclosed { is_closed self.old.actions ≡ false }
        requires few { length self.old.actions + end ≤ MOST_ACTIONS + place }
        requires fits { end ≤ places_of self.old.areas }
        ensures told { IfOk result
            (λ count. is_some count ≡ can_put place end (values_left values.entry)) }
        ensures within { IfOk result (λ count. IfSome count (λ count. place + count ≤ end)) }
        ensures counted { IfOk result
            (λ count. IfSome count (λ count. count ≡ length (values_left values.entry))) }
        ensures put { IfOk result
            (λ count. OnSome count
            (self.new ≡ with_word_puts place (values_left values.entry) self.old)) }
        ensures refused { IfOk result (λ count. IfNone count (self.new ≡ self.old)) }
        ensures same { OnErr result (self.new ≡ self.old) }
    {
        let before = self.actions.len();
        match push_puts(&mut self.actions, place, end, values) {
            Ok(Some(at)) => Ok(Some((at - place) as usize)),
            Ok(None) => {
                self.actions.truncate(before);
                Ok(None)
            }
            Err(error) => {
                self.actions.truncate(before);
                Err(error)
            }
        }
    }

    /// Adds a Finish, after which this result place is read.
    pub(crate) fn add_dump(&mut self, place: u32) -> Result<(), AllocError>
        requires unclosed { is_closed self.old.actions ≡ false }
        requires few { length self.old.actions < MOST_ACTIONS }
        requires there { place < words_in self.old.areas.results }
        ensures added { OnOk result
            (self.new ≡ record self.old {
              actions = self.old.actions ++ Finish ∷ [];
              dumps = self.old.dumps ++ (length self.old.actions, place) ∷ [];
            }) }
        ensures same { OnErr result (self.new ≡ self.old) }
    {
        let at = self.actions.len() as u32;
        self.dumps.reserve(1)?;
        self.actions.push(Action::Finish)?;
        self.dumps.push_reserved((at, place));
        Ok(())
    }

    /// The plan with these transfer memories.
    pub(crate) fn with_memories(self, memories: [Option<Span>; 16]) -> Plan
        requires fresh { self.actions ≡ [] }
        requires tiles { AreTiles self.areas.ring memories }
        ensures { result ≡ record self { areas = record self.areas { memories = memories } } }
    {
        let Plan {
            name,
            mut areas,
            priority,
            actions,
            fenced,
            dumps,
        } = self;
        areas.memories = memories;
        Plan {
            name,
            areas,
            priority,
            actions,
            fenced,
            dumps,
        }
    }

    /// The plan with these result memories.
    pub(crate) fn with_results(self, results: [Option<Span>; 16]) -> Plan
        requires fresh { self.actions ≡ [] }
        requires tiles { AreTiles 0 results }
        ensures { result ≡ record self { areas = record self.areas { results = results } } }
    {
        let Plan {
            name,
            mut areas,
            priority,
            actions,
            fenced,
            dumps,
        } = self;
        areas.results = results;
        Plan {
            name,
            areas,
            priority,
            actions,
            fenced,
            dumps,
        }
    }
}
