ghost use Rattle.std.specs.Prelude.{◌≡◌, ◌+◌, ◌<◌, ◌≤◌, ℕ, [], ◌∷◌, false, ◌^◌, Ok, Err, Some, IfOk, IfSome, MatchOption};
ghost use Rattle.gpu_cmd.specs.Lawful.{IsLawfulAreas, places_of};
ghost use Rattle.gpu_plan.specs.Plans.{IsWithin, is_flush};
ghost use Rattle.script_lines.specs.Outcome.{Gives, or_error};
ghost use Rattle.script_lines.specs.declared.fault.Kind.TheVariants.{Order};
ghost use Rattle.gpu_plan.specs.Adding.{acting, fresh, with_actions, flushed, dumped, area_of};
ghost use Rattle.gpu_plan.specs.Fencing.{fences_in};
ghost use Rattle.gpu_plan.specs.Drafts.{shown, begun, Becomes, WerePut, WereRefused, TellsWhy};

use crate::begun::Begun;
use crate::draft::Draft;
use crate::plan::{Action, Plan};
use gpu_cmd::{Areas, Span, span_at};
use script_lines::{Kind, LineError, Values};
use std::alloc::AllocError;

/// The most actions of a script.
pub const MOST_ACTIONS: usize = 1_000_000;

/// The most flushes of a script.
pub const MOST_FLUSHES: usize = 100_000;

/// The most fences of a flush.
pub const MOST_FENCES: usize = 16;

// The draft, where a stream was begun.
fn begun(draft: Draft) -> Result<Begun, LineError>
    ensures plan { Gives (λ b. b.plan) result (or_error Order (shown draft).last) }
    ensures same { IfOk result (λ b. begun b ≡ shown draft) }
{
    let Draft {
        done,
        last,
        actions,
        flushes,
    } = draft;
    let Some(plan) = last else {
        return Err(LineError::Refused(Kind::Order));
    };
    Ok(Begun {
        done,
        plan,
        actions,
        flushes,
    })
}

/// The draft, where the stream begun last has not acted yet.
#[tactic(auto, unfolding(crate::specs::Adding::fresh))]
pub(crate) fn fresh(draft: Draft) -> Result<Begun, LineError>
    ensures plan { Gives (λ b. b.plan) result (fresh (shown draft)) }
    ensures same { IfOk result (λ b. begun b ≡ shown draft) }
    ensures fresh { IfOk result (λ b. b.plan.actions ≡ []) }
{
    let begun = begun(draft)?;
    if !begun.plan.actions().is_empty() {
        return Err(LineError::Refused(Kind::Order));
    }
    Ok(begun)
}

impl Draft {
    /// The plan of the stream begun last, where it may still act.
    #[tactic(auto, unfolding(crate::specs::Adding::acting))]
    pub(crate) fn acting(&self) -> Option<&Plan>
        ensures { MatchOption result (acting (shown self.now) ≡ Err Order)
            (λ plan. acting (shown self.now) ≡ Ok plan.now) }
    {
        let Some(plan) = &self.last else {
            return None;
        };
        if plan.is_closed() {
            return None;
        }
        Some(plan)
    }

    /// Adds an action, which is neither a put nor a flush.
    #[tactic(auto, unfolding(crate::specs::Adding::with_actions, crate::specs::Adding::acting, crate::specs::Adding::added))]
    pub(crate) fn act(&mut self, action: Action) -> Result<(), LineError>
        requires within { (places : ℕ) → IsWithin places action }
        requires unfenced { fences_in (Some action) ≡ [] }
        requires other { is_flush action ≡ false }
        ensures { Becomes self.new result (with_actions (action ∷ []) (shown self.old)) }
    {
        let Some(plan) = &mut self.last else {
            return Err(LineError::Refused(Kind::Order));
        };
        if plan.is_closed() {
            return Err(LineError::Refused(Kind::Order));
        }
        if self.actions >= MOST_ACTIONS {
            return Err(LineError::Refused(Kind::Limit));
        }
        plan.add_action(action)?;
        self.actions += 1;
        Ok(())
    }

    /// Adds a flush.
    #[tactic(auto, unfolding(crate::specs::Adding::flushed, crate::specs::Adding::acting, crate::specs::Adding::added))]
    pub(crate) fn flush(&mut self, put: u32, fences: Vec<(u32, u64)>) -> Result<(), LineError>
        ensures { Becomes self.new result (flushed put fences.items (shown self.old)) }
    {
        let Some(plan) = &mut self.last else {
            return Err(LineError::Refused(Kind::Order));
        };
        if plan.is_closed() {
            return Err(LineError::Refused(Kind::Order));
        }
        let many = fences.len() > MOST_FENCES;
        if many || self.flushes >= MOST_FLUSHES || self.actions >= MOST_ACTIONS {
            return Err(LineError::Refused(Kind::Limit));
        }
        plan.add_flush(put, fences)?;
        self.actions += 1;
        self.flushes += 1;
        Ok(())
    }

    /// Adds a Finish, after which a word of a result memory is read.
    #[tactic(auto, unfolding(crate::specs::Adding::dumped, crate::specs::Adding::acting, crate::specs::Adding::added))]
    pub(crate) fn dump(&mut self, memory: u32, index: u32) -> Result<(), LineError>
        ensures { Becomes self.new result (dumped memory index (shown self.old)) }
    {
        let Some(plan) = &mut self.last else {
            return Err(LineError::Refused(Kind::Order));
        };
        if plan.is_closed() {
            return Err(LineError::Refused(Kind::Order));
        }
        let Some(span) = span_at(&plan.areas().results, memory) else {
            return Err(LineError::Refused(Kind::Place));
        };
        if index >= span.words {
            return Err(LineError::Refused(Kind::Place));
        }
        if self.actions >= MOST_ACTIONS {
            return Err(LineError::Refused(Kind::Limit));
        }
        plan.add_dump(span.base + index)?;
        self.actions += 1;
        Ok(())
    }

    /// Puts the words that are left of a line into the ring or a transfer memory, from a place of it on, where all of that
    /// may be: a draft of which this is false is as it was.
    #[tactic(auto, unfolding(crate::specs::Adding::put_into, crate::specs::Adding::acting, crate::specs::Adding::added))]
    pub(crate) fn put(
        &mut self,
        memory: Option<u32>,
        place: u32,
        values: Values<'_>,
    ) -> Result<bool, AllocError>
        ensures put { IfOk result (WerePut memory place values.entry self.old self.new) }
        ensures refused { IfOk result (WereRefused memory place values.entry self.old) }
        ensures same { IfOk result (λ done. done ≡ false → shown self.new ≡ shown self.old) }
    {
        let Some(plan) = &mut self.last else {
            return Ok(false);
        };
        if plan.is_closed() {
            return Ok(false);
        }
        let Some(span) = area_of(plan.areas(), memory) else {
            return Ok(false);
        };
        if place > span.words {
            return Ok(false);
        }
        let room = room_left(span.words - place, self.actions);
        let first = span.base + place;
        let Some(count) = plan.add_puts(first, first + room, values)? else {
            return Ok(false);
        };
        self.actions += count;
        Ok(true)
    }

    /// Why `count` values are not put into the ring or a transfer memory, from a place of it on.
    #[tactic(auto, unfolding(crate::specs::Adding::put_into, crate::specs::Adding::added))]
    pub(crate) fn put_fault(&self, memory: Option<u32>, place: u32, count: usize) -> Kind
        requires { count ≤ 2 ^ 63 }
        ensures { TellsWhy memory place count self.now result }
    {
        let Some(plan) = self.acting() else {
            return Kind::Order;
        };
        let Some(span) = area_of(plan.areas(), memory) else {
            return Kind::Place;
        };
        if place as usize + count > span.words as usize {
            return Kind::Place;
        }
        Kind::Limit
    }
}

// How many puts may be added after `actions` actions, where there is room for `room` of them.
fn room_left(room: u32, actions: usize) -> u32
    requires { actions ≤ MOST_ACTIONS }
    ensures area { result ≤ room }
    ensures script { actions + result ≤ MOST_ACTIONS }
    ensures most { result < room → actions + result ≡ MOST_ACTIONS }
{
    let left = (MOST_ACTIONS - actions) as u32;
    if room < left { room } else { left }
}

// The ring, or a transfer memory, as a span of places.
fn area_of(areas: &Areas, memory: Option<u32>) -> Option<Span>
    requires { IsLawfulAreas areas.now }
    ensures area { result ≡ area_of areas.now memory }
    ensures within { IfSome result (λ span. span.base + span.words ≤ places_of areas.now) }
{
    match memory {
        Some(memory) => span_at(&areas.memories, memory),
        None => Some(Span {
            base: 0,
            words: areas.ring,
        }),
    }
}
