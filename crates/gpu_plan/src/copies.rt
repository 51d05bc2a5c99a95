ghost use Rattle.std.specs.Prelude.{◌≡◌, slice_get, Some, IfOk};
ghost use Rattle.gpu_plan.specs.Fencing.{fences_in};

use crate::fenced::{Fenced, noted_at};
use crate::fences::Fences;
use crate::place::Place;
use crate::plan::{Action, Plan};
use std::alloc::{AllocError, Global};

impl Fenced {
    // The same note.
    fn try_clone(&self, alloc: Global) -> Result<Fenced, AllocError>
        ensures { IfOk result (λ noted. noted ≡ self.now) }
    {
        Ok(Fenced {
            place: self.place,
            pairs: self.pairs.to_vec(alloc)?,
        })
    }
}

// The same notes.
fn clone_fenced(alloc: Global, fenced: &[Fenced]) -> Result<Vec<Fenced>, AllocError>
    ensures { IfOk result (λ copies. copies.items ≡ fenced.now) }
{
    let mut copies = Vec::with_capacity(alloc, fenced.len())?;
    for noted in fenced {
        copies.push(noted.try_clone(alloc)?)?;
    }
    Ok(copies)
}

impl Plan {
    // The fences of the flush at a place.
    #[tactic(auto, using(crate::proofs::Fencing::rise_here, crate::proofs::Fencing::noted_here))]
    fn fences(&self, alloc: Global, place: u32) -> Fences
        ensures { result ≡ fences_in (slice_get self.now.actions place) }
    {
        match noted_at(&self.fenced, place) {
            Some(noted) => Fences::of(&noted.pairs),
            None => Fences::of(&Vec::new(alloc)),
        }
    }

    // The action at a place.
    fn clone_action(&self, alloc: Global, place: u32, action: &Action) -> Action
        requires { slice_get self.now.actions place ≡ Some action.now }
        ensures { result ≡ action.now }
    {
        match action {
            Action::Put { place, value } => Action::Put {
                place: Place::of(place.get()),
                value: *value,
            },
            Action::Flush { put, fences: _ } => Action::Flush {
                put: *put,
                fences: self.fences(alloc, place),
            },
            Action::Finish => Action::Finish,
            Action::Token { token } => Action::Token { token: *token },
            Action::Close => Action::Close,
        }
    }

    // The same actions.
    fn clone_actions(&self, alloc: Global) -> Result<Vec<Action>, AllocError>
        ensures { IfOk result (λ actions. actions.items ≡ self.now.actions) }
    {
        let mut actions = Vec::with_capacity(alloc, self.actions.len())?;
        for (place, action) in self.actions.iter().enumerate() {
            actions.push(self.clone_action(alloc, place as u32, action))?;
        }
        Ok(actions)
    }

    /// A plan of its own that is the same.
    pub fn try_clone(&self, alloc: Global) -> Result<Plan, AllocError>
        ensures { IfOk result (λ plan. plan ≡ self.now) }
    {
        Ok(Plan {
            name: self.name,
            areas: Box::new(alloc, *self.areas)?,
            priority: self.priority,
            actions: self.clone_actions(alloc)?,
            fenced: clone_fenced(alloc, &self.fenced)?,
            dumps: self.dumps.to_vec(alloc)?,
        })
    }
}
