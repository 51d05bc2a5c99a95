ghost use Rattle.std.specs.Prelude.{◌≡◌, ◌+◌, ◌≤◌, ◌<◌, List, length, slice_index, IfOk};
ghost use Rattle.std.specs.List.{All};
ghost use Rattle.gpu_plan.specs.declared.plan.Action.{Action};
ghost use Rattle.gpu_plan.specs.Plans.{IsWithin};
ghost use Rattle.gpu_plan.specs.declared.acting.TheConstants.{MOST_ACTIONS};
ghost use Rattle.journal_verify.specs.Held.{stored, IsHeld};

use gpu_plan::Action;
use std::alloc::{AllocError, Global};
use std::marker::Model;

/// How many actions a client has done at least, and the values of its words then.
#[derive(Drop)]
pub(crate) struct Held {
    done: u32,
    values: Vec<u32>,
}

impl Model for Held {
    ghost use Rattle.journal_verify.specs.Held.{Held};

    ghost Value = { Held };

    ghost view = { λ held. record { done = held.done; values = held.values.items } };
}

impl Held {
    /// So many words before the first action.
    pub(crate) fn make(alloc: Global, places: u32) -> Result<Held, AllocError>
        ensures done { IfOk result (λ held. held.done ≡ 0) }
        ensures places { IfOk result (λ held. length held.values ≡ places) }
        ensures held { IfOk result (λ held. (actions : List Action) → IsHeld actions held) }
    {
        let values = vec![in alloc; 0; places as usize]?;
        Ok(Held { done: 0, values })
    }

    /// How many actions are done.
    pub(crate) fn done(&self) -> u32
        ensures { result ≡ self.now.done }
    {
        self.done
    }

    // Does one more action.
    fn do_next(&mut self, action: &Action)
        requires few { self.old.done < MOST_ACTIONS }
        requires within { IsWithin (length self.old.values) action.now }
        ensures done { self.new.done ≡ self.old.done + 1 }
        ensures values { self.new.values ≡ stored action.now self.old.values }
    {
        match action {
            Action::Put { place, value } => {
                self.values[place.get() as usize] = *value;
                self.done += 1;
            }
            Action::Flush { .. } | Action::Finish | Action::Token { .. } | Action::Close => {
                self.done += 1;
            }
        }
    }

    /// Does the actions before a position.
    pub(crate) fn advance(&mut self, actions: &[Action], to: u32)
        requires few { length actions.now ≤ MOST_ACTIONS }
        requires further { self.old.done ≤ to }
        requires there { to ≤ length actions.now }
        requires within { All (IsWithin (length self.old.values)) actions.now }
        requires held { IsHeld actions.now self.old }
        ensures done { self.new.done ≡ to }
        ensures places { length self.new.values ≡ length self.old.values }
        ensures held { IsHeld actions.now self.new }
    {
        while self.done < to {
            self.do_next(&actions[self.done as usize]);
        }
    }

    /// The value of a place, which is 0 where there is no such place.
    pub(crate) fn value(&self, place: u32) -> u32
        ensures { result ≡ slice_index self.now.values place }
    {
        match self.values.get(place as usize) {
            Some(value) => *value,
            None => 0,
        }
    }
}
