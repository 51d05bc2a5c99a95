ghost use Rattle.std.specs.Prelude.{◌≡◌, ◌≤◌, ◌<◌, [], ◌∷◌, length, slice_index, IfOk, OnOk};
ghost use Rattle.std.specs.List.{All};
ghost use Rattle.gpu_plan.specs.declared.plan.Action.{Action};
ghost use Rattle.gpu_plan.specs.Plans.{IsWithin};
ghost use Rattle.gpu_plan.specs.Passes.{bound};
ghost use Rattle.gpu_plan.specs.declared.acting.TheConstants.{MOST_ACTIONS};
ghost use Rattle.journal_verify.specs.Reached.{has_since, is_last_since, is_since, last_of, IsPutKept, IsTakenUp, IsReached};

use gpu_plan::Action;
use std::alloc::{AllocError, Global};
use std::collections::BTreeMap;
use std::marker::Model;

/// How far a client can be:
/// - how many of its actions it can have done, and how many of these are flushes
/// - the last put at each place, by its value and the position after it, which is 0 where there is none
/// - the last puts of other values; one that is overwritten is kept only where it stands after the least that the client
///   can have done, so a client that waits before it uses its ring again has few of these
#[derive(Drop)]
pub(crate) struct Reach {
    upto: u32,
    behind: u32,
    values: Vec<u32>,
    ends: Vec<u32>,
    older: BTreeMap<(u32, u32), u32>,
}

impl Model for Reach {
    ghost use Rattle.journal_verify.specs.Reached.{Reached};

    ghost Value = { Reached };

    ghost view = { λ reach. record {
      upto = reach.upto;
      behind = reach.behind;
      values = reach.values.items;
      ends = reach.ends.items;
      older = reach.older.entries;
    } };
}

/// The number that stands at a place, which is 0 where there is no such place.
pub(crate) fn number_at(numbers: &[u32], place: u32) -> u32
    ensures { result ≡ slice_index numbers.now place }
{
    match numbers.get(place as usize) {
        Some(number) => *number,
        None => 0,
    }
}

impl Reach {
    /// Before the first action of a client with this number of words.
    pub(crate) fn make(alloc: Global, actions: &[Action], places: u32) -> Result<Reach, AllocError>
        requires within { All (IsWithin places) actions.now }
        ensures upto { IfOk result (λ reached. reached.upto ≡ 0) }
        ensures reached { IfOk result (λ reached. IsReached actions.now 0 reached) }
    {
        let values = vec![in alloc; 0; places as usize]?;
        let ends = vec![in alloc; 0; places as usize]?;
        Ok(Reach {
            upto: 0,
            behind: 0,
            values,
            ends,
            older: BTreeMap::new(alloc),
        })
    }

    /// How many actions the client can have done.
    pub(crate) fn upto(&self) -> u32
        ensures { result ≡ self.now.upto }
    {
        self.upto
    }

    // Keeps the last put at a place beside that, if the client can have done it after this number of actions.
    fn keep(&mut self, done: u32, place: u32) -> Result<(), AllocError>
        requires there { place < length self.old.ends }
        requires valued { place < length self.old.values }
        ensures { OnOk result (IsPutKept done place self.old self.new) }
    {
        let end = self.ends[place as usize];
        if end > done {
            let value = self.values[place as usize];
            self.older.insert((place, value), end - 1)?;
        }
        Ok(())
    }

    // Takes up a put.
    fn take_up_put(&mut self, done: u32, place: u32, value: u32) -> Result<(), AllocError>
        requires few { self.old.upto < MOST_ACTIONS }
        requires there { place < length self.old.ends }
        requires valued { place < length self.old.values }
        ensures { OnOk result (IsTakenUp done (Action.Put place value) self.old self.new) }
    {
        self.keep(done, place)?;
        self.upto += 1;
        self.values[place as usize] = value;
        self.ends[place as usize] = self.upto;
        Ok(())
    }

    // Takes up one more action.
    fn take_up(&mut self, done: u32, action: &Action) -> Result<(), AllocError>
        requires few { self.old.upto < MOST_ACTIONS }
        requires fewer { self.old.behind ≤ self.old.upto }
        requires there { IsWithin (length self.old.ends) action.now }
        requires valued { IsWithin (length self.old.values) action.now }
        ensures { OnOk result (IsTakenUp done action.now self.old self.new) }
    {
        match action {
            Action::Put { place, value } => self.take_up_put(done, place.get(), *value),
            Action::Flush { .. } => {
                self.behind += 1;
                self.upto += 1;
                Ok(())
            }
            Action::Finish | Action::Token { .. } | Action::Close => {
                self.upto += 1;
                Ok(())
            }
        }
    }

    /// Goes on to the first action that does not pass at this number of finished flushes and this greatest token. The
    /// client has done at least `done` actions.
    pub(crate) fn advance(
        &mut self,
        actions: &[Action],
        done: u32,
        finished: u32,
        token: u32,
    ) -> Result<(), AllocError>
        requires few { length actions.now ≤ MOST_ACTIONS }
        requires below { self.old.upto ≤ bound actions.now finished (token ∷ []) }
        requires reached { IsReached actions.now done self.old }
        ensures upto { OnOk result (self.new.upto ≡ bound actions.now finished (token ∷ [])) }
        ensures reached { OnOk result (IsReached actions.now done self.new) }
    {
        while (self.upto as usize) < actions.len() {
            let action = &actions[self.upto as usize];
            if !action.passes(self.behind, finished, token) {
                return Ok(());
            }
            self.take_up(done, action)?;
        }
        Ok(())
    }

    // Whether a value that was overwritten is put at a place from a position on.
    fn was_put(&self, from: u32, place: u32, value: u32) -> bool
        ensures { result ≡ is_since from (last_of self.now.older place value) }
    {
        match self.older.get(&(place, value)) {
            Some(at) => from <= *at,
            None => false,
        }
    }

    // Whether the last put at a place is one of a value, and stands at a position or after it.
    fn is_put_last(&self, from: u32, place: u32, value: u32) -> bool
        ensures { result ≡ is_last_since from self.now place value }
    {
        number_at(&self.values, place) == value && from < number_at(&self.ends, place)
    }

    /// Whether the client puts a value at a place from a position on, within what it can have done.
    pub(crate) fn has_put(&self, from: u32, place: u32, value: u32) -> bool
        ensures { result ≡ has_since from self.now place value }
    {
        self.is_put_last(from, place, value) || self.was_put(from, place, value)
    }
}
