ghost use Rattle.std.specs.Prelude.{◌≡◌, ◌≤◌, List, [], ◌∷◌, length, IfOk, OnOk};
ghost use Rattle.std.specs.List.{All};
ghost use Rattle.std.specs.Bool.{Decides};
ghost use Rattle.gpu_plan.specs.declared.plan.Action.{Action};
ghost use Rattle.gpu_plan.specs.Plans.{IsWithin};
ghost use Rattle.gpu_plan.specs.Passes.{bound};
ghost use Rattle.gpu_plan.specs.MayHold.{MayHold};
ghost use Rattle.gpu_plan.specs.declared.acting.TheConstants.{MOST_ACTIONS};
ghost use Rattle.journal_verify.specs.Client.{may_have, IsClientOfActions};

use crate::held::Held;
use crate::reach::Reach;
use gpu_plan::Action;
use gpu_word::Memory;
use std::alloc::Global;
use std::marker::Model;

/// What a client can have done: at least some of its actions, and at most those before the first that does not pass.
/// Both go up only, so each action is looked at twice.
#[derive(Drop)]
pub struct Client {
    held: Held,
    reach: Reach,
}

impl Model for Client {
    ghost use Rattle.journal_verify.specs.Client.{Client};

    ghost Value = { Client };

    ghost view = { λ client. record { held = client.held; reached = client.reach } };
}

impl Client {
    /// A client with a given number of words that has done nothing. Each of its puts is at one of these.
    pub fn make(alloc: Global, actions: &[Action], places: u32) -> Result<Client, Memory>
        requires within { All (IsWithin places) actions.now }
        ensures least { IfOk result (λ client. client.held.done ≡ 0) }
        ensures most { IfOk result (λ client. client.reached.upto ≡ 0) }
        ensures client { IfOk result (λ client. IsClientOfActions actions.now client) }
    {
        let held = Held::make(alloc, places)?;
        let reach = Reach::make(alloc, actions, places)?;
        Ok(Client { held, reach })
    }

    /// The most actions that it can have done.
    pub fn most(&self) -> u32
        ensures { result ≡ self.now.reached.upto }
    {
        self.reach.upto()
    }

    /// It can have done all before the first action that does not pass at this number of finished flushes and this
    /// greatest token.
    pub fn go_on(&mut self, actions: &[Action], finished: u32, token: u32) -> Result<(), Memory>
        requires few { length actions.now ≤ MOST_ACTIONS }
        requires below { self.old.reached.upto ≤ bound actions.now finished (token ∷ []) }
        requires client { IsClientOfActions actions.now self.old }
        ensures most { OnOk result
            (self.new.reached.upto ≡ bound actions.now finished (token ∷ [])) }
        ensures least { OnOk result (self.new.held.done ≡ self.old.held.done) }
        ensures client { OnOk result (IsClientOfActions actions.now self.new) }
    {
        self.reach
            .advance(actions, self.held.done(), finished, token)?;
        Ok(())
    }

    /// It has done all actions before a position at least.
    pub fn has_done(&mut self, actions: &[Action], to: u32)
        requires few { length actions.now ≤ MOST_ACTIONS }
        requires further { self.old.held.done ≤ to }
        requires there { to ≤ length actions.now }
        requires client { IsClientOfActions actions.now self.old }
        ensures least { self.new.held.done ≡ to }
        ensures most { self.new.reached.upto ≡ self.old.reached.upto }
        ensures client { IsClientOfActions actions.now self.new }
    {
        self.held.advance(actions, to);
    }

    // Whether a place has a value after the least, or the value is put there later.
    fn has(&self, place: u32, value: u32) -> bool
        ensures { result ≡ may_have self.now (place, value) }
    {
        self.held.value(place) == value || self.reach.has_put(self.held.done(), place, value)
    }

    /// Whether a place may have a value: whether it has it after some number of actions, from the least to the most that
    /// the client can have done.
    pub fn may_hold(&self, place: u32, value: u32) -> bool
        ensures value { result ≡ may_have self.now (place, value) }
        ensures decides { (actions : List Action) → IsClientOfActions actions self.now
            → self.now.held.done ≤ self.now.reached.upto
            → Decides result
            (MayHold actions self.now.held.done self.now.reached.upto place value) }
    {
        self.has(place, value)
    }
}
