ghost use Rattle.std.specs.Prelude.{◌≡◌, ◌+◌, ◌<◌, ◌≤◌, ◌^◌, ℕ, [], ◌∷◌, Some, max, false, true, slice_get, slice_index, IfOk, OnOk};
ghost use Rattle.std.specs.List.{list_all};
ghost use Rattle.gpu_plan.specs.Places.{flush_places};
ghost use Rattle.journal_verify.specs.Client.{may_have, IsClientOfActions};
ghost use Rattle.gpu_plan.specs.Passes.{bound};
ghost use Rattle.journal_verify.specs.Kept.{IsWatch};
ghost use Rattle.journal_verify.specs.Faults.{next_flush, may_close, has_done_all, is_settled};
ghost use Rattle.journal_verify.specs.Entered.{counts_of};

use crate::client::Client;
use gpu_plan::{Action, Plan, flush_places};
use gpu_word::Memory;
use std::alloc::Global;
use std::marker::Model;

/// The record of a stream: its counts of ordered and finished flushes, its greatest token, whether it is neither lost
/// nor closed, what its client can have done, and the places of its flushes.
#[derive(Drop)]
pub(crate) struct Watch {
    ordered: u32,
    finished: u32,
    token: u32,
    stays: bool,
    client: Client,
    flushes: Vec<u32>,
}

impl Model for Watch {
    ghost use Rattle.journal_verify.specs.Kept.{WatchData};

    ghost Value = { WatchData };

    ghost view = { λ w. record {
      ordered = w.ordered;
      finished = w.finished;
      token = w.token;
      stays = w.stays;
      client = w.client;
      flushes = w.flushes.items;
    } };
}

// The place of a flush, counted from 0.
fn place_at(flushes: &[u32], count: u32) -> Option<u32>
    ensures { result ≡ slice_get flushes.now count }
{
    flushes.get(count as usize).copied()
}

// A client goes on at this number of finished flushes and this greatest token: it has done all before the first
// flush that is not finished.
fn go_on(
    client: &mut Client,
    plan: &Plan,
    flushes: &[u32],
    finished: u32,
    token: u32,
) -> Result<(), Memory>
    requires flushes { flushes.now ≡ flush_places plan.now.actions }
    requires client { IsClientOfActions plan.now.actions client.old }
    requires below { client.old.reached.upto ≤ bound plan.now.actions finished (token ∷ []) }
    requires before { (place : ℕ) → slice_get flushes.now finished ≡ Some place
        → client.old.held.done ≤ place }
    ensures client { OnOk result (IsClientOfActions plan.now.actions client.new) }
    ensures most { OnOk result
        (client.new.reached.upto ≡ bound plan.now.actions finished (token ∷ [])) }
    ensures least { OnOk result ((place : ℕ) → slice_get flushes.now finished ≡ Some place
        → client.new.held.done ≡ place) }
{
    let actions = plan.actions();
    client.go_on(actions, finished, token)?;
    let Some(place) = place_at(flushes, finished) else {
        return Ok(());
    };
    client.has_done(actions, place);
    Ok(())
}

impl Watch {
    /// Before any event.
    pub(crate) fn make(alloc: Global, plan: &Plan) -> Result<Watch, Memory>
        ensures counts { IfOk result
            (λ watch. counts_of watch
            ≡ record { ordered = 0; finished = 0; token = 0; stays = true }) }
        ensures watch { IfOk result (λ watch. IsWatch plan.now watch) }
    {
        let actions = plan.actions();
        let flushes = flush_places(alloc, actions)?;
        let mut client = Client::make(alloc, actions, plan.areas().places())?;
        go_on(&mut client, plan, flushes.as_slice(), 0, 0)?;
        Ok(Watch {
            ordered: 0,
            finished: 0,
            token: 0,
            stays: true,
            client,
            flushes,
        })
    }

    /// Whether the stream is neither lost nor closed.
    pub(crate) fn stays(&self) -> bool
        ensures { result ≡ self.now.stays }
    {
        self.stays
    }

    /// How many flushes are finished.
    pub(crate) fn finished(&self) -> u32
        ensures { result ≡ self.now.finished }
    {
        self.finished
    }

    /// The place of the first flush without an order.
    pub(crate) fn next_flush(&self) -> Option<u32>
        ensures { result ≡ next_flush self.now }
    {
        place_at(&self.flushes, self.ordered)
    }

    /// The place of the first flush that is not finished, or 0 where all are.
    pub(crate) fn flush(&self) -> u32
        ensures { result ≡ slice_index self.now.flushes self.now.finished }
    {
        match self.flushes.get(self.finished as usize) {
            Some(place) => *place,
            None => 0,
        }
    }

    /// Whether each word is one that the client may have had.
    pub(crate) fn may_have(&self, words: &[(u32, u32)]) -> bool
        ensures { result ≡ list_all (may_have self.now.client) words.now }
    {
        for (place, value) in words {
            if !self.client.may_hold(*place, *value) {
                return false;
            }
        }
        true
    }

    /// Whether the stream stays, its flushes are ordered, and its client has come to its Close.
    pub(crate) fn may_close(&self, actions: &[Action]) -> bool
        ensures { result ≡ may_close actions.now self.now }
    {
        if !self.stays || self.ordered as usize != self.flushes.len() {
            return false;
        }
        match actions.get(self.client.most() as usize) {
            Some(Action::Close) => true,
            _ => false,
        }
    }

    /// Takes up an order.
    pub(crate) fn order(&mut self)
        requires { self.old.ordered + 1 < 2 ^ 32 }
        ensures { self.new ≡ record self.old { ordered = self.old.ordered + 1 } }
    {
        self.ordered += 1;
    }

    /// The stream is lost or closed.
    pub(crate) fn leave(&mut self)
        ensures { self.new ≡ record self.old { stays = false } }
    {
        self.stays = false;
    }

    /// Takes up a token.
    pub(crate) fn tell(&mut self, plan: &Plan, token: u32) -> Result<(), Memory>
        requires { IsWatch plan.now self.old }
        ensures counts { OnOk result (counts_of self.new
            ≡ record (counts_of self.old) { token = max token self.old.token }) }
        ensures watch { OnOk result (IsWatch plan.now self.new) }
    {
        self.token = token.max(self.token);
        self.client.go_on(plan.actions(), self.finished, self.token)
    }

    /// Takes up a finish.
    pub(crate) fn finish(&mut self, plan: &Plan) -> Result<(), Memory>
        requires room { self.old.finished + 1 < 2 ^ 32 }
        requires watch { IsWatch plan.now self.old }
        ensures counts { OnOk result (counts_of self.new
            ≡ record (counts_of self.old) { finished = self.old.finished + 1 }) }
        ensures watch { OnOk result (IsWatch plan.now self.new) }
    {
        self.finished += 1;
        go_on(
            &mut self.client,
            plan,
            self.flushes.as_slice(),
            self.finished,
            self.token,
        )
    }

    // Whether the client never closes, and each flush is ordered and finished.
    fn is_done(&self, plan: &Plan) -> bool
        ensures { result ≡ has_done_all plan.now self.now }
    {
        if self.ordered as usize != self.flushes.len()
            || self.finished as usize != self.flushes.len()
        {
            return false;
        }
        match plan.actions().last() {
            Some(Action::Close) => false,
            _ => true,
        }
    }

    /// Whether the stream is lost or closed, or done.
    pub(crate) fn is_settled(&self, plan: &Plan) -> bool
        ensures { result ≡ is_settled plan.now self.now }
    {
        !self.stays || self.is_done(plan)
    }
}
