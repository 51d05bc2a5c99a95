//! The second phase of a round: streams whose clients stand at their Close are closed.
ghost use Rattle.std.specs.Prelude.{◌≡◌, ◌-◌, ◌≤◌, length, slice_get};
ghost use Rattle.sync_core.specs.Standing.{IsKnown};
ghost use Rattle.gpu_journal.specs.Serial.{is_close};
ghost use Rattle.gpu_run.specs.Stands.{Acting, Closing, Running, Stands};

use crate::client::Client;
use gpu_fetch::PlainPass;
use gpu_house::{House, Naming};
use gpu_plan::Action;
use wait_hooks::Hook;

// Whether the action at a position is a Close.
fn closes_at(actions: &[Action], position: u32) -> bool
    ensures { result ≡ is_close (slice_get actions.now position) }
{
    match actions.get(position as usize) {
        Some(Action::Close) => true,
        _ => false,
    }
}

/// Closes a stream where its client stands at its Close.
fn close_one<N: Naming, H: Hook>(
    house: &mut House<N, PlainPass, H>,
    clients: &[Client],
    stream: u32,
)
    requires known { IsKnown (length N.plans.plans) stream }
    requires stands { Stands (Closing (stream - 1)) N.plans house.old clients.now }
    ensures stands { Stands (Closing stream) N.plans house.new clients.now }
    ensures longer { length house.old.core.past ≤ length house.new.core.past }
{
    if !house.is_open(stream) {
        return;
    }
    let position = clients[stream as usize - 1].position();
    if !closes_at(house.plans().plan(stream).actions(), position) {
        return;
    }
    let _ = house.close(stream);
}

/// Closes each stream whose client stands at its Close, in rising order.
pub(crate) fn close_all<N: Naming, H: Hook>(house: &mut House<N, PlainPass, H>, clients: &[Client])
    requires stands { Stands (Acting (length N.plans.plans)) N.plans house.old clients.now }
    ensures stands { Stands Running N.plans house.new clients.now }
    ensures longer { length house.old.core.past ≤ length house.new.core.past }
{
    for stream in 1..=house.plans().count() {
        close_one(house, clients, stream);
    }
}
