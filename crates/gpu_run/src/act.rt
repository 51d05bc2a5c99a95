//! The first phase of a round: each client goes as far as it can.
ghost use Rattle.std.specs.Prelude.{◌≡◌, ◌-◌, ◌≤◌, length, true, IfOk, OnOk};
ghost use Rattle.sync_core.specs.Standing.{IsKnown};
ghost use Rattle.gpu_journal.specs.Serial.{stays};
ghost use Rattle.gpu_run.specs.Clients.{done_at};
ghost use Rattle.gpu_run.specs.Reading.{HaveRead};
ghost use Rattle.gpu_run.specs.Served.{IsServed};
ghost use Rattle.gpu_run.specs.Stands.{Acting, Stands, HasActed};

use crate::client::Client;
use gpu_fetch::PlainPass;
use gpu_house::{House, Naming, OrderRefused};
use gpu_word::Memory;
use sync_core::OrderFault;
use wait_hooks::Hook;

/// What a client did.
#[derive(Clone, Copy, Drop)]
pub(crate) enum Act {
    /// Nothing: it can do no action more.
    Stays,
    /// An action that is no flush.
    Passed,
    /// A flush, which was ordered.
    Ordered,
}

/// The client of a stream does its next action, if that passes. A dump of the action is read, and a flush is ordered.
///
/// # Errors
///
/// `Memory`: nothing is known of the house and the clients.
fn act_once<N: Naming, H: Hook>(
    house: &mut House<N, PlainPass, H>,
    clients: &mut [Client],
    stream: u32,
) -> Result<Act, Memory>
    requires known { IsKnown (length N.plans.plans) stream }
    requires stands { Stands (Acting (stream - 1)) N.plans house.old clients.old }
    requires open { stays N.plans house.old.core.past stream ≡ true }
    ensures served { OnOk result (IsServed N.plans house.new clients.new) }
    ensures read { OnOk result (HaveRead N.plans house.new.core.past clients.new) }
    ensures acts { IfOk result
        (λ act. HasActed N.plans act house.old house.new clients.old clients.new stream) }
{
    let finishes = house.finishes(stream);
    let token = house.greatest(stream);
    let plan = house.plans().plan(stream);
    let client = &mut clients[stream as usize - 1];
    if !client.passes(plan, finishes, token) {
        return Ok(Act::Stays);
    }
    client.read(plan, house.stream(stream))?;
    match client.act(plan, finishes, token) {
        None => Ok(Act::Passed),
        Some(note) => match house.order(stream, note) {
            Ok(_) => Ok(Act::Ordered),
            Err(
                OrderRefused {
                    why: OrderFault::Memory(memory),
                    note: _,
                },
            ) => Err(memory),
            Err(_) => unreachable!(),
        },
    }
}

/// The client of a stream does all puts that come next. Each of them passes, so nothing is asked of the house.
fn put_all<N: Naming, H: Hook>(house: &House<N, PlainPass, H>, clients: &mut [Client], stream: u32)
    requires known { IsKnown (length N.plans.plans) stream }
    requires stands { Stands (Acting (stream - 1)) N.plans house.now clients.old }
    ensures stands { Stands (Acting (stream - 1)) N.plans house.now clients.new }
    ensures further { done_at clients.old stream ≤ done_at clients.new stream }
{
    clients[stream as usize - 1].put_all(house.plans().plan(stream));
}

/// The client of a stream goes as far as it can.
///
/// # Errors
///
/// `Memory`: nothing is known of the house and the clients.
fn act_on<N: Naming, H: Hook>(
    house: &mut House<N, PlainPass, H>,
    clients: &mut [Client],
    stream: u32,
) -> Result<(), Memory>
    requires known { IsKnown (length N.plans.plans) stream }
    requires stands { Stands (Acting (stream - 1)) N.plans house.old clients.old }
    ensures stands { OnOk result (Stands (Acting stream) N.plans house.new clients.new) }
    ensures longer { OnOk result (length house.old.core.past ≤ length house.new.core.past) }
{
    if !house.is_open(stream) {
        return Ok(());
    }
    loop {
        put_all(house, clients, stream);
        match act_once(house, clients, stream)? {
            Act::Stays => return Ok(()),
            _ => {}
        }
    }
}

/// Each client, in rising order of streams, goes as far as it can.
///
/// # Errors
///
/// `Memory`: nothing is known of the house and the clients.
pub(crate) fn act_all<N: Naming, H: Hook>(
    house: &mut House<N, PlainPass, H>,
    clients: &mut [Client],
) -> Result<(), Memory>
    requires stands { Stands (Acting 0) N.plans house.old clients.old }
    ensures stands { OnOk result
        (Stands (Acting (length N.plans.plans)) N.plans house.new clients.new) }
    ensures longer { OnOk result (length house.old.core.past ≤ length house.new.core.past) }
{
    for stream in 1..=house.plans().count() {
        act_on(house, clients, stream)?;
    }
    Ok(())
}
