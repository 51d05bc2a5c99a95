//! What the clients have read when the run is over.
ghost use Rattle.std.specs.Prelude.{◌≡◌, ◌++◌, length, IfOk, OnOk};
ghost use Rattle.sync_core.specs.Standing.{IsKnown};
ghost use Rattle.stream_state.specs.State.{result_of};
ghost use Rattle.gpu_run.specs.Dumps.{dumps_read, all_dumps};
ghost use Rattle.gpu_run.specs.Reading.{read_left, HasRead, HaveRead};

use crate::client::Client;
use gpu_fetch::PlainPass;
use gpu_house::{House, Naming};
use gpu_word::Memory;
use result_words::Dumps;
use std::alloc::Global;
use stream_state::StreamState;
use wait_hooks::Hook;

/// Reads the rest of a plan's dumps, as the results now are.
///
/// # Errors
///
/// `Memory`: some of them may have been read.
fn read_left(dumps: &mut Dumps, planned: &[(u32, u32)], state: &StreamState) -> Result<(), Memory>
    ensures { OnOk result (dumps.new
        ≡ dumps.old ++ read_left planned.now dumps.old (result_of state.now)) }
{
    while let Some(dump) = planned.get(dumps.as_slice().len()) {
        let (action, place) = *dump;
        dumps.push(action, place, state.result(place))?;
    }
    Ok(())
}

/// The dumps of the client of one stream: those that it has read, and of the others what it would read now. A lost stream
/// has none.
///
/// # Errors
///
/// `Memory`: there is none for a dump.
fn dumps_of<N: Naming, H: Hook>(
    house: &House<N, PlainPass, H>,
    stream: u32,
    client: Client,
) -> Result<Dumps, Memory>
    requires known { IsKnown (length N.plans.plans) stream }
    requires read { HasRead N.plans house.now.core.past stream client.words.done client.read }
    ensures { IfOk result (λ dumps. dumps ≡ dumps_read N.plans house.now.core.past stream) }
{
    let mut dumps = client.into_dumps();
    if house.is_lost(stream) {
        dumps.clear();
        return Ok(dumps);
    }
    let planned = house.plans().plan(stream).dumps();
    read_left(&mut dumps, planned, house.stream(stream))?;
    Ok(dumps)
}

/// The dumps of all clients, in the order of their streams.
///
/// # Errors
///
/// `Memory`: there is none for the list.
pub(crate) fn all_dumps<N: Naming, H: Hook>(
    alloc: Global,
    house: &House<N, PlainPass, H>,
    clients: Vec<Client>,
) -> Result<Vec<Dumps>, Memory>
    requires many { length clients.items ≡ length N.plans.plans }
    requires read { HaveRead N.plans house.now.core.past clients.items }
    ensures { IfOk result (λ all. all.items ≡ all_dumps N.plans house.now.core.past) }
{
    let count = house.plans().count();
    let mut all = Vec::with_capacity(alloc, count as usize)?;
    let mut stream = 0;
    for client in clients {
        stream += 1;
        all.push(dumps_of(house, stream, client)?)?;
    }
    Ok(all)
}
