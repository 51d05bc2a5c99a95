//! Turns of a client.
ghost use Rattle.std.specs.Prelude.{◌≡◌, length, true};
ghost use Rattle.gpu_plan.specs.Plans.{plan_of, is_closed};
ghost use Rattle.sync_core.specs.Standing.{IsKnown};
ghost use Rattle.thread_parts.specs.Clients.{IsSameClient};
ghost use Rattle.gpu_hall.specs.Words.{AreWordsAt};
ghost use Rattle.gpu_threads.specs.Clients.{IsClientOf};
ghost use Rattle.gpu_threads.specs.Turns.{Turns, TurnsSo};

use crate::ground::Ground;
use crate::rows::queue_of;
use gpu_house::{Closing, Doing, Naming};
use gpu_io::Gate;
use result_words::ResultWords;
use shm_words::SharedWords;
use std::sync::{MutexGuard, Wait};
use thread_parts::{Act, Client};
use wait_hooks::Hook;

/// What a turn of a client came to.
#[derive(Drop)]
pub enum ClientTurn {
    /// It did an action, posted its held flush, or read the dump that was due.
    Went(Client),
    /// It has to wait: its await does not pass, its queue did not take its note, too few finishes are counted for its dump, or its
    /// stream may not close yet.
    Waiting(Client),
    /// It has come to its end: no action is left, or its stream is lost or closed. That the stream is so where an action is left,
    /// tests alone show.
    Ended(Client),
}

/// Whether a client that could not go on has come to its end: its stream is lost or closed. That it says so of no other stream, tests
/// alone show.
pub(crate) fn is_ended<N: Naming, H: Hook, R: Wait, G: Gate>(
    rt: &R,
    ground: &Ground<'_, N, H, G>,
    stream: u32,
) -> bool
    requires { IsKnown (length N.plans.plans) stream }
{
    let hall = ground.hall.lock(rt);
    let doing = hall.state(stream);
    MutexGuard::unlock(hall);
    matches!(doing, Doing::Lost | Doing::Closed)
}

// Closes a stream whose client stands at its Close, once all its flushes are collected. False where it is too early. That it is false
// nowhere else, tests alone show.
fn close<N: Naming, H: Hook, R: Wait, G: Gate>(
    rt: &R,
    ground: &Ground<'_, N, H, G>,
    stream: u32,
) -> bool
    requires known { IsKnown (length N.plans.plans) stream }
    requires closes { is_closed (plan_of N.plans stream).actions ≡ true }
{
    let mut hall = ground.hall.lock(rt);
    hall.collect(rt, ground.queues);
    let closing = hall.close(stream);
    MutexGuard::unlock(hall);
    closing != Closing::Early
}

/// One action of a client that stays where it is. At its Close, where the flushes of all queues are ordered and the stream is closed, it
/// comes to its end.
pub(crate) fn turn<N: Naming, H: Hook, R: Wait, G: Gate>(
    rt: &R,
    ground: &Ground<'_, N, H, G>,
    own: &(SharedWords, ResultWords),
    client: &mut Client,
) -> Act
    requires client { IsClientOf N.plans N.words N.result_words N.queues client.old }
    requires own { AreWordsAt N.words N.result_words client.old.stream own.now }
    ensures same { IsSameClient client.old client.new }
    ensures acts { TurnsSo client.old client.new result }
{
    let stream = client.stream();
    let act = client.act(rt, own, queue_of(ground.queues, stream), ground.gate);
    match act {
        Act::AtClose => {
            if close(rt, ground, stream) {
                return Act::End;
            }
            Act::AtClose
        }
        Act::Went | Act::Full | Act::NotYet | Act::Unread | Act::End => act,
    }
}

/// One action of a client, the post of the flush that it holds, or the read of the dump that is due:
/// - a note for which the queue has no room is held, and posted first in the next turn
/// - a dump that could not be read stays due, and no action comes before it
/// - where the client cannot go on, the lock is taken to ask what its stream is doing
/// - at its Close the lock is taken to order the flushes of all queues and to close the stream
pub fn client_turn<N: Naming, H: Hook, R: Wait, G: Gate>(
    rt: &R,
    ground: &Ground<'_, N, H, G>,
    own: &(SharedWords, ResultWords),
    client: Client,
) -> ClientTurn
    requires client { IsClientOf N.plans N.words N.result_words N.queues client }
    requires own { AreWordsAt N.words N.result_words client.stream own.now }
    ensures { Turns client result }
{
    let mut client = client;
    let stream = client.stream();
    match turn(rt, ground, own, &mut client) {
        Act::Went => ClientTurn::Went(client),
        Act::End => ClientTurn::Ended(client),
        Act::Full | Act::NotYet | Act::Unread | Act::AtClose => {
            if is_ended(rt, ground, stream) {
                return ClientTurn::Ended(client);
            }
            ClientTurn::Waiting(client)
        }
    }
}
