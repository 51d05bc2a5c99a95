//! What each thread of a run does.
ghost use Rattle.std.specs.List.{All};
ghost use Rattle.thread_parts.specs.Clients.{IsSameClient};
ghost use Rattle.gpu_threads.specs.Clients.{AreSameClients};

use crate::workplace::Workplace;
use gpu_word::Memory;
use std::alloc::Global;
use std::sync::Wait;
use std::thread;
use std::thread::Threads;
use thread_parts::{Act, Client, Leave, OR_TOKEN, Pace, ROOM, Signals};

// A thread that waits serves where fewer threads do than are wanted, or where it has waited for long. Then it sleeps until its bell is
// rung, which it was where it got what it waits for.
fn wait<S: Workplace, R: Wait>(rt: &R, place: &S, pace: &mut Pace<'_>) -> Leave {
    let leave = if pace.may_serve() {
        place.serve(rt, pace.shift())
    } else {
        Leave::NothingRunnable
    };
    pace.sleep(rt);
    pace.listen();
    leave
}

// What a client needs that could not go on: room in its queue, its flushes finished, or these or a token.
fn needs_of(client: &Client, act: Act) -> u64 {
    let finishes = u64::from(client.flushed());
    match act {
        Act::Full => ROOM,
        Act::NotYet if client.awaits_token() => finishes | OR_TOKEN,
        Act::Went | Act::NotYet | Act::Unread | Act::AtClose | Act::End => finishes,
    }
}

/// The client of a stream has turns until it has come to its end:
/// - where it could not go on, it says what it needs and tries again
/// - where it still cannot go on then, its stream may be lost or closed
/// - else it waits, and meanwhile it serves, so that it comes to its end alone
///
/// That it returns only at that end, tests alone show.
pub(crate) fn play<S: Workplace, R: Wait>(rt: &R, place: &S, signals: &Signals, client: &mut Client)
    requires { S.has client.old }
    ensures { IsSameClient client.old client.new }
{
    let mut pace = Pace::of_client(signals, client.stream());
    for _ in rt.forever() {
        let posted = client.posted();
        match place.turn(rt, client) {
            Act::Went => pace.go(client.posted() != posted),
            Act::End => {
                pace.end();
                return;
            }
            act => {
                if pace.asks(needs_of(client, act)) {
                    continue;
                }
                if pace.may_be_over() && place.is_ended(rt, client) {
                    return;
                }
                wait(rt, place, &mut pace);
            }
        }
    }
}

// A worker serves until nothing is left to do for any stream.
fn serve<S: Workplace, R: Wait>(rt: &R, place: &S, signals: &Signals, worker: usize) {
    let mut pace = Pace::of_worker(signals, worker);
    for _ in rt.forever() {
        if wait(rt, place, &mut pace) == Leave::AllOver {
            return;
        }
    }
}

/// Plays the clients, each on a thread of its own where there is one.
pub(crate) fn play_all<S: Workplace + Sync, R: Threads + Wait + Sync>(
    rt: &R,
    place: &S,
    signals: &Signals,
    clients: &mut [Client],
)
    requires { All S.has clients.old }
    ensures { AreSameClients clients.old clients.new }
{
    let threads = clients.len().max(1);
    thread::for_each_mut(
        rt,
        clients,
        threads,
        &|_, client: &mut Client|
            requires { S.has client.now }
            ensures { IsSameClient client.entry.now client.exit.now }
        { play(rt, place, signals, client) },
    );
}

/// The workers serve, each on a thread of its own where there is one.
///
/// # Errors
///
/// `Memory`: for the list of the workers. Some of them may not have served; the clients serve too.
pub(crate) fn serve_all<S: Workplace + Sync, R: Threads + Wait + Sync>(
    rt: &R,
    alloc: Global,
    place: &S,
    signals: &Signals,
) -> Result<(), Memory> {
    thread::map_indices(
        rt,
        alloc,
        signals.workers(),
        &|worker: usize| { serve(rt, place, signals, worker) },
    )?;
    Ok(())
}
