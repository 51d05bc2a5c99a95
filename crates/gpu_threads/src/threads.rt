//! The threads of a run.
ghost use Rattle.std.specs.Prelude.{◌≡◌, ◌≤◌, length, IfOk, IfSome};
ghost use Rattle.std.specs.List.{All};
ghost use Rattle.gpu_journal.specs.Complete.{IsComplete};
ghost use Rattle.house_core.specs.Core.{names_of};
ghost use Rattle.gpu_hall.specs.Views.{IsFreshView};
ghost use Rattle.gpu_threads.specs.Dumps.{IsThrough};
ghost use Rattle.gpu_threads.specs.Clients.{AreClientsOf, AreSameClients};
ghost use Rattle.gpu_threads.specs.Making.{IsFreshService, HaveDoneNothing, AreNamed};
ghost use Rattle.gpu_threads.specs.Rows.{AreShared};
ghost use Rattle.gpu_threads.specs.Runs.{IsThreadedRun};
ghost use Rattle.thread_parts.specs.Watches.{HasNotLooked, HasWatched, HaveWatched};
ghost use Rattle.live_view.specs.declared.look.TheConstants.{LOOKS};
ghost use Rattle.live_view.specs.declared.making.TheConstants.{MOST_VIEWERS};

use crate::chain::serve_turn;
use crate::ground::Ground;
use crate::jobs::{play_all, serve_all};
use crate::parts::{Parts, Service};
use crate::reading::{all_done, all_read};
use crate::rows::words_of;
use crate::threaded_run::ThreadedRun;
use crate::turns::turn;
use crate::views::{Views, show_all, watch_all};
use crate::workplace::Workplace;
use flush_queue::FlushQueue;
use gpu_hall::{FullPass, Hall};
use gpu_house::{House, Naming};
use gpu_io::Gate;
use gpu_plan::Plans;
use gpu_word::Memory;
use live_view::ViewWriter;
use result_words::ResultWords;
use shm_words::SharedWords;
use std::alloc::Global;
use std::marker::Brand;
use std::sync::{Mutex, Wait};
use std::thread;
use std::thread::Threads;
use thread_parts::{Client, Signals, Watch};
use wait_hooks::Hook;

/// How many threads serve in a run, and how many look.
#[derive(Clone, Copy)]
pub struct Team {
    /// The workers.
    pub workers: u32,
    /// The viewers.
    pub viewers: u32,
}

// What a run begins with.
//
// It is not `Drop`, as no writer of a view is.
struct Setup<H: Hook> {
    plans: Plans,
    hook: H,
    parts: Parts,
    views: Views,
}

// The clients and the viewers of a run.
#[derive(Drop)]
struct Crew {
    clients: Vec<Client>,
    watches: Vec<Watch>,
}

// What a run has beside its hall and its crew.
#[derive(Drop)]
struct Beside<'a, G: Gate> {
    words: &'a [(SharedWords, ResultWords)],
    queues: &'a [FlushQueue],
    gate: &'a G,
    signals: &'a Signals,
}

// Each client has a turn.
fn turn_each<N: Naming, H: Hook, R: Wait, G: Gate>(
    rt: &R,
    ground: &Ground<'_, N, H, G>,
    clients: &mut [Client],
)
    requires { AreClientsOf N.plans N.words N.result_words N.queues clients.old }
    ensures { AreClientsOf N.plans N.words N.result_words N.queues clients.new }
{
    for client in clients.iter_mut() {
        let own = words_of::<N>(ground.words, client.stream());
        turn(rt, ground, own, client);
    }
}

// Plays and serves what is left, and gives the hall back once nothing is left to do: what the clients saw under a lock is not
// known here. Each round every client has a turn, and a run is served.
fn play_left<N: Naming, H: Hook, R: Wait, G: Gate>(
    rt: &R,
    hall: Hall<N, H>,
    beside: &Beside<'_, G>,
    clients: &mut [Client],
) -> Hall<N, H>
    requires shared { AreShared N.plans N.words N.result_words N.queues
        beside.now.words.now beside.now.queues.now }
    requires clients { AreClientsOf N.plans N.words N.result_words N.queues clients.old }
    ensures complete { IsComplete N.plans result.past }
    ensures clients { AreClientsOf N.plans N.words N.result_words N.queues clients.new }
    ensures through { All (IsThrough N.plans result.past) clients.new }
{
    let mut hall = hall;
    for _ in rt.forever() {
        if all_done(&hall, clients) {
            return hall;
        }
        let lock = Mutex::new(hall);
        let ground = Ground::new(&lock, beside.words, beside.queues, beside.gate);
        turn_each(rt, &ground, clients);
        serve_turn(rt, &ground);
        hall = lock.into_inner();
    }
    unreachable!()
}

// The clients are played beside the workers. Where there is no thread for the first of two calls, the library does the second one
// before it: so the clients stand there, who come to their end without a worker, and a worker does not without the clients.
fn run_clients<S: Workplace + Sync, R: Threads + Wait + Sync>(
    rt: &R,
    alloc: Global,
    place: &S,
    signals: &Signals,
    clients: &mut [Client],
) -> Result<(), Memory>
    requires { All S.has clients.old }
    ensures { AreSameClients clients.old clients.new }
{
    let (served, _) = thread::join_mut(
        rt,
        &mut || serve_all(rt, alloc, place, signals),
        &mut ||
            requires { All S.has clients.now }
            ensures { AreSameClients clients.entry.now clients.exit.now }
        { play_all(rt, place, signals, clients) },
    );
    served
}

// The clients are played beside the workers, and beside both the viewers look.
fn run_all<S: Workplace + Sync, G: Gate + Sync, R: Threads + Wait + Sync>(
    rt: &R,
    alloc: Global,
    place: &S,
    gate: &G,
    signals: &Signals,
    crew: &mut Crew,
) -> Result<(), Memory>
    requires clients { All S.has crew.old.clients.items }
    requires watches { All HasNotLooked crew.old.watches.items }
    ensures clients { AreSameClients crew.old.clients.items crew.new.clients.items }
    ensures watched { HaveWatched LOOKS crew.old.watches.items crew.new.watches.items }
{
    let clients = crew.clients.as_mut_slice();
    let watches = crew.watches.as_mut_slice();
    let (_, served) = thread::join_mut(
        rt,
        &mut ||
            requires { All HasNotLooked watches.now }
            ensures { HaveWatched LOOKS watches.entry.now watches.exit.now }
        { watch_all(rt, gate, watches) },
        &mut ||
            requires { All S.has clients.now }
            ensures { AreSameClients clients.entry.now clients.exit.now }
        { run_clients(rt, alloc, place, signals, clients) },
    );
    served
}

// Plays and serves what the threads of a run left, and shows the viewers the whole journal.
fn finish<N: Naming, H: Hook, R: Wait, G: Gate>(
    rt: &R,
    alloc: Global,
    hall: Hall<N, H>,
    beside: &Beside<'_, G>,
    crew: Crew,
) -> Result<ThreadedRun, Memory>
    requires shared { AreShared N.plans N.words N.result_words N.queues
        beside.now.words.now beside.now.queues.now }
    requires clients { AreClientsOf N.plans N.words N.result_words N.queues crew.clients.items }
    requires watches { All (HasWatched N.view LOOKS) crew.watches.items }
    ensures { IfOk result (IsThreadedRun N.plans N.base (length crew.watches.items)) }
{
    let Crew { clients, watches } = crew;
    let mut clients = clients;
    let mut hall = play_left(rt, hall, beside, &mut clients);
    hall.shows_laws();
    let dumps = match all_read(alloc, &mut hall, beside.words, clients) {
        Ok(dumps) => dumps,
        Err(memory) => {
            hall.end(rt);
            return Err(memory);
        }
    };
    let (report, looks) = show_all(rt, alloc, hall, watches)?;
    Ok(ThreadedRun {
        report,
        looks,
        dumps,
    })
}

// Runs a hall over what it has beside it: the clients, the workers and the viewers on threads, and then what these left.
fn run_hall<N: Naming + Send + Sync, H: Hook + Send, G: Gate + Sync, R: Threads + Wait + Sync>(
    rt: &R,
    alloc: Global,
    hall: Hall<N, H>,
    beside: &Beside<'_, G>,
    crew: Crew,
) -> Result<ThreadedRun, Memory>
    requires shared { AreShared N.plans N.words N.result_words N.queues
        beside.now.words.now beside.now.queues.now }
    requires clients { AreClientsOf N.plans N.words N.result_words N.queues crew.clients.items }
    requires watches { All (HasWatched N.view 0) crew.watches.items }
    ensures { IfOk result (IsThreadedRun N.plans N.base (length crew.watches.items)) }
{
    let mut crew = crew;
    let lock = Mutex::new(hall);
    let ground = Ground::new(&lock, beside.words, beside.queues, beside.gate);
    let served = run_all(rt, alloc, &ground, beside.gate, beside.signals, &mut crew);
    let hall = lock.into_inner();
    if let Err(memory) = served {
        hall.end(rt);
        return Err(memory);
    }
    finish(rt, alloc, hall, beside, crew)
}

// The hall of a run. Where there is no memory for it, the writer of the view is given up.
fn hall_of<N: Naming, H: Hook, R: Wait>(
    rt: &R,
    alloc: Global,
    plans: Plans,
    hook: H,
    service: Service,
    writer: Option<ViewWriter>,
) -> Result<Hall<N, H>, Memory>
    requires plans { plans ≡ N.plans }
    requires base { H.base hook ≡ N.base }
    requires fresh { IsFreshService N.plans.plans N.words N.result_words N.queues service }
    requires books { names_of service.books.items ≡ N.books }
    requires writer { IfSome writer (IsFreshView N.view) }
{
    let Service {
        sides,
        results,
        books,
        takers,
    } = service;
    match House::<N, FullPass, H>::make(alloc, plans, hook, sides, results, books) {
        Ok(house) => Ok(Hall::make(house, takers, writer)),
        Err(memory) => {
            match writer {
                Some(writer) => writer.end(rt),
                None => {}
            }
            Err(memory)
        }
    }
}

// Runs a setup of which N names the plans, the base, the tables and the view.
fn run_named<N: Naming + Send + Sync, H: Hook + Send, G: Gate + Sync, R: Threads + Wait + Sync>(
    rt: &R,
    alloc: Global,
    setup: Setup<H>,
    gate: &G,
    signals: &Signals,
) -> Result<ThreadedRun, Memory>
    requires plans { setup.plans ≡ N.plans }
    requires base { H.base setup.hook ≡ N.base }
    requires fresh { HaveDoneNothing N.plans.plans setup.parts }
    requires named { AreNamed N.words N.result_words N.books N.queues setup.parts }
    requires writer { IfSome setup.views.writer (IsFreshView N.view) }
    requires watches { All (HasWatched N.view 0) setup.views.watches.items }
    ensures { IfOk result (IsThreadedRun N.plans N.base (length setup.views.watches.items)) }
{
    let Setup {
        plans,
        hook,
        parts,
        views,
    } = setup;
    let Parts {
        words,
        queues,
        clients,
        service,
    } = parts;
    let Views { writer, watches } = views;
    let hall = hall_of::<N, H, R>(rt, alloc, plans, hook, service, writer)?;
    let beside = Beside {
        words: words.as_slice(),
        queues: queues.as_slice(),
        gate,
        signals,
    };
    run_hall(rt, alloc, hall, &beside, Crew { clients, watches })
}

/// Runs a script on threads: one for the client of each stream, one for each of 1 to 8 workers, and one for each of up to 4
/// viewers. The journal that the report has is legal and complete.
///
/// A waiting client serves too, and a worker ends once no stream is open; so the run also ends where a machine does one job after the
/// other. Where memory is wanted for a stream alone, that stream is lost, and its journal says so.
///
/// # Errors
///
/// `Memory`: for what the run is made of, for its threads, for the last version of the view, or for the lists of clients, dumps and looks.
pub fn run_threads<H: Hook + Send, G: Gate + Sync, R: Threads + Wait + Sync>(
    rt: &R,
    alloc: Global,
    plans: Plans,
    team: Team,
    hook: H,
    gate: &G,
) -> Result<ThreadedRun, Memory>
    requires some_workers { 1 ≤ team.workers }
    requires few_workers { team.workers ≤ 8 }
    requires few_viewers { team.viewers ≤ MOST_VIEWERS }
    ensures { IfOk result (IsThreadedRun plans (H.base hook) team.viewers) }
{
    let signals = Signals::make(alloc, plans.count(), team.workers)?;
    let parts = Parts::make(rt, alloc, &plans)?;
    let views = Views::make(rt, alloc, team.viewers)?;
    let setup = Setup {
        plans,
        hook,
        parts,
        views,
    };
    run_named::<Brand, H, G, R>(rt, alloc, setup, gate, &signals)
}
