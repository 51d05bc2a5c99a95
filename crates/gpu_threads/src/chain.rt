//! The turns of a thread that serves, one after the other.
ghost use Rattle.std.specs.Prelude.{◌≡◌, length, drop, false, Some, IfSome, IfOk};
ghost use Rattle.sync_core.specs.Standing.{IsKnown};
ghost use Rattle.gpu_house.specs.Batches.{batch_words, AreChained};
ghost use Rattle.gpu_hall.specs.Ready.{IsReadyRun};
ghost use Rattle.gpu_hall.specs.Words.{AreWordsAt};

use crate::ground::Ground;
use crate::over::{all_over, is_lost};
use crate::rows::{queue_of, words_of};
use gpu_hall::{FullPass, Hall};
use gpu_house::{Batch, Naming, Run};
use gpu_io::{Gate, Place};
use gpu_word::Memory;
use result_words::ResultWords;
use shm_words::SharedWords;
use std::sync::{MutexGuard, Wait};
use thread_parts::{Leave, Shift};
use wait_hooks::Hook;

// A run's stream and its order, and how many finishes and which greatest token the stream had before what is entered.
#[derive(Clone, Copy)]
struct Before {
    stream: u32,
    order: u32,
    finishes: u32,
    greatest: u32,
}

// Orders the flushes that were posted, of each stream whose earlier flushes are finished: later ones could not run yet.
fn collect<N: Naming, H: Hook, R: Wait, G: Gate>(
    rt: &R,
    ground: &Ground<'_, N, H, G>,
    hall: &mut Hall<N, H>,
    shift: &mut Shift<'_>,
) {
    if !shift.takes_posted() {
        return;
    }
    for stream in 1..=hall.count() {
        if shift.may_collect(stream, hall.finishes(stream)) {
            let count = hall.collect_from(rt, stream, queue_of(ground.queues, stream));
            shift.note_taken(stream, count);
        }
    }
}

// The run that goes on, where there is one: no other is taken then. Else the flushes that were posted are ordered, and the run of the
// scheduler's choice is taken, unless the thread has enough.
fn next<N: Naming, H: Hook, R: Wait, G: Gate>(
    rt: &R,
    ground: &Ground<'_, N, H, G>,
    hall: &mut Hall<N, H>,
    shift: &mut Shift<'_>,
    on: Option<Run<N, FullPass>>,
) -> Option<Run<N, FullPass>>
    requires ready { IfSome on (IsReadyRun N.plans N.words N.books) }
    ensures ready { IfSome result (IsReadyRun N.plans N.words N.books) }
    ensures same { IfSome on (λ run. result ≡ Some run) }
{
    match on {
        Some(run) => return Some(run),
        None => {}
    }
    if !shift.takes_run() {
        return None;
    }
    collect(rt, ground, hall, shift);
    let run = hall.take();
    if run.is_none() {
        shift.stop(if all_over(hall) {
            Leave::AllOver
        } else {
            Leave::NothingRunnable
        });
    }
    run
}

// Whether the journal has more finishes of a stream than before. Where it has, or where the stream is lost:
// - viewers are shown so; where that is out of memory nothing is lost, since a later version shows more
// - its client is told of a finish, a token and a loss
fn show_end<N: Naming, H: Hook, R: Wait>(
    rt: &R,
    hall: &mut Hall<N, H>,
    before: Before,
    shift: &mut Shift<'_>,
) -> bool
    requires { IsKnown (length N.plans.plans) before.stream }
{
    let finishes = hall.finishes(before.stream);
    let finished = finishes > before.finishes;
    let lost = is_lost(hall, before.stream);
    if finished || lost {
        let _ = hall.publish(rt);
    }
    let has_token = hall.greatest(before.stream) != before.greatest;
    shift.note_end(before.stream, finishes, has_token, lost);
    finished
}

// What a run did is entered: the lock is given back with the next run in hand, and whom it concerns is told.
fn leave<N: Naming, H: Hook, R: Wait, G: Gate>(
    rt: &R,
    ground: &Ground<'_, N, H, G>,
    shift: &mut Shift<'_>,
    hall: MutexGuard<'_, Hall<N, H>>,
    on: Option<Run<N, FullPass>>,
    before: Before,
) -> Option<Run<N, FullPass>>
    requires known { IsKnown (length N.plans.plans) before.stream }
    requires ready { IfSome on (IsReadyRun N.plans N.words N.books) }
    ensures { IfSome result (IsReadyRun N.plans N.words N.books) }
{
    let mut hall = hall;
    let finished = show_end(rt, &mut hall, before, shift);
    let next = next(rt, ground, &mut hall, shift, on);
    MutexGuard::unlock(hall);
    shift.ring();
    if finished {
        ground.gate.reach(Place::AfterFinish {
            stream: before.stream,
            order: before.order,
        });
    }
    next
}

// What a run and its stream are before it does more.
fn state_before<N: Naming, H: Hook>(hall: &Hall<N, H>, run: &Run<N, FullPass>) -> Before
    requires { IsKnown (length N.plans.plans) run.now.run.stream }
    ensures { result.stream ≡ run.now.run.stream }
{
    let stream = run.stream();
    Before {
        stream,
        order: run.order(),
        finishes: hall.finishes(stream),
        greatest: hall.greatest(stream),
    }
}

// Commits the batch that a run has fetched, or loses its stream where there was no memory for it.
fn enter<N: Naming, H: Hook>(
    hall: &mut Hall<N, H>,
    run: Run<N, FullPass>,
    own: &(SharedWords, ResultWords),
    fetched: Result<Batch, Memory>,
) -> Option<Run<N, FullPass>>
    requires going { run.run.paused ≡ false }
    requires chained { IfOk fetched (AreChained run.run.facts) }
    requires list { IfOk fetched
        (λ batch. drop run.run.facts.fetched run.side.pass.fetched ≡ batch_words batch) }
    requires words { AreWordsAt N.words N.result_words run.run.stream own.now }
    ensures { IfSome result (IsReadyRun N.plans N.words N.books) }
{
    match fetched {
        Ok(batch) => hall.commit(run, own, batch),
        Err(memory) => {
            hall.lose(run, memory);
            None
        }
    }
}

// A run fetches its next batch with no lock, and that is committed under one; or it is finished. It goes on; or where it is at home again,
// the next run is taken under the same lock.
fn advance<N: Naming, H: Hook, R: Wait, G: Gate>(
    rt: &R,
    ground: &Ground<'_, N, H, G>,
    shift: &mut Shift<'_>,
    run: Run<N, FullPass>,
) -> Option<Run<N, FullPass>>
    requires { IsReadyRun N.plans N.words N.books run }
    ensures { IfSome result (IsReadyRun N.plans N.words N.books) }
{
    let mut run = run;
    run.shows_fit();
    let stream = run.stream();
    let own = words_of::<N>(ground.words, stream);
    if run.at_end() {
        let mut hall = ground.hall.lock(rt);
        let before = state_before(&hall, &run);
        hall.finish(run, own);
        return leave(rt, ground, shift, hall, None, before);
    }
    ground.gate.reach(Place::BeforeFetch { stream });
    let fetched = run.fetch_batch(own);
    ground.gate.reach(Place::AfterFetch { stream });
    let mut hall = ground.hall.lock(rt);
    let before = state_before(&hall, &run);
    let on = enter(&mut hall, run, own, fetched);
    leave(rt, ground, shift, hall, on, before)
}

/// Serves turns, one after the other, until the thread has enough or nothing is runnable:
/// - commands are fetched in batches with no lock
/// - each batch is committed under the lock; where its run comes home, the next one is taken under the same lock
/// - after a finish or a loss viewers are shown the whole journal
/// - then, with no lock, bells are rung and the gate is told of the finish
pub(crate) fn serve_on<N: Naming, H: Hook, R: Wait, G: Gate>(
    rt: &R,
    ground: &Ground<'_, N, H, G>,
    shift: Shift<'_>,
) -> Leave {
    let mut shift = shift;
    let mut guard = ground.hall.lock(rt);
    let mut out = next(rt, ground, &mut guard, &mut shift, None);
    MutexGuard::unlock(guard);
    shift.ring();
    for _ in rt.forever() {
        match out {
            Some(run) => out = advance(rt, ground, &mut shift, run),
            None => return shift.end(),
        }
    }
    unreachable!()
}

/// What a turn of a worker came to.
#[derive(Clone, Copy)]
pub enum Turn {
    /// A stream ran until its run was at home again.
    Ran,
    /// No stream at home could run.
    NothingRunnable,
}

/// Orders the flushes of all queues and lets the scheduler's choice run until its kept wait, its finish or its loss:
/// - commands are fetched in batches with no lock, and each batch is committed under one
/// - where memory runs out, the stream is lost
/// - after a finish or a loss viewers are shown the whole journal, before the gate hears of the finish
///
/// That it answers NothingRunnable only where no stream at home could run, tests alone show.
pub fn serve_turn<N: Naming, H: Hook, R: Wait, G: Gate>(
    rt: &R,
    ground: &Ground<'_, N, H, G>,
) -> Turn {
    match serve_on(rt, ground, Shift::begin(None, true)) {
        Leave::Enough => Turn::Ran,
        Leave::NothingRunnable => Turn::NothingRunnable,
        Leave::AllOver => Turn::NothingRunnable,
    }
}
