//! One turn of a worker, over a client that has posted both its flushes.
ghost use Rattle.std.specs.Prelude.{◌≡◌, [], ◌∷◌, length, IfOk, OnOk};
ghost use Rattle.gpu_cmd.specs.Spans.{words_in};
ghost use Rattle.gpu_plan.specs.Plans.{plan_of};
ghost use Rattle.shm_words.specs.Seen.{service_at};
ghost use Rattle.result_words.specs.Seen.{writer_at};
ghost use Rattle.flush_queue.specs.Clients.{HasPostedAll};
ghost use Rattle.flush_queue.specs.Seen.{fresh_end};
ghost use Rattle.house_core.specs.Core.{IsFresh};
ghost use Rattle.gpu_threads.specs.Rows.{AreShared};

use super::making::{house_over, lines_of, one, only_plan, plans_of};
use flush_queue::{FlushQueue, Poster, Taker};
use gpu_books::{Book, Half};
use gpu_cmd::words_in;
use gpu_hall::{FullPass, Hall};
use gpu_house::Naming;
use gpu_io::OpenGate;
use gpu_plan::{Plan, Plans};
use gpu_threads::{Ground, Turn, serve_turn};
use result_words::{ResultWords, ResultWriter};
use shm_words::{Acted, ClientPass, SharedWords};
use std::alloc::Global;
use std::marker::Brand;
use std::sync::{Mutex, Wait};
use std::test::Fail;
use wait_hooks::{Hook, Marker};

/// A client with two empty flushes.
const TWO_EMPTY: &str = "gpu-script 1
stream 1 normal 16
flush 0
flush 0
";

/// The journal once one of them is finished.
const ONE: &str = "order 1 1 0
order 1 2 1
finish 1 1
";

/// The journal once both are.
const BOTH: &str = "order 1 1 0
order 1 2 1
finish 1 1
finish 1 2
";

/// Numbers of turns, what the last of them comes to, and the journal after it.
const TURNS: [(u32, Turn, &str); 3] = [
    (1, Turn::Ran, ONE),
    (2, Turn::Ran, BOTH),
    (3, Turn::NothingRunnable, BOTH),
];

/// The words and the queue of a stream, with what the service has of it.
#[derive(Drop)]
struct Posted {
    words: (SharedWords, ResultWords),
    side: FullPass,
    results: ResultWriter,
    queue: FlushQueue,
    taker: Taker,
    book: (Book, Half, Half),
}

// The client posts the flush that it stands at.
fn post_next<R: Wait>(
    rt: &R,
    words: &SharedWords,
    queue: &FlushQueue,
    client: &mut ClientPass,
    poster: &mut Poster,
) -> Result<(), Fail>
    requires words { words.now ≡ client.old.table }
    requires queue { queue.now ≡ poster.old.queue }
    requires all { HasPostedAll client.old poster.old }
    ensures words { words.now ≡ client.new.table }
    ensures queue { queue.now ≡ poster.new.queue }
    ensures all { OnOk result (HasPostedAll client.new poster.new) }
{
    match client.act(words) {
        Acted::AtFlush => {
            let note = client.flush(words);
            match queue.post(rt, poster, note) {
                Ok(()) => Ok(()),
                Err(_) => Err("room in the queue".into()),
            }
        }
        _ => Err("a flush".into()),
    }
}

// The client posts both its flushes.
fn post_both<R: Wait>(
    rt: &R,
    words: &SharedWords,
    queue: &FlushQueue,
    client: ClientPass,
    poster: Poster,
) -> Result<(), Fail>
    requires words { words.now ≡ client.table }
    requires queue { queue.now ≡ poster.queue }
    requires all { HasPostedAll client poster }
{
    let (mut client, mut poster) = (client, poster);
    post_next(rt, words, queue, &mut client, &mut poster)?;
    post_next(rt, words, queue, &mut client, &mut poster)
}

// What the service has of a client that begins with two flushes and has posted them.
fn both_posted<R: Wait>(rt: &R, alloc: Global, plan: &Plan) -> Result<Posted, Fail>
    ensures side { IfOk result (λ made. made.side.pass ≡ service_at made.words.0 plan.now) }
    ensures results { IfOk result (λ made. made.results
        ≡ writer_at made.words.1 (words_in plan.now.areas.results)) }
    ensures taker { IfOk result
        (λ made. made.taker ≡ fresh_end made.queue made.words.0 plan.now) }
    ensures book { IfOk result (λ made. IsFresh made.book) }
{
    let book = gpu_books::make(alloc)?;
    let (words, pass, side) = shm_words::make(alloc, plan)?;
    let (queue, poster, taker, pass) = flush_queue::make(rt, alloc, pass)?;
    post_both(rt, &words, &queue, pass, poster)?;
    let places = words_in(&plan.areas().results) as u32;
    let (result_words, results, _) = result_words::make(alloc, places)?;
    Ok(Posted {
        words: (words, result_words),
        side: FullPass { pass: side },
        results,
        queue,
        taker,
        book,
    })
}

// A hall without events over the one stream.
fn hall_over<N: Naming>(
    alloc: Global,
    plans: Plans,
    side: FullPass,
    results: ResultWriter,
    taker: Taker,
    book: (Book, Half, Half),
) -> Result<Hall<N, Marker>, Fail>
    requires plans { plans ≡ N.plans }
    requires one { length plans.plans ≡ 1 }
    requires base { N.base ≡ 0 }
    requires tables { (N.words ≡ side.pass.table ∷ []) × (N.queues ≡ taker.queue ∷ []) }
    requires book { (N.books ≡ book.0 ∷ []) × IsFresh book }
    requires side { side.pass ≡ service_at side.pass.table (plan_of plans 1) }
    requires results { (N.result_words ≡ results.table ∷ [])
        × (results ≡ writer_at results.table (words_in (plan_of plans 1).areas.results)) }
    requires taker { taker ≡ fresh_end taker.queue side.pass.table (plan_of plans 1) }
{
    let takers = one(alloc, taker)?;
    let house = house_over::<N, FullPass>(alloc, plans, book, side, results)?;
    Ok(Hall::make(house, takers, None))
}

// What the last of a number of turns came to, and the lines that they leave.
fn turns<N: Naming, H: Hook, R: Wait>(
    rt: &R,
    alloc: Global,
    hall: Hall<N, H>,
    words: &[(SharedWords, ResultWords)],
    queues: &[FlushQueue],
    count: u32,
) -> Result<(Option<Turn>, Vec<u8>), Fail>
    requires shared { AreShared N.plans N.words N.result_words N.queues words.now queues.now }
{
    let lock = Mutex::new(hall);
    let ground = Ground::new(&lock, words, queues, &OpenGate);
    let mut last = None;
    for _ in 0..count {
        last = Some(serve_turn(rt, &ground));
    }
    let report = lock.into_inner().end(rt);
    Ok((last, lines_of(alloc, &report)?))
}

// The same over the one stream.
fn served<N: Naming, R: Wait>(
    rt: &R,
    alloc: Global,
    plans: Plans,
    posted: Posted,
    count: u32,
) -> Result<(Option<Turn>, Vec<u8>), Fail>
    requires plans { plans ≡ N.plans }
    requires one { length plans.plans ≡ 1 }
    requires base { N.base ≡ 0 }
    requires tables { (N.words ≡ posted.words.0 ∷ []) × (N.queues ≡ posted.queue ∷ []) }
    requires book { (N.books ≡ posted.book.0 ∷ []) × IsFresh posted.book }
    requires side { posted.side.pass ≡ service_at posted.words.0 (plan_of plans 1) }
    requires results { (N.result_words ≡ posted.words.1 ∷ []) × (posted.results
        ≡ writer_at posted.words.1 (words_in (plan_of plans 1).areas.results)) }
    requires taker { posted.taker ≡ fresh_end posted.queue posted.words.0 (plan_of plans 1) }
{
    let Posted {
        words,
        side,
        results,
        queue,
        taker,
        book,
    } = posted;
    let hall = hall_over::<N>(alloc, plans, side, results, taker, book)?;
    turns(rt, alloc, hall, &[words], &[queue], count)
}

// The same of a client with two empty flushes that are posted.
fn served_two<R: Wait>(rt: &R, alloc: Global, count: u32) -> Result<(Option<Turn>, Vec<u8>), Fail> {
    let plans = plans_of(alloc, TWO_EMPTY)?;
    let posted = both_posted(rt, alloc, only_plan(&plans)?)?;
    served::<Brand, R>(rt, alloc, plans, posted, count)
}

fn is_turn(turn: Option<Turn>, wanted: Turn) -> bool {
    match turn {
        Some(Turn::Ran) => matches!(wanted, Turn::Ran),
        Some(Turn::NothingRunnable) => matches!(wanted, Turn::NothingRunnable),
        None => false,
    }
}

// All flushes are ordered in the first turn, and each turn finishes one.
#[test]
fn a_turn_ends_after_one_run(rt: HostRuntime) -> Result<(), Fail> {
    for (count, wanted, lines) in TURNS {
        let (turn, told) = served_two(&rt, rt.alloc(), count)?;
        assert!(rt; is_turn(turn, wanted));
        assert_eq!(rt; told.as_slice(), lines.as_bytes());
    }
    Ok(())
}
