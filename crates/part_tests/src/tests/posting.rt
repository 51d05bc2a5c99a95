ghost use Rattle.std.specs.Prelude.{◌≡◌, ◌+◌, ◌<◌, ◌≤◌, IfOk, IfSome, IfNone, OnSome, IsTrue};
ghost use Rattle.gpu_cmd.specs.Lawful.{places_of};
ghost use Rattle.gpu_plan.specs.Passes.{flushes};
ghost use Rattle.shm_words.specs.Seen.{client_at, service_at};
ghost use Rattle.flush_queue.specs.Clients.{HasPostedAll};
ghost use Rattle.flush_queue.specs.Seen.{note_of, one_more};

use super::words::made;
use flush_queue::{FlushQueue, Poster, Taker, make};
use shm_words::{Acted, ClientPass, Note, ServicePass, SharedWords};
use std::alloc::Global;
use std::sync::Wait;
use std::test::Fail;
use std::thread;
use std::thread::Threads;

/// A queue holds at most this number of notes.
const ROOM: u32 = 16;

/// How many flushes go from one thread to the other: as many as a script may have.
const FLUSHES: u32 = 100_000;

/// How often a thread tries to get on before it gives up.
const TURNS: u32 = 10_000_000;

// A client that puts the number of each flush, counted from 1, at place 0 before it.
fn script(alloc: Global, flushes: u32) -> Result<String, Fail> {
    let mut text = String::new(alloc);
    text.push_str("gpu-script 1\nstream 1 normal 16\n")?;
    for k in 0..flushes {
        let lines = format!(in alloc; "put 0 {:x}\nflush 1\n", u64::from(k) + 1)?;
        text.push_str(lines.as_str())?;
    }
    Ok(text)
}

// The words of that client, its pass and the service's.
fn made_for(alloc: Global, flushes: u32) -> Result<(SharedWords, ClientPass, ServicePass), Fail>
    ensures client { IfOk result (λ made. made.1 ≡ client_at made.0 made.1.plan) }
    ensures service { IfOk result (λ made. made.2 ≡ service_at made.0 made.2.plan) }
    ensures place { IfOk result (λ made. 0 < places_of made.2.plan.areas) }
{
    let text = script(alloc, flushes)?;
    made(alloc, text.as_str(), 0)
}

// A note of the client's next flush, once the number before it is put.
fn next_note(words: &SharedWords, client: &mut ClientPass, poster: &Poster) -> Option<Note>
    requires words { words.now ≡ client.old.table }
    requires all { HasPostedAll client.old poster.now }
    ensures note { IfSome result (λ note. note ≡ note_of poster.now) }
    ensures flush { OnSome result (poster.now.count < flushes poster.now.plan.actions) }
    ensures words { words.now ≡ client.new.table }
    ensures all { OnSome result (HasPostedAll client.new (one_more poster.now)) }
{
    if client.act(words) != Acted::Stored {
        return None;
    }
    match client.act(words) {
        Acted::AtFlush => Some(client.flush(words)),
        _ => None,
    }
}

// Posts a note where fewer than 16 were posted: a queue is full after 16 posts at the earliest.
fn post_early<R: Wait>(rt: &R, queue: &FlushQueue, poster: &mut Poster, note: Note)
    requires queue { queue.now ≡ poster.old.queue }
    requires note { note ≡ note_of poster.old }
    requires flush { poster.old.count < flushes poster.old.plan.actions }
    requires early { poster.old.count < 16 }
    ensures { poster.new ≡ one_more poster.old }
{
    match queue.post(rt, poster, note) {
        Ok(()) => {}
        Err(_) => unreachable!(),
    }
}

// Posts a given number of the client's next flushes, all among the first 16.
fn post_each<R: Wait>(
    rt: &R,
    words: &SharedWords,
    queue: &FlushQueue,
    client: &mut ClientPass,
    poster: &mut Poster,
    count: u32,
) -> bool
    requires words { words.now ≡ client.old.table }
    requires queue { queue.now ≡ poster.old.queue }
    requires all { HasPostedAll client.old poster.old }
    requires early { poster.old.count + count ≤ 16 }
    ensures words { words.now ≡ client.new.table }
    ensures queue { queue.now ≡ poster.new.queue }
    ensures all { IsTrue result → HasPostedAll client.new poster.new }
{
    for _ in 0..count {
        match next_note(words, client, poster) {
            None => return false,
            Some(note) => post_early(rt, queue, poster, note),
        }
    }
    true
}

// Whether a given number of flushes can be taken.
fn take_each<R: Wait>(rt: &R, queue: &FlushQueue, taker: &mut Taker, count: u32) -> bool
    requires queue { queue.now ≡ taker.old.queue }
    ensures queue { queue.now ≡ taker.new.queue }
{
    for _ in 0..count {
        if queue.take_next(rt, taker).is_none() {
            return false;
        }
    }
    true
}

// Fills a queue, and takes all notes out of it. Whether all flushes came:
// - it is empty at first, and gives the seventeenth note back
// - once a note was taken it takes that note, and then sixteen notes are there
fn fill<R: Wait>(
    rt: &R,
    words: &SharedWords,
    queue: &FlushQueue,
    client: &mut ClientPass,
    poster: &mut Poster,
    taker: &mut Taker,
) -> bool
    requires words { words.now ≡ client.old.table }
    requires queue { queue.now ≡ poster.old.queue }
    requires taker { queue.now ≡ taker.old.queue }
    requires all { HasPostedAll client.old poster.old }
    requires fresh { poster.old.count ≡ 0 }
{
    let early = take_each(rt, queue, taker, 1);
    if !post_each(rt, words, queue, client, poster, ROOM) {
        return false;
    }
    let Some(note) = next_note(words, client, poster) else {
        return false;
    };
    let Err(full) = queue.post(rt, poster, note) else {
        return false;
    };
    let first = take_each(rt, queue, taker, 1);
    let posted = queue.post(rt, poster, full.note).is_ok();
    let all = take_each(rt, queue, taker, ROOM);
    let more = take_each(rt, queue, taker, 1);
    !early && first && posted && all && !more
}

#[test]
fn a_full_queue_gives_the_note_back(rt: HostRuntime) -> Result<(), Fail> {
    let (words, client, _) = made_for(rt.alloc(), ROOM + 4)?;
    let (queue, mut poster, mut taker, mut client) = make(&rt, rt.alloc(), client)?;
    let filled = fill(&rt, &words, &queue, &mut client, &mut poster, &mut taker);
    assert!(rt; filled);
    Ok(())
}

// Whether the note was posted within a given number of turns.
fn post_within<R: Wait>(rt: &R, queue: &FlushQueue, poster: &mut Poster, note: Note) -> bool
    requires queue { queue.now ≡ poster.old.queue }
    requires note { note ≡ note_of poster.old }
    requires flush { poster.old.count < flushes poster.old.plan.actions }
    ensures { IsTrue result → poster.new ≡ one_more poster.old }
{
    let mut note = note;
    for _ in 0..TURNS {
        match queue.post(rt, poster, note) {
            Ok(()) => return true,
            Err(full) => note = full.note,
        }
        thread::yield_now();
    }
    false
}

// The next flush, where it came within a given number of turns.
fn take_within<R: Wait>(rt: &R, queue: &FlushQueue, taker: &mut Taker) -> Option<Note>
    requires queue { queue.now ≡ taker.old.queue }
    ensures note { IfSome result (λ note. note ≡ note_of taker.old) }
    ensures taken { OnSome result (taker.new ≡ one_more taker.old) }
    ensures stays { IfNone result (taker.new ≡ taker.old) }
{
    for _ in 0..TURNS {
        if let Some(note) = queue.take_next(rt, taker) {
            return Some(note);
        }
        thread::yield_now();
    }
    None
}

// How many flushes the client could post.
fn post_all<R: Wait>(
    rt: &R,
    words: &SharedWords,
    queue: &FlushQueue,
    client: ClientPass,
    poster: Poster,
) -> u32
    requires words { words.now ≡ client.table }
    requires queue { queue.now ≡ poster.queue }
    requires all { HasPostedAll client poster }
    ensures { result ≤ 100000 }
{
    let mut client = client;
    let mut poster = poster;
    for posted in 0..FLUSHES {
        match next_note(words, &mut client, &poster) {
            None => return posted,
            Some(note) => {
                if !post_within(rt, queue, &mut poster, note) {
                    return posted;
                }
            }
        }
    }
    FLUSHES
}

// How many flushes came, one after the other, each after the number that was put before it.
fn take_all<R: Wait>(
    rt: &R,
    words: &SharedWords,
    queue: &FlushQueue,
    service: ServicePass,
    taker: Taker,
) -> (u32, Taker)
    requires words { words.now ≡ service.table }
    requires place { 0 < places_of service.plan.areas }
    requires queue { queue.now ≡ taker.queue }
    requires shared { taker.words ≡ service.table }
    ensures count { result.1.count ≡ taker.count + result.0 }
    ensures queue { queue.now ≡ result.1.queue }
{
    let mut service = service;
    let mut taker = taker;
    let mut taken = 0;
    for _ in 0..FLUSHES {
        match take_within(rt, queue, &mut taker) {
            None => return (taken, taker),
            Some(note) => service.meet(words, note),
        }
        taken += 1;
        if service.fetch(words, 0) < taken {
            return (taken, taker);
        }
    }
    (taken, taker)
}

// Both threads at work on the same queue.
fn hand_over<R: Threads + Wait + Sync>(
    rt: &R,
    words: &SharedWords,
    queue: &FlushQueue,
    client: (ClientPass, Poster),
    service: (ServicePass, Taker),
) -> (u32, (u32, Taker))
    requires client { words.now ≡ client.0.table }
    requires poster { queue.now ≡ client.1.queue }
    requires all { HasPostedAll client.0 client.1 }
    requires service { words.now ≡ service.0.table }
    requires place { 0 < places_of service.0.plan.areas }
    requires taker { queue.now ≡ service.1.queue }
    requires shared { service.1.words ≡ service.0.table }
    ensures count { result.1.1.count ≡ service.1.count + result.1.0 }
    ensures queue { queue.now ≡ result.1.1.queue }
{
    let (client, poster) = client;
    let (service, taker) = service;
    thread::join(
        rt,
        move ||
            requires { (words.now ≡ client.table) × (queue.now ≡ poster.queue)
                × HasPostedAll client poster }
        { post_all(rt, words, queue, client, poster) },
        move ||
            requires { (words.now ≡ service.table) × (0 < places_of service.plan.areas)
                × (queue.now ≡ taker.queue) × (taker.words ≡ service.table) }
            ensures { (result.1.count ≡ taker.count + result.0)
                × (queue.entry.now ≡ result.1.queue) }
        { take_all(rt, words, queue, service, taker) },
    )
}

#[test]
fn each_flush_comes_to_the_other_thread(rt: HostRuntime) -> Result<(), Fail> {
    let (words, client, service) = made_for(rt.alloc(), FLUSHES)?;
    let (queue, poster, taker, client) = make(&rt, rt.alloc(), client)?;
    let (posted, (taken, mut taker)) = hand_over(
        &rt,
        &words,
        &queue,
        (client, poster),
        (service, taker),
    );
    assert!(rt; posted == FLUSHES);
    assert!(rt; taken == FLUSHES);
    assert!(rt; queue.take_next(&rt, &mut taker).is_none());
    Ok(())
}
