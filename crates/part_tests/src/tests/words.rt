ghost use Rattle.std.specs.Prelude.{◌≡◌, ◌<◌, IfOk, IfSome};
ghost use Rattle.gpu_cmd.specs.Lawful.{places_of};
ghost use Rattle.shm_words.specs.Seen.{client_at, service_at};

use super::scripts::plans_of;
use shm_words::{Acted, ClientPass, Note, ServicePass, SharedWords, make};
use std::alloc::Global;
use std::test::Fail;
use std::thread;
use std::thread::Threads;

/// A client that uploads one texel, and then another by the same words.
const TWO_UPLOADS: &str = "gpu-script 1\nstream 1 normal 32\nmemory 0 1\n\
put 0 20400004 1 1 1 20c00009 1 0 0 1 1 1 0 0\nfill 0 0 44332211\nflush 13\nfinish\n\
fill 0 0 88776655\nput 13 20c00009 1 0 0 1 1 1 0 0\nflush 22\n";

/// A client that awaits tokens that do not rise, and closes its stream.
const TOKENS: &str =
    "gpu-script 1\nstream 1 normal 16\nflush 1\ntoken 0\ntoken 3\ntoken 2\ntoken 4\nclose\n";

/// How often the two threads hand on to each other.
const ROUNDS: u32 = 200;

/// How many turns a thread takes before it gives up.
const TURNS: u32 = 10_000_000;

// The words and the passes of a script's first stream, which has a place.
pub(super) fn made(
    alloc: Global,
    text: &str,
    place: u32,
) -> Result<(SharedWords, ClientPass, ServicePass), Fail>
    ensures client { IfOk result (λ made. made.1 ≡ client_at made.0 made.1.plan) }
    ensures service { IfOk result (λ made. made.2 ≡ service_at made.0 made.2.plan) }
    ensures place { IfOk result (λ made. place < places_of made.2.plan.areas) }
{
    let plans = plans_of(alloc, text.as_bytes())?;
    if plans.count() == 0 {
        return Err("a stream".into());
    }
    let plan = plans.plan(1);
    if plan.areas().places() <= place {
        return Err("a place".into());
    }
    Ok(make(alloc, plan)?)
}

// Whether a given number of the next actions is answered so.
fn all_are(client: &mut ClientPass, words: &SharedWords, count: u32, answer: Acted) -> bool
    requires { words.now ≡ client.old.table }
    ensures { words.now ≡ client.new.table }
{
    for _ in 0..count {
        if client.act(words) != answer {
            return false;
        }
    }
    true
}

// A note of the next action, where it is a flush.
fn flush(client: &mut ClientPass, words: &SharedWords) -> Option<Note>
    requires { words.now ≡ client.old.table }
    ensures table { words.now ≡ client.new.table }
    ensures note { IfSome result (λ note. note.table ≡ words.now) }
{
    match client.act(words) {
        Acted::AtFlush => Some(client.flush(words)),
        _ => None,
    }
}

// Plays the client of two uploads and its service. Whether all came as it must.
fn upload_twice(words: &SharedWords, client: &mut ClientPass, service: &mut ServicePass) -> bool
    requires client { words.now ≡ client.old.table }
    requires service { service.old ≡ service_at words.now service.old.plan }
    requires place { 32 < places_of service.old.plan.areas }
{
    let stored = all_are(client, words, 14, Acted::Stored);
    let Some(note) = flush(client, words) else {
        return false;
    };
    let waits = client.act(words) == Acted::NotYet;
    service.meet(words, note);
    let first = service.fetch(words, 32);
    service.publish_finish(words);
    let passes = client.act(words) == Acted::Passed;
    let stores = all_are(client, words, 1, Acted::Stored);
    let second = service.fetch(words, 32);
    let more = all_are(client, words, 9, Acted::Stored);
    let flushes = flush(client, words).is_some();
    let ends = client.act(words) == Acted::End;
    let seen = first == 0x4433_2211 && second == 0x8877_6655;
    stored && waits && passes && stores && more && flushes && ends && seen
}

#[test]
fn a_write_is_read_back(rt: HostRuntime) -> Result<(), Fail> {
    let (words, mut client, mut service) = made(rt.alloc(), TWO_UPLOADS, 32)?;
    let came = upload_twice(&words, &mut client, &mut service);
    assert!(rt; came);
    Ok(())
}

// Plays the client that awaits tokens and its service. Whether all came as it must.
fn await_tokens(words: &SharedWords, client: &mut ClientPass, service: &mut ServicePass) -> bool
    requires client { words.now ≡ client.old.table }
    requires service { service.old ≡ service_at words.now service.old.plan }
{
    let blank = client.blank(words);
    let Some(note) = flush(client, words) else {
        return false;
    };
    let none = all_are(client, words, 1, Acted::Passed);
    let early = all_are(client, words, 1, Acted::NotYet);
    service.publish_token(words, 3);
    service.publish_token(words, 1);
    let told = all_are(client, words, 2, Acted::Passed);
    let waits = all_are(client, words, 2, Acted::NotYet);
    service.meet(words, note);
    service.meet(words, blank);
    service.publish_finish(words);
    let passes = all_are(client, words, 1, Acted::Passed);
    let closes = all_are(client, words, 2, Acted::AtClose);
    none && early && told && waits && passes && closes
}

#[test]
fn a_token_that_was_told_does_not_fall(rt: HostRuntime) -> Result<(), Fail> {
    let (words, mut client, mut service) = made(rt.alloc(), TOKENS, 0)?;
    let came = await_tokens(&words, &mut client, &mut service);
    assert!(rt; came);
    Ok(())
}

// A script that puts the numbers from 1 on, each once the token before it was published.
fn relay(alloc: Global) -> Result<String, Fail> {
    let mut text = String::new(alloc);
    text.push_str("gpu-script 1\nstream 1 normal 16\nput 0 1\nflush 1\n")?;
    for round in 1..=ROUNDS {
        let line = format!(in alloc; "token {round}\nput 0 {:x}\n", round + 1)?;
        text.push_str(line.as_str())?;
    }
    Ok(text)
}

// Whether the client comes to its end within its turns.
fn act_all(client: &mut ClientPass, words: &SharedWords) -> bool
    requires { words.now ≡ client.old.table }
{
    for _ in 0..TURNS {
        match client.act(words) {
            Acted::Stored | Acted::Passed => {}
            Acted::NotYet => thread::yield_now(),
            Acted::End => return true,
            Acted::AtFlush | Acted::AtClose => return false,
        }
    }
    false
}

// Whether the service sees each number within its turns, and no number that the client cannot have put: that of the
// greatest token told, or the next one, and never the 0 from before the flush.
fn serve_all(service: &mut ServicePass, words: &SharedWords) -> bool
    requires table { words.now ≡ service.old.table }
    requires place { 0 < places_of service.old.plan.areas }
{
    let mut told = 0;
    for _ in 0..TURNS {
        let value = service.fetch(words, 0);
        if value == told + 1 {
            if told == ROUNDS {
                return true;
            }
            told += 1;
            service.publish_token(words, told);
        } else if value != told || told == 0 {
            return false;
        } else {
            thread::yield_now();
        }
    }
    false
}

// Both threads at work on the same words.
fn race<R: Threads>(
    rt: &R,
    words: &SharedWords,
    client: ClientPass,
    service: ServicePass,
) -> (bool, bool)
    requires client { words.now ≡ client.table }
    requires service { words.now ≡ service.table }
    requires place { 0 < places_of service.plan.areas }
{
    thread::join(
        rt,
        move ||
            requires { words.now ≡ client.table }
        {
            let mut client = client;
            act_all(&mut client, words)
        },
        move ||
            requires { (words.now ≡ service.table) × (0 < places_of service.plan.areas) }
        {
            let mut service = service;
            serve_all(&mut service, words)
        },
    )
}

#[test]
fn each_thread_sees_what_the_other_stores(rt: HostRuntime) -> Result<(), Fail> {
    let text = relay(rt.alloc())?;
    let (words, mut client, mut service) = made(rt.alloc(), text.as_str(), 0)?;
    assert!(rt; client.act(&words) == Acted::Stored);
    let note = flush(&mut client, &words).ok_or("a flush")?;
    service.meet(&words, note);
    let (acted, served) = race(&rt, &words, client, service);
    assert!(rt; acted);
    assert!(rt; served);
    Ok(())
}
