//! Batches: commands that are fetched one after the other without the lock.
ghost use Rattle.std.specs.Prelude.{◌≡◌, ◌≢◌, ◌+◌, ◌<◌, ◌^◌, true, false, length, take, slice_index_or, Ok, IfOk, IfErr, IfSome, IfNone};
ghost use Rattle.std.specs.List.{All};
ghost use Rattle.gpu_cmd.specs.Copied.{IsCopy};
ghost use Rattle.gpu_cmd.specs.Lawful.{IsLawfulFacts};
ghost use Rattle.gpu_fetch.specs.Side.{SideFetches, StillBelongs};
ghost use Rattle.gpu_fetch.specs.Fetched.{IsFetched};
ghost use Rattle.house_core.specs.Answers.{further};
ghost use Rattle.gpu_house.specs.Batches.{facts_after, batch_words, AreChained, is_heard, ends_by, EndsExactly, FetchesInPart};

use gpu_cmd::{CmdError, Command, StreamFacts};
use gpu_fetch::{Fetched, FetchedPart, ServiceSide, fetch_onto};
use gpu_word::{Memory, split};
use std::alloc::Global;
use std::marker::Model;
use std::snapshot::Snapshot;

/// How many members a batch has at most.
const MOST_MEMBERS: usize = 64;

/// What a run fetched of commands that follow one another, to be committed under one lock: 1 to 64 of them.
///
/// Seen as what was fetched of each, in order. It ends at the first that is wrong, that a client or another stream may hear of, that
/// may wait, or that is the last of its flush.
#[derive(Drop)]
pub struct Batch {
    list: Vec<(u32, u32)>,
    parts: Vec<FetchedPart>,
}

impl Model for Batch {
    ghost use Rattle.std.specs.Prelude.{◌≡◌, List, length};
    ghost use Rattle.std.specs.List.{All};
    ghost use Rattle.gpu_fetch.specs.Fetched.{FetchedData, IsFetched};
    ghost use Rattle.gpu_fetch.specs.Parts.{words_of_parts, parts_of};
    ghost use Rattle.gpu_house.specs.Batches.{EndsExactly};

    ghost Value = { List FetchedData };

    ghost view = { λ b. parts_of b.list.items b.parts.items };

    ghost invariant = { λ b. (words_of_parts b.parts.items ≡ length b.list.items)
        × EndsExactly (parts_of b.list.items b.parts.items)
        × All IsFetched (parts_of b.list.items b.parts.items) };
}

// Whether the step of a command may be told to a client or to another stream, or may wait.
fn is_heard(command: &Command) -> bool
    ensures { result ≡ is_heard command.now }
{
    match command {
        Command::SetToken { .. }
        | Command::GetBucketStart { .. }
        | Command::GetBucketData { .. }
        | Command::InsertFence { .. }
        | Command::WaitToken { .. }
        | Command::WaitSyncToken { .. } => true,
        Command::Noop
        | Command::SetBucketSize { .. }
        | Command::SetBucketData { .. }
        | Command::SetBucketDataImmediate { .. }
        | Command::CreateImage { .. }
        | Command::DeleteImage { .. }
        | Command::ClearRect { .. }
        | Command::CopyRect { .. }
        | Command::UploadRect { .. }
        | Command::UploadBucket { .. }
        | Command::CreateBuffer { .. }
        | Command::DeleteBuffer { .. }
        | Command::BufferData { .. }
        | Command::UploadBuffer { .. } => false,
    }
}

// The place of the next header, after a command of this size.
fn further(ring: u32, get: u32, size: u32) -> u32
    requires { get + size < 2 ^ 32 }
    ensures { result ≡ further ring get size }
{
    let end = get + size;
    if end == ring { 0 } else { end }
}

// The facts of the command after one that passed its checks on these words.
fn facts_after(facts: &StreamFacts, words: &[(u32, u32)], command: &Command) -> StreamFacts
    requires lawful { IsLawfulFacts facts.now }
    requires copy { IsCopy words.now facts.now (Ok command.now) }
    ensures value { result ≡ facts_after facts.now words.now }
    ensures lawful { IsLawfulFacts result }
{
    let (_, header) = words[0];
    StreamFacts {
        areas: facts.areas,
        get: further(facts.areas.ring, facts.get, split(header).size),
        put: facts.put,
        fetched: facts.fetched + words.len() as u32,
    }
}

// The facts of the member after one with these words, where a batch does not end at that.
fn facts_behind(
    facts: &StreamFacts,
    words: &[(u32, u32)],
    verdict: &Result<Command, CmdError>,
) -> Option<StreamFacts>
    requires lawful { IsLawfulFacts facts.now }
    requires copy { IsCopy words.now facts.now verdict.now }
    ensures none { IfNone result (ends_by verdict.now (facts_after facts.now words.now) ≡ true) }
    ensures goes_on { IfSome result
        (λ _. ends_by verdict.now (facts_after facts.now words.now) ≡ false) }
    ensures some { IfSome result (λ behind. behind ≡ facts_after facts.now words.now) }
    ensures lawful { IfSome result IsLawfulFacts }
    ensures more { IfSome result (λ behind. behind.get ≢ behind.put) }
{
    let Ok(command) = verdict else {
        return None;
    };
    let behind = facts_after(facts, words, command);
    if is_heard(command) || behind.get == behind.put {
        return None;
    }
    Some(behind)
}

impl Batch {
    /// Fetches the commands of a batch, from these facts on. Something is left of the flush.
    ///
    /// # Errors
    ///
    /// `Memory`: the side has fetched the first of the places that must be fetched.
    pub(crate) fn fetch<P: ServiceSide>(
        alloc: Global,
        side: &mut P,
        words: &P::Words,
        facts: &StreamFacts,
    ) -> Result<Batch, Memory>
        requires belongs { P.belongs side.old words.now }
        requires lawful { IsLawfulFacts facts.now }
        requires more { facts.now.get ≢ facts.now.put }
        requires areas { facts.now.areas ≡ (P.side side.old).plan.areas }
        ensures chained { IfOk result (AreChained facts.now) }
        ensures copies { IfOk result (All IsFetched) }
        ensures end { IfOk result EndsExactly }
        ensures fetches { IfOk result
            (λ batch. SideFetches (P.shows words.now) (P.side side.old) (P.side side.new)
            (batch_words batch)) }
        ensures some { IfErr result
            (λ _. FetchesInPart (P.side side.old) (P.side side.new) facts.now) }
        ensures still { StillBelongs P.belongs P.note_belongs words.now side.old side.new }
        ensures table { P.table side.new ≡ P.table side.old }
    {
        let mut list = Vec::new(alloc);
        let mut parts = Vec::new(alloc);
        let mut next = *facts;
        loop {
            let from = list.len();
            let verdict = fetch_onto(side, words, &next, &mut list)?;
            let count = list.len() - from;
            parts.push(FetchedPart {
                count,
                verdict,
                facts: Snapshot::of(&next),
            })?;
            match facts_behind(&next, &list[from..], &verdict) {
                Some(facts) if parts.len() < MOST_MEMBERS => next = facts,
                _ => return Ok(Batch { list, parts }),
            }
        }
    }

    /// How many commands were fetched.
    pub fn count(&self) -> usize
        ensures count { result ≡ length self.now }
        ensures end { EndsExactly self.now }
        ensures copies { All IsFetched self.now }
    {
        self.parts.len()
    }

    // What was fetched of the command at an index, before which there are so many words of others.
    #[inline(always)]
    pub(crate) fn member(&self, index: usize, from: usize) -> Fetched<'_>
        requires within { index < length self.now }
        requires from { from ≡ length (batch_words (take index self.now)) }
        ensures is { result ≡ slice_index_or self.now index result }
        ensures end { from + length result.words < 2 ^ 64 }
    {
        let part = &self.parts[index];
        let words = &self.list[from..from + part.count];
        Fetched::of(words, &part.verdict, &part.facts)
    }
}
