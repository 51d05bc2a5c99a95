ghost use Rattle.std.specs.Prelude.{◌≡◌, ◌≤◌, ◌<◌, [], true, length, IfOk, OnOk};
ghost use Rattle.std.specs.List.{list_any};
ghost use Rattle.script_lines.specs.Left.{words_left};
ghost use Rattle.gpu_plan.specs.Plans.{IsLawfulScript, actions_in, flushes_in, is_of};
ghost use Rattle.script_lines.specs.Outcome.{Gives};
ghost use Rattle.script_lines.specs.Said.{keyword_of};
ghost use Rattle.script_lines.specs.Mentioned.{mentioned_behind};
ghost use Rattle.gpu_plan.specs.Mentioning.{mentioned_as};
ghost use Rattle.gpu_plan.specs.Adding.{no_stream, streams, may_follow, with_stream, with_memory, with_results, with_puts, with_fill, with_flush, with_finish, with_token, with_close, with_dump, with_keyword, with_line, is_declaring};
ghost use Rattle.gpu_plan.specs.Drafts.{shown, Becomes};

use crate::acting::fresh;
use crate::begun::Begun;
use crate::draft::Draft;
use crate::plan::{Action, Plan};
use crate::spans::spans_with;
use gpu_cmd::{LEAST_RING, MOST_RING, Name};
use script_lines::{
    Keyword, Kind, LineError, Names, Words, fill_begun, fill_said, flush_said, keyword_of,
    none_said, one_said, put_begun, put_said, stream_said, two_said,
};
use std::alloc::{AllocError, Global};
use std::mem::replace;

/// The greatest namespace of a stream's name.
pub const LAST_NAMESPACE: u32 = 255;

/// The most streams of a script.
pub const MOST_STREAMS: usize = 16;

/// A draft without a stream.
pub(crate) fn no_stream(alloc: Global) -> Draft
    ensures { shown result ≡ no_stream }
{
    Draft {
        done: Vec::new(alloc),
        last: None,
        actions: 0,
        flushes: 0,
    }
}

// Whether a stream of this name has a plan.
fn has_plan(plans: &[Plan], name: Name) -> bool
    ensures { result ≡ list_any (is_of name) plans.now }
{
    plans.iter().any(|plan| name == plan.name())
}

// Whether a stream of this name may follow these streams, with a ring of this length.
#[tactic(auto, unfolding(crate::specs::Adding::may_follow))]
fn may_follow(version: u32, before: &[Plan], name: Name, ring: u32) -> Result<(), LineError>
    ensures follows { Gives (λ allowed. tt) result (may_follow version before.now name ring) }
    ensures ring { IfOk result
        (λ allowed. (LEAST_RING ≤ ring) × (ring ≤ MOST_RING) × (length before.now < MOST_STREAMS)) }
{
    if version != 2 && name.id != before.len() as u64 + 1 {
        return Err(LineError::Refused(Kind::Order));
    }
    if has_plan(before, name) {
        return Err(LineError::Refused(Kind::Double));
    }
    let long = ring >= LEAST_RING && ring <= MOST_RING;
    if !long || name.namespace > LAST_NAMESPACE || before.len() >= MOST_STREAMS {
        return Err(LineError::Refused(Kind::Limit));
    }
    Ok(())
}

#[tactic(auto, unfolding(crate::specs::Adding::with_stream))]
fn with_stream(
    alloc: Global,
    version: u32,
    words: Words<'_>,
    draft: Draft,
) -> Result<Draft, LineError>
    ensures { Gives shown result (with_stream version (words_left words.entry) (shown draft)) }
{
    let (name, priority, ring) = stream_said(version, words)?;
    let actions = draft.actions;
    let flushes = draft.flushes;
    let done = streams(draft)?;
    may_follow(version, &done, name, ring)?;
    Ok(Draft {
        done,
        last: Some(Plan::start(alloc, name, priority, ring)?),
        actions,
        flushes,
    })
}

#[tactic(auto, unfolding(crate::specs::Adding::with_memory))]
fn with_memory(words: Words<'_>, draft: Draft) -> Result<Draft, LineError>
    ensures { Gives shown result (with_memory (words_left words.entry) (shown draft)) }
{
    let (memory, count) = two_said(words)?;
    let Begun {
        done,
        plan,
        actions,
        flushes,
    } = fresh(draft)?;
    let areas = *plan.areas();
    let memories = spans_with(areas.ring, &areas.memories, memory, count)?;
    Ok(Draft {
        done,
        last: Some(plan.with_memories(memories)),
        actions,
        flushes,
    })
}

#[tactic(auto, unfolding(crate::specs::Adding::with_results))]
fn with_results(words: Words<'_>, draft: Draft) -> Result<Draft, LineError>
    ensures { Gives shown result (with_results (words_left words.entry) (shown draft)) }
{
    let (memory, count) = two_said(words)?;
    let Begun {
        done,
        plan,
        actions,
        flushes,
    } = fresh(draft)?;
    let areas = *plan.areas();
    let results = spans_with(0, &areas.results, memory, count)?;
    Ok(Draft {
        done,
        last: Some(plan.with_results(results)),
        actions,
        flushes,
    })
}

// The draft with what a line adds that declares a stream or a memory. Such lines are few, so the draft may be moved.
#[inline(never)]
fn with_declared(
    alloc: Global,
    version: u32,
    keyword: Keyword,
    words: Words<'_>,
    draft: Draft,
) -> Result<Draft, LineError>
    requires { is_declaring keyword ≡ true }
    ensures { Gives shown result
        (with_keyword version [] keyword (words_left words.entry) (shown draft)) }
{
    match keyword {
        Keyword::StreamLine => with_stream(alloc, version, words, draft),
        Keyword::MemoryLine => with_memory(words, draft),
        _ => with_results(words, draft),
    }
}

// The line is read once. Where its values are not put, the script is refused, and the line is looked at again for the
// first kind that is wrong with it.
fn add_put_line(words: Words<'_>, draft: &mut Draft) -> Result<(), LineError>
    ensures { Becomes draft.new result (with_puts (words_left words.entry) (shown draft.old)) }
{
    let (place, values) = put_begun(words)?;
    if draft.put(None, place, values)? {
        return Ok(());
    }
    let said = put_said(words)?;
    let kind = draft.put_fault(None, said.place, said.count);
    Err(LineError::Refused(kind))
}

fn add_fill_line(words: Words<'_>, draft: &mut Draft) -> Result<(), LineError>
    ensures { Becomes draft.new result (with_fill (words_left words.entry) (shown draft.old)) }
{
    let (memory, place, values) = fill_begun(words)?;
    if draft.put(Some(memory), place, values)? {
        return Ok(());
    }
    let (memory, said) = fill_said(words)?;
    let kind = draft.put_fault(Some(memory), said.place, said.count);
    Err(LineError::Refused(kind))
}

#[tactic(auto, unfolding(crate::specs::Adding::with_flush, crate::specs::Adding::flushed))]
fn add_flush_line(
    alloc: Global,
    version: u32,
    mentioned: &mut Names,
    words: Words<'_>,
    draft: &mut Draft,
) -> Result<(), LineError>
    ensures said { Becomes draft.new result
        (with_flush version (mentioned_behind version mentioned.old (words_left words.entry))
        (words_left words.entry) (shown draft.old)) }
    ensures mentioned { OnOk result
        (mentioned.new ≡ mentioned_behind version mentioned.old (words_left words.entry)) }
{
    let (put, fences) = flush_said(alloc, version, mentioned, words)?;
    draft.flush(put, fences)
}

#[tactic(auto, unfolding(crate::specs::Adding::with_finish, crate::specs::Adding::with_actions))]
fn add_finish_line(words: Words<'_>, draft: &mut Draft) -> Result<(), LineError>
    ensures { Becomes draft.new result (with_finish (words_left words.entry) (shown draft.old)) }
{
    none_said(words)?;
    draft.act(Action::Finish)
}

#[tactic(auto, unfolding(crate::specs::Adding::with_token, crate::specs::Adding::with_actions))]
fn add_token_line(words: Words<'_>, draft: &mut Draft) -> Result<(), LineError>
    ensures { Becomes draft.new result (with_token (words_left words.entry) (shown draft.old)) }
{
    let token = one_said(words)?;
    draft.act(Action::Token { token })
}

#[tactic(auto, unfolding(crate::specs::Adding::with_close, crate::specs::Adding::with_actions))]
fn add_close_line(words: Words<'_>, draft: &mut Draft) -> Result<(), LineError>
    ensures { Becomes draft.new result (with_close (words_left words.entry) (shown draft.old)) }
{
    none_said(words)?;
    draft.act(Action::Close)
}

#[tactic(auto, unfolding(crate::specs::Adding::with_dump, crate::specs::Adding::dumped))]
fn add_dump_line(words: Words<'_>, draft: &mut Draft) -> Result<(), LineError>
    ensures { Becomes draft.new result (with_dump (words_left words.entry) (shown draft.old)) }
{
    let (memory, index) = two_said(words)?;
    draft.dump(memory, index)
}

/// Adds what a line of this name and these words says. In version 2 a fence has the number of its name among those
/// mentioned, and the new ones go after the others.
#[tactic(auto, unfolding(crate::specs::Adding::with_line))]
pub(crate) fn add_line(
    alloc: Global,
    version: u32,
    mentioned: &mut Names,
    name: &[u8],
    words: Words<'_>,
    draft: &mut Draft,
) -> Result<(), LineError>
    ensures said { Becomes draft.new result
        (with_line version
        (mentioned_as version mentioned.old (keyword_of name.now) (words_left words.entry)) name.now
        (words_left words.entry) (shown draft.old)) }
    ensures mentioned { OnOk result
        (mentioned.new
        ≡ mentioned_as version mentioned.old (keyword_of name.now) (words_left words.entry)) }
{
    let Some(keyword) = keyword_of(name) else {
        return Err(LineError::Refused(Kind::Word));
    };
    match keyword {
        Keyword::StreamLine | Keyword::MemoryLine | Keyword::ResultsLine => {
            let old = replace(draft, no_stream(alloc));
            *draft = with_declared(alloc, version, keyword, words, old)?;
            Ok(())
        }
        Keyword::PutLine => add_put_line(words, draft),
        Keyword::FillLine => add_fill_line(words, draft),
        Keyword::FlushLine => add_flush_line(alloc, version, mentioned, words, draft),
        Keyword::FinishLine => add_finish_line(words, draft),
        Keyword::TokenLine => add_token_line(words, draft),
        Keyword::CloseLine => add_close_line(words, draft),
        Keyword::DumpLine => add_dump_line(words, draft),
    }
}

/// The streams of a draft, in order.
pub(crate) fn streams(draft: Draft) -> Result<Vec<Plan>, AllocError>
    ensures streams { IfOk result (λ plans. plans.items ≡ streams (shown draft)) }
    ensures lawful { IfOk result (λ plans. IsLawfulScript plans.items) }
    ensures counted { IfOk result (λ plans. actions_in plans.items ≡ draft.actions) }
    ensures counted_flushes { IfOk result (λ plans. flushes_in plans.items ≡ draft.flushes) }
{
    let Draft {
        mut done,
        last,
        actions: _,
        flushes: _,
    } = draft;
    if let Some(plan) = last {
        done.push(plan)?;
    }
    Ok(done)
}
