//! A whole output: the names, the journal, and all lines after it.
ghost use Rattle.std.specs.Prelude.{◌≡◌, ℕ, ◌+◌, ◌<◌, ◌≤◌, ◌^◌, List, length, drop, reverse, IfOk};
ghost use Rattle.verify_input.specs.Reading.{whole_lines};
ghost use Rattle.verify_input.specs.Due.{dues};
ghost use Rattle.verify_input.specs.Taking.{IsHistory, JudgesAll, past_of};
ghost use Rattle.verify_input.specs.Whole.{IsAfterScript, FindsAll, FindsWhole};

use crate::border::Border;
use crate::cut::cut_at_border;
use crate::fault::JournalFault;
use crate::finding::Finding;
use crate::looks::view_lines;
use crate::reading::read_journal;
use crate::rest::{Bad, MOST_WHOLE_BYTES, Rest};
use crate::sections::{History, take_dumps, take_images, take_names, take_viewers};
use crate::what::What;
use gpu_journal::Journal;
use gpu_plan::{Plans, ScriptFault, parse};
use gpu_word::Memory;
use journal_text::{MarkLines, Sheet, StreamLines};
use journal_verify::{Ruling, ends_of, follow};
use live_view::MOST_VIEWERS;
use std::alloc::Global;

// Judges all lines after the journal.
fn take_rest(
    alloc: Global,
    rest: &mut Rest<'_>,
    sheet: &mut Sheet,
    history: History<'_>,
    viewers: u32,
) -> Result<(), Bad>
    requires history { IsHistory history }
    requires few { viewers ≤ MOST_VIEWERS }
    ensures { JudgesAll history.entry.plans.now (past_of history.entry)
        (dues history.entry.plans.now history.entry.base (past_of history.entry) viewers) rest.old result }
{
    take_images(rest, sheet, history.followed.images())?;
    rest.take_all(sheet, &StreamLines::of(&history), What::Stream)?;
    rest.take_all(sheet, &MarkLines::of(&history), What::Mark)?;
    take_dumps(rest, sheet, history)?;
    take_viewers(alloc, rest, sheet, history, viewers)?;
    rest.end()
}

// The verdict on events and on the lines after them.
fn judge_all(
    alloc: Global,
    plans: &Plans,
    journal: &Journal,
    rest: Rest<'_>,
    sheet: &mut Sheet,
    base: u32,
) -> Result<Finding, Memory>
    requires { length journal.now.events < 2 ^ 32 }
    ensures { IfOk result (λ finding. FindsAll plans.now base (reverse journal.now.events)
        (whole_lines rest.entry.text.now) rest.entry.line finding) }
{
    let mut rest = rest;
    let views = view_lines(alloc, rest.text)?;
    let ends = ends_of(alloc, plans.count(), journal)?;
    let followed = match follow(alloc, plans, journal, &views.events)? {
        Ruling::Whole(followed) => followed,
        Ruling::No { event, rule } => return Ok(Finding::No { event, rule }),
        Ruling::NotComplete => return Ok(Finding::NotComplete),
    };
    let history = History {
        plans,
        base,
        journal,
        followed: &followed,
        ends: ends.as_slice(),
    };
    match take_rest(alloc, &mut rest, sheet, history, views.viewers) {
        Ok(()) => Ok(Finding::Yes {
            images: followed.into_images(),
            events: journal.count() as u32,
        }),
        Err(Bad::Off { line, what }) => Ok(Finding::Differs { line, what }),
        Err(Bad::Memory(memory)) => Err(memory),
    }
}

// What is left after a part, which has this number of lines.
fn after_part<'a>(rest: Rest<'a>, part: &[u8], lines: u32) -> Rest<'a>
    requires part { length part.now ≤ length rest.text.now }
    requires lines { lines ≤ length part.now }
    ensures text { result.text.now ≡ drop (length part.now) rest.entry.text.now }
    ensures line { result.line ≡ rest.entry.line + lines }
{
    let (_, text) = rest.text.split_at(part.len());
    Rest {
        text,
        line: rest.line + lines,
    }
}

// The verdict on the text after a line `journal`, before which stand a given number of lines of a script.
fn examine_output(
    alloc: Global,
    plans: &Plans,
    lines: u32,
    text: &[u8],
    base: u32,
) -> Result<Finding, Memory>
    requires { lines + 1 + length text.now ≤ MOST_WHOLE_BYTES }
    ensures { (input : List ℕ) → IsAfterScript input plans.now lines (whole_lines text.now)
        → IfOk result (λ finding. FindsWhole base input finding) }
{
    let mut sheet = Sheet::make(alloc, 0)?;
    let mut rest = Rest {
        text,
        line: lines + 2,
    };
    match take_names(&mut rest, &mut sheet, plans) {
        Ok(()) => {}
        Err(Bad::Off { line, what }) => return Ok(Finding::Differs { line, what }),
        Err(Bad::Memory(memory)) => return Err(memory),
    }
    let cut = cut_at_border(rest.text, Border::Journal);
    let journal = match read_journal(alloc, cut.part) {
        Ok(journal) => journal,
        Err(JournalFault::Refused { line }) => {
            return Ok(Finding::NoJournal {
                line: rest.line - 1 + line,
            });
        }
        Err(JournalFault::Memory(memory)) => return Err(memory),
    };
    let after = after_part(rest, cut.part, cut.lines);
    judge_all(alloc, plans, &journal, after, &mut sheet, base)
}

/// The verdict on an input of at most 67,108,864 bytes: a script, a line whose only word is `journal`, and a whole output with
/// marks over a base.
///
/// The script is looked at first, then the names, then the whole journal text, its events, and the lines after them.
pub fn examine_whole(alloc: Global, input: &[u8], base: u32) -> Result<Finding, Memory>
    requires { length input.now ≤ MOST_WHOLE_BYTES }
    ensures { IfOk result (λ finding. FindsWhole base input.now finding) }
{
    let cut = cut_at_border(input, Border::Script);
    let plans = match parse(alloc, cut.part) {
        Ok(plans) => plans,
        Err(ScriptFault::Refused { line, kind }) => return Ok(Finding::Refused { line, kind }),
        Err(ScriptFault::Memory(memory)) => return Err(memory),
    };
    match cut.rest {
        Some(text) => examine_output(alloc, &plans, cut.lines, text, base),
        None => Ok(Finding::NoJournal {
            line: cut.lines + 1,
        }),
    }
}
