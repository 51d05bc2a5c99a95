ghost use Rattle.std.specs.Prelude.{◌+◌, ◌<◌, ◌≤◌, ◌^◌, length, reverse, IfOk};
ghost use Rattle.verify_input.specs.Reading.{whole_lines};
ghost use Rattle.verify_input.specs.Parts.{before};
ghost use Rattle.verify_input.specs.Found.{Finds};
ghost use Rattle.verify_input.specs.Steps.{FindsOf, FindsIn};

use crate::border::Border;
use crate::cut::cut_at_border;
use crate::fault::JournalFault;
use crate::finding::Finding;
use crate::heading::read_behind_head;
use gpu_journal::Journal;
use gpu_plan::{MOST_BYTES, Plans, ScriptFault, parse};
use gpu_word::Memory;
use journal_verify::{Verdict, verify};
use std::alloc::Global;

// The verdict on events.
fn judge(alloc: Global, plans: &Plans, journal: &Journal) -> Result<Finding, Memory>
    requires { length journal.now.events < 2 ^ 32 }
    ensures { IfOk result
        (λ finding. FindsOf plans.now (reverse journal.now.events) finding) }
{
    match verify(alloc, plans, journal)? {
        Verdict::Yes(images) => Ok(Finding::Yes {
            images,
            events: journal.count() as u32,
        }),
        Verdict::No { event, rule } => Ok(Finding::No { event, rule }),
        Verdict::NotComplete => Ok(Finding::NotComplete),
    }
}

// The verdict on the text after a line `journal`, before which stand a given number of lines of a script.
fn examine_journal(alloc: Global, plans: &Plans, lines: u32, text: &[u8]) -> Result<Finding, Memory>
    requires { lines + 1 + length text.now ≤ MOST_BYTES }
    ensures { IfOk result (λ finding. FindsIn plans.now lines
        (before Border.Journal (whole_lines text.now)) finding) }
{
    let cut = cut_at_border(text, Border::Journal);
    match read_behind_head(alloc, plans, cut.part) {
        Ok(journal) => judge(alloc, plans, &journal),
        Err(JournalFault::Refused { line }) => Ok(Finding::NoJournal {
            line: lines + 1 + line,
        }),
        Err(JournalFault::Memory(memory)) => Err(memory),
    }
}

/// The verdict on an input of at most 16,777,216 bytes: a script, a line whose only word is `journal`, and a journal
/// text, after which the rest of an output may stand.
///
/// The script is looked at first, then the whole journal text, and then its events. No other finding would hold.
pub fn examine(alloc: Global, input: &[u8]) -> Result<Finding, Memory>
    requires { length input.now ≤ MOST_BYTES }
    ensures { IfOk result (λ finding. Finds input.now finding) }
{
    let cut = cut_at_border(input, Border::Script);
    let plans = match parse(alloc, cut.part) {
        Ok(plans) => plans,
        Err(ScriptFault::Refused { line, kind }) => return Ok(Finding::Refused { line, kind }),
        Err(ScriptFault::Memory(memory)) => return Err(memory),
    };
    match cut.rest {
        Some(text) => examine_journal(alloc, &plans, cut.lines, text),
        None => Ok(Finding::NoJournal {
            line: cut.lines + 1,
        }),
    }
}
