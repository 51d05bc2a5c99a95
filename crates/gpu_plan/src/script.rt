ghost use Rattle.std.specs.Prelude.{◌≡◌, ◌+◌, ◌<◌, ◌^◌, length, map, IfSome, OnOk};
ghost use Rattle.script_lines.specs.Text.{lines_of, words_of};
ghost use Rattle.script_lines.specs.Outcome.{GivesScript};
ghost use Rattle.script_lines.specs.Naming.{fence_names};
ghost use Rattle.gpu_plan.specs.Mentioning.{mentioned_on};
ghost use Rattle.gpu_plan.specs.Script.{is_remark, is_skipped, version_named, version_of, numbered, from_body, from_version, from_head, script_of};
ghost use Rattle.gpu_plan.specs.Named.{IsVersion};
ghost use Rattle.gpu_plan.specs.Adding.{no_stream};
ghost use Rattle.gpu_plan.specs.Drafts.{shown};

use crate::adding::{add_line, no_stream};
use crate::draft::Draft;
use crate::plan::Plans;
use crate::renumbering::whole;
use gpu_word::Memory;
use script_lines::{Kind, LineError, Lines, Names, ScriptFault, Words, all_lines};
use std::alloc::Global;

/// The most bytes of a script, and of each input but one with a whole output.
pub const MOST_BYTES: usize = 16_777_216;

fn is_remark(word: &[u8]) -> bool
    ensures { result ≡ is_remark word.now }
{
    matches!(word, [b'#', ..])
}

fn is_skipped(mut words: Words<'_>) -> bool
    ensures { result ≡ is_skipped (words_of words.entry.rest.now) }
{
    match words.next() {
        Some(name) => is_remark(name),
        None => true,
    }
}

fn version_named(word: &[u8]) -> Option<u32>
    ensures named { result ≡ version_named word.now }
    ensures known { IfSome result IsVersion }
{
    if word == b"1".as_slice() {
        Some(1)
    } else if word == b"2".as_slice() {
        Some(2)
    } else {
        None
    }
}

fn version_of(mut words: Words<'_>) -> Option<u32>
    ensures said { result ≡ version_of (words_of words.entry.rest.now) }
    ensures known { IfSome result IsVersion }
{
    let (Some(name), Some(version), None) = (words.next(), words.next(), words.next()) else {
        return None;
    };
    if name != b"gpu-script".as_slice() {
        return None;
    }
    version_named(version)
}

// What the line of this number does to the draft.
#[tactic(auto, unfolding(crate::specs::Script::numbered, crate::specs::Mentioning::mentioned_on))]
fn add_numbered(
    alloc: Global,
    version: u32,
    mentioned: &mut Names,
    number: u32,
    line: &[u8],
    draft: &mut Draft,
) -> Result<(), ScriptFault>
    ensures said { GivesScript (λ done. shown draft.new) result
        (numbered version (mentioned_on version mentioned.old (words_of line.now)) number
        (words_of line.now) (shown draft.old)) }
    ensures mentioned { OnOk result
        (mentioned.new ≡ mentioned_on version mentioned.old (words_of line.now)) }
{
    let mut words = Words { rest: line };
    let Some(name) = words.next() else {
        return Ok(());
    };
    if is_remark(name) {
        return Ok(());
    }
    match add_line(alloc, version, mentioned, name, words, draft) {
        Ok(()) => Ok(()),
        Err(LineError::Refused(kind)) => Err(ScriptFault::Refused { line: number, kind }),
        Err(LineError::Memory(memory)) => Err(ScriptFault::Memory(memory)),
    }
}

// The plans of the lines after the head line, the first of which has this number.
fn from_body(
    alloc: Global,
    version: u32,
    first: u32,
    lines: Lines<'_>,
) -> Result<Plans, ScriptFault>
    requires known { IsVersion version }
    requires long { first + length (lines_of lines.rest.now) < 2 ^ 32 }
    ensures { GivesScript (λ plans. plans) result
        (from_body version
        (fence_names version (map words_of (lines_of lines.entry.rest.now))) first no_stream
        (map words_of (lines_of lines.entry.rest.now))) }
{
    let mut mentioned = Names::new(alloc);
    let mut number = first;
    let mut draft = no_stream(alloc);
    for line in lines {
        add_numbered(alloc, version, &mut mentioned, number, line, &mut draft)?;
        number += 1;
    }
    match whole(alloc, version, &mentioned, draft) {
        Ok(plans) => Ok(plans),
        Err(error) => Err(ScriptFault::Memory(Memory::from(error))),
    }
}

// The plans of the lines after a line of this number, which says this version or is no head line.
#[tactic(auto, unfolding(crate::specs::Script::from_version))]
fn from_version(
    alloc: Global,
    version: Option<u32>,
    number: u32,
    lines: Lines<'_>,
) -> Result<Plans, ScriptFault>
    requires known { IfSome version IsVersion }
    requires long { number + 1 + length (lines_of lines.rest.now) < 2 ^ 32 }
    ensures { GivesScript (λ plans. plans) result
        (from_version version number (map words_of (lines_of lines.entry.rest.now))) }
{
    let Some(version) = version else {
        return Err(ScriptFault::Refused {
            line: number,
            kind: Kind::Head,
        });
    };
    from_body(alloc, version, number + 1, lines)
}

// The plans of a text.
fn from_head(alloc: Global, text: Lines<'_>) -> Result<Plans, ScriptFault>
    requires { 1 + length (lines_of text.rest.now) < 2 ^ 32 }
    ensures { GivesScript (λ plans. plans) result
        (from_head 1 (map words_of (lines_of text.entry.rest.now))) }
{
    let mut lines = text;
    let mut number = 1;
    loop {
        match lines.next() {
            None => {
                return Err(ScriptFault::Refused {
                    line: number,
                    kind: Kind::Head,
                });
            }
            Some(line) => {
                let words = Words { rest: line };
                if !is_skipped(words) {
                    return from_version(alloc, version_of(words), number, lines);
                }
                number += 1;
            }
        }
    }
}

/// The plans that a script says, or its first bad line with its first kind. Its lines are counted in 32 bits.
#[tactic(auto, unfolding(crate::specs::Script::script_of))]
pub fn parse(alloc: Global, text: &[u8]) -> Result<Plans, ScriptFault>
    requires { length text.now < 2 ^ 31 }
    ensures { GivesScript (λ plans. plans) result (script_of text.now) }
{
    from_head(alloc, all_lines(text))
}
