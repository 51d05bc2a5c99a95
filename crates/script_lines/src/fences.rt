ghost use Rattle.std.specs.Prelude.{◌≡◌, length, is_some, OnOk};
ghost use Rattle.script_lines.specs.Text.{words_of};
ghost use Rattle.script_lines.specs.Outcome.{Gives};
ghost use Rattle.script_lines.specs.Said.{pairs_of, triples_of, are_fences, fences_of, flush_said};
ghost use Rattle.script_lines.specs.Mentioned.{fence_said, mentioned_by, mentioned_of, mentioned_behind};

use crate::fault::{Kind, LineError};
use crate::line::{decimal_at, long_decimal_at};
use crate::names::Names;
use crate::text::Words;
use gpu_cmd::Name;
use std::alloc::Global;

// How many words are left.
#[tactic(auto, using(crate::proofs::Few::few_words))]
fn count_words(words: Words<'_>) -> usize
    ensures { result ≡ length (words_of words.entry.rest.now) }
{
    let mut count = 0;
    for _word in words {
        count += 1;
    }
    count
}

// Room is made for a given number.
fn pairs_of(alloc: Global, count: usize, words: Words<'_>) -> Result<Vec<(u32, u64)>, LineError>
    ensures { Gives (λ pairs. pairs.items) result (pairs_of (words_of words.entry.rest.now)) }
{
    let mut words = words;
    let mut pairs = Vec::with_capacity(alloc, count)?;
    loop {
        match words.next() {
            None => return Ok(pairs),
            Some(t) => match words.next() {
                None => return Err(LineError::Refused(Kind::Word)),
                Some(r) => {
                    let target = decimal_at(t)?;
                    let release = long_decimal_at(r)?;
                    pairs.push((target, release))?;
                }
            },
        }
    }
}

// The name and the release that three words say.
#[tactic(auto, unfolding(crate::specs::Mentioned::fence_said))]
fn fence_said(n: &[u8], i: &[u8], r: &[u8]) -> Result<(Name, u64), LineError>
    ensures { Gives (λ said. said) result (fence_said n.now i.now r.now) }
{
    let namespace = decimal_at(n)?;
    let id = long_decimal_at(i)?;
    let release = long_decimal_at(r)?;
    Ok((Name { namespace, id }, release))
}

// Each name is put after those mentioned before, and a fence has its number among them. Room is made for a given number
// of fences.
fn triples_of(
    alloc: Global,
    count: usize,
    names: &mut Names,
    words: Words<'_>,
) -> Result<Vec<(u32, u64)>, LineError>
    ensures said { Gives (λ fences. fences.items) result
        (triples_of (mentioned_by names.old (words_of words.entry.rest.now))
        (words_of words.entry.rest.now)) }
    ensures names { OnOk result
        (names.new ≡ mentioned_by names.old (words_of words.entry.rest.now)) }
{
    let mut words = words;
    let mut fences = Vec::with_capacity(alloc, count)?;
    loop {
        match words.next() {
            None => return Ok(fences),
            Some(n) => match words.next() {
                None => return Err(LineError::Refused(Kind::Word)),
                Some(i) => match words.next() {
                    None => return Err(LineError::Refused(Kind::Word)),
                    Some(r) => {
                        let (name, release) = fence_said(n, i, r)?;
                        let number = names.mention(name)?;
                        fences.push((number, release))?;
                    }
                },
            },
        }
    }
}

// How many fences words make up, where they do.
#[tactic(auto, using(crate::proofs::Groups::pairs_counted, crate::proofs::Groups::triples_counted))]
fn count_fences(version: u32, words: Words<'_>) -> Option<usize>
    ensures { is_some result ≡ are_fences version (words_of words.entry.rest.now) }
{
    let each = if version == 2 { 3 } else { 2 };
    let count = count_words(words);
    if count % each == 0 {
        Some(count / each)
    } else {
        None
    }
}

fn fences_of(
    alloc: Global,
    count: usize,
    version: u32,
    names: &mut Names,
    words: Words<'_>,
) -> Result<Vec<(u32, u64)>, LineError>
    ensures said { Gives (λ fences. fences.items) result
        (fences_of version (mentioned_of version names.old (words_of words.entry.rest.now))
        (words_of words.entry.rest.now)) }
    ensures names { OnOk result
        (names.new ≡ mentioned_of version names.old (words_of words.entry.rest.now)) }
{
    if version == 2 {
        triples_of(alloc, count, names, words)
    } else {
        pairs_of(alloc, count, words)
    }
}

/// The words after `flush`: a put and fences. In version 2 a fence has the number of its name among those mentioned, of
/// which the new ones are put after the others.
#[tactic(auto, unfolding(crate::specs::Said::flush_said, crate::specs::Mentioned::mentioned_behind))]
pub fn flush_said(
    alloc: Global,
    version: u32,
    names: &mut Names,
    mut words: Words<'_>,
) -> Result<(u32, Vec<(u32, u64)>), LineError>
    ensures said { Gives (λ said. (said.0, said.1.items)) result
        (flush_said version (mentioned_behind version names.old (words_of words.entry.rest.now))
        (words_of words.entry.rest.now)) }
    ensures names { OnOk result
        (names.new ≡ mentioned_behind version names.old (words_of words.entry.rest.now)) }
{
    let Some(first) = words.next() else {
        return Err(LineError::Refused(Kind::Word));
    };
    let Some(count) = count_fences(version, words) else {
        return Err(LineError::Refused(Kind::Word));
    };
    let put = decimal_at(first)?;
    let fences = fences_of(alloc, count, version, names, words)?;
    Ok((put, fences))
}
