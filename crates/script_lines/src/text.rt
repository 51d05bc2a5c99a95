ghost use Rattle.std.specs.Prelude.{◌≡◌, ◌+◌, ◌<◌, ◌≤◌, length, take, drop, position};
ghost use Rattle.std.specs.Iterator.{YieldsFirstRef, item_count};
ghost use Rattle.script_lines.specs.Text.{lines_of, words_of, ends_line, is_blank};
ghost use Rattle.script_lines.specs.Reading.{CutsFirst};

use memchr::memchr;

/// The lines that are left of a text.
#[derive(Clone, Copy)]
pub struct Lines<'a> {
    pub rest: &'a [u8],
}

/// The words that are left of a line.
#[derive(Clone, Copy)]
pub struct Words<'a> {
    pub rest: &'a [u8],
}

/// The lines of a text, of which there is at most one more than it has bytes.
#[tactic(auto, using(crate::proofs::Cuts::few_lines))]
pub fn all_lines(text: &[u8]) -> Lines<'_>
    ensures rest { result.rest.now ≡ text.now }
    ensures few { length (lines_of text.now) ≤ length text.now + 1 }
{
    Lines { rest: text }
}

/// The place of the first line feed.
#[tactic(auto, using(crate::proofs::Cuts::first_line_feed))]
pub fn line_end(text: &[u8]) -> Option<usize>
    ensures { result ≡ position ends_line text.now }
{
    memchr(b'\n', text)
}

/// Whether a byte is a space, a tab or a carriage return.
pub(crate) fn is_blank(byte: u8) -> bool
    ensures { result ≡ is_blank byte }
{
    byte == b' ' || byte == b'\t' || byte == b'\r'
}

fn word_end(line: &[u8]) -> Option<usize>
    ensures { result ≡ position is_blank line.now }
{
    line.iter().position(|byte| is_blank(*byte))
}

/// What stands before a byte and after it.
pub fn cut_at(bytes: &[u8], at: usize) -> (&[u8], &[u8])
    requires { at < length bytes.now }
    ensures before { result.0.now ≡ take at bytes.now }
    ensures behind { result.1.now ≡ drop (at + 1) bytes.now }
{
    let (front, back) = bytes.split_at(at);
    let (_, rest) = back.split_at(1);
    (front, rest)
}

// The first line of a text and what stands after it.
#[tactic(auto, using(crate::proofs::Cuts::lines_found, crate::proofs::Cuts::lines_last, crate::proofs::Cuts::lines_none))]
fn first_line(text: &[u8]) -> Option<(&[u8], &[u8])>
    ensures { CutsFirst lines_of text.now result }
{
    if text.is_empty() {
        return None;
    }
    match line_end(text) {
        Some(end) => { Some(cut_at(text, end)) }
        None => Some((text, &[])),
    }
}

// The first word of a line and what stands after it.
#[tactic(auto, using(crate::proofs::Cuts::words_found, crate::proofs::Cuts::words_skip, crate::proofs::Cuts::words_last, crate::proofs::Cuts::words_none))]
pub(crate) fn first_word(line: &[u8]) -> Option<(&[u8], &[u8])>
    ensures { CutsFirst words_of line.now result }
{
    let mut left = line;
    while let Some(end) = word_end(left) {
        let (word, rest) = cut_at(left, end);
        if !word.is_empty() {
            return Some((word, rest));
        }
        left = rest;
    }
    if left.is_empty() {
        return None;
    }
    Some((left, &[]))
}

impl<'a> Iterator for Lines<'a> {
    type Item = &'a [u8];

    ghost next_gives = { YieldsFirstRef (λ s. lines_of s.rest.now) };

    ghost remaining = { item_count (λ s. lines_of s.rest.now) };

    fn next(&mut self) -> Option<&'a [u8]> {
        let (line, rest) = first_line(self.rest)?;
        self.rest = rest;
        Some(line)
    }
}

impl<'a> Iterator for Words<'a> {
    type Item = &'a [u8];

    ghost next_gives = { YieldsFirstRef (λ s. words_of s.rest.now) };

    ghost remaining = { item_count (λ s. words_of s.rest.now) };

    fn next(&mut self) -> Option<&'a [u8]> {
        let (word, rest) = first_word(self.rest)?;
        self.rest = rest;
        Some(word)
    }
}
