ghost use Rattle.std.specs.Prelude.{◌≡◌, ◌+◌, ◌<◌, ◌≤◌, ◌^◌, [], ◌∷◌, length, MatchOption};
ghost use Rattle.verify_input.specs.Reading.{whole_lines};
ghost use Rattle.verify_input.specs.Cuts.{IsFirstLine, IsLine, IsCutAt};
ghost use Rattle.verify_input.specs.Found.{IsFirstOther};

use crate::border::Border;
use script_lines::{Words, cut_at, line_end};

/// A text, cut at the first line that ends a part of the input.
#[derive(Clone, Copy)]
pub(crate) struct Cut<'a> {
    /// What stands before the line, or the whole text where there is none.
    pub(crate) part: &'a [u8],
    /// How many lines these are.
    pub(crate) lines: u32,
    /// What stands after the line.
    pub(crate) rest: Option<&'a [u8]>,
}

// The first line, without its line feed, and what stands after it.
pub(crate) fn first_line(text: &[u8]) -> Option<(&[u8], &[u8])>
    ensures { MatchOption result (text.now ≡ []) (λ cut. IsFirstLine text.now cut.0.now cut.1.now) }
{
    if text.is_empty() {
        return None;
    }
    match line_end(text) {
        Some(end) => Some(cut_at(text, end)),
        None => Some((text, &[])),
    }
}

/// What stands after a line, if that is the first of a text.
pub(crate) fn behind_line<'a>(text: &'a [u8], line: &[u8]) -> Option<&'a [u8]>
    requires { IsLine line.now }
    ensures lines { MatchOption result (IsFirstOther (line.now ∷ []) (whole_lines text.now) 0)
        (λ rest. whole_lines text.now ≡ line.now ∷ whole_lines rest.now) }
    ensures shorter { MatchOption result (0 ≤ length text.now)
        (λ rest. 1 + length rest.now ≤ length text.now) }
{
    text.strip_prefix(line)
}

/// Cuts a text at the first line that ends a part.
pub(crate) fn cut_at_border(text: &[u8], border: Border) -> Cut<'_>
    requires { length text.now < 2 ^ 32 }
    ensures cut { IsCutAt border text.now result }
    ensures shorter { length result.part.now ≤ length text.now }
    ensures few { MatchOption result.rest (result.lines ≤ length text.now)
        (λ rest. result.lines + 1 + length rest.now ≤ length text.now) }
{
    let mut rest = text;
    let mut lines = 0;
    while let Some((line, more)) = first_line(rest) {
        if border.is_end(Words { rest: line }) {
            let (part, _) = text.split_at(text.len() - rest.len());
            return Cut {
                part,
                lines,
                rest: Some(more),
            };
        }
        lines += 1;
        rest = more;
    }
    Cut {
        part: text,
        lines,
        rest: None,
    }
}
