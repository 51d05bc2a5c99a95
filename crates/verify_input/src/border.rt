ghost use Rattle.std.specs.Prelude.{◌≡◌, false, bytes_eq, IsTrue};
ghost use Rattle.std.specs.List.{list_any};
ghost use Rattle.script_lines.specs.Text.{words_of};
ghost use Rattle.verify_input.specs.Parts.{is_journal, part_words, begins_part, is_end};

use script_lines::Words;

/// Where a part of the input ends.
#[derive(Clone, Copy)]
pub(crate) enum Border {
    /// The script ends before the line `journal`.
    Script,
    /// The journal text ends before the next part of an output.
    Journal,
}

// Whether the only word is `journal`.
fn is_journal(mut words: Words<'_>) -> bool
    ensures { result ≡ is_journal (words_of words.entry.rest.now) }
{
    match (words.next(), words.next()) {
        (Some(word), None) => word == b"journal".as_slice(),
        _ => false,
    }
}

// Whether a word is the first of another part of an output.
fn is_part(word: &[u8]) -> bool
    ensures { result ≡ list_any (bytes_eq word.now) part_words }
{
    word == b"image".as_slice()
        || word == b"stream".as_slice()
        || word == b"mark".as_slice()
        || word == b"dump".as_slice()
        || word == b"view".as_slice()
}

// Whether another part of an output begins with these words.
fn begins_part(mut words: Words<'_>) -> bool
    ensures { result ≡ begins_part (words_of words.entry.rest.now) }
{
    match words.next() {
        Some(word) => is_part(word),
        None => false,
    }
}

// Whether a line begins as that of a put, a fill, a flush or a finish does, which most lines of a script are.
#[tactic(auto, using(crate::proofs::Firsts::p_line, crate::proofs::Firsts::f_line))]
fn is_action(line: &[u8]) -> bool
    ensures { IsTrue result → is_journal (words_of line.now) ≡ false }
{
    !line.is_empty() && (line[0] == b'p' || line[0] == b'f')
}

// Whether a line begins as that of a step, an order or a finish does, which most lines of a journal text are.
#[tactic(auto, using(crate::proofs::Firsts::step_line, crate::proofs::Firsts::order_line, crate::proofs::Firsts::finish_line))]
fn is_event(line: &[u8]) -> bool
    ensures { IsTrue result → begins_part (words_of line.now) ≡ false }
{
    if line.len() <= 2 {
        return false;
    }
    if line[0] == b's' {
        return line[1] == b't' && line[2] == b'e';
    }
    line[0] == b'o' || line[0] == b'f'
}

impl Border {
    /// Whether a line with these words ends the part. A line that begins as most do is not cut into words.
    pub(crate) fn is_end(self, words: Words<'_>) -> bool
        ensures { result ≡ is_end self (words_of words.entry.rest.now) }
    {
        match self {
            Border::Script => !is_action(words.rest) && is_journal(words),
            Border::Journal => !is_event(words.rest) && begins_part(words),
        }
    }
}
