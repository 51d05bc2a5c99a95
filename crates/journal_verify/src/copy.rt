ghost use Rattle.std.specs.Prelude.{◌≡◌, ◌≢◌, ◌≤◌, Ok};
ghost use Rattle.gpu_cmd.specs.Lawful.{IsLawfulFacts};
ghost use Rattle.gpu_cmd.specs.Checks.{headed};
ghost use Rattle.stream_state.specs.Steps.{header_in};
ghost use Rattle.journal_verify.specs.Copy.{is_row, transfer_read, entries_read, copy_read};

use gpu_cmd::{CmdError, Command, Decoded, Shape, StreamFacts, decode, head};

// The places of the words follow one another from this one on.
fn follow(words: &[(u32, u32)], from: u32) -> bool
    ensures { result ≡ is_row from words.now }
{
    for (index, word) in words.iter().enumerate() {
        if word.0 as usize != from as usize + index {
            return false;
        }
    }
    true
}

// What is after the ring words of a command, by what they say.
fn transfer(
    more: &[(u32, u32)],
    decoding: Result<Decoded, CmdError>,
) -> Option<Result<Command, CmdError>>
    ensures { result ≡ transfer_read more.now decoding }
{
    match decoding {
        Err(error) => {
            if more.is_empty() {
                return Some(Err(error));
            }
            None
        }
        Ok(found) => {
            if more.len() == found.count as usize && follow(more, found.from) {
                return Some(Ok(found.command));
            }
            None
        }
    }
}

// The words of a command whose header has this shape.
fn entries(
    words: &[(u32, u32)],
    facts: &StreamFacts,
    shape: Shape,
) -> Option<Result<Command, CmdError>>
    requires lawful { IsLawfulFacts facts.now }
    requires header { headed (header_in words.now) facts.now ≡ Ok shape }
    requires some { 1 ≤ shape.ring_words }
    ensures { result ≡ entries_read words.now facts.now (Ok shape) }
{
    let ring = shape.ring_words as usize;
    if words.len() < ring {
        return None;
    }
    let (entries, more) = words.split_at(ring);
    if !follow(entries, facts.get) {
        return None;
    }
    transfer(more, decode(entries, facts))
}

/// The verdict of checks 1 to 10 on words, where their places are those to be fetched.
#[tactic(auto, unfolding(crate::specs::Copy::copy_read))]
pub(crate) fn copy(words: &[(u32, u32)], facts: &StreamFacts) -> Option<Result<Command, CmdError>>
    requires lawful { IsLawfulFacts facts.now }
    requires more { facts.now.get ≢ facts.now.put }
    ensures { result ≡ copy_read words.now facts.now }
{
    if facts.put >= facts.areas.ring {
        if words.is_empty() {
            return Some(Err(CmdError::OutOfBounds));
        }
        return None;
    }
    if words.is_empty() || words[0].0 != facts.get {
        return None;
    }
    match head(words[0].1, facts) {
        Ok(shape) => entries(words, facts, shape),
        Err(error) => {
            if words.len() == 1 {
                return Some(Err(error));
            }
            None
        }
    }
}
