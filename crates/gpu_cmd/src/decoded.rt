ghost use Rattle.std.specs.Prelude.{◌≡◌, ◌+◌, ◌<◌, ◌≤◌, ◌^◌, IfOk, IsOkAnd, length, slice_index};
ghost use Rattle.gpu_word.specs.Bytes.{values_of};
ghost use Rattle.gpu_cmd.specs.Lawful.{IsLawfulFacts, places_of};
ghost use Rattle.gpu_cmd.specs.Checks.{headed, checked, decoded};

use crate::command::Command;
use crate::error::CmdError;
use crate::facts::{MOST_FETCHED, StreamFacts};
use crate::table;
use gpu_word::split;

/// A command that passed checks 1 to 10, and the transfer places that it still needs.
#[derive(Clone, Copy)]
pub struct Decoded {
    /// The command.
    pub command: Command,
    /// The first transfer place, or 0 where none is needed.
    pub from: u32,
    /// How many transfer places.
    pub count: u32,
}

// Checks 6 to 10 on a command with a given number of ring words.
#[tactic(auto, unfolding(crate::specs::Checks::checked))]
#[inline(always)]
fn checked(ring_words: usize, command: Command, facts: &StreamFacts) -> Result<Decoded, CmdError>
    requires lawful { IsLawfulFacts facts.now }
    requires few { ring_words < 2 ^ 21 }

    ensures verdict { result ≡ checked ring_words command facts.now }
    ensures none { IfOk result (λ found. found.count ≡ 0 → found.from ≡ 0) }
    ensures transfer { IfOk result (λ found. 0 < found.count → facts.now.areas.ring ≤ found.from) }
    ensures places { IfOk result (λ found. found.from + found.count ≤ places_of facts.now.areas) }
    ensures quota { IfOk result
        (λ found. facts.now.fetched + ring_words + found.count ≤ MOST_FETCHED) }
{
    if !command.has_arguments(ring_words) {
        return Err(CmdError::InvalidArguments);
    }
    if !command.has_memories(&facts.areas) {
        return Err(CmdError::OutOfBounds);
    }
    let places = command.transfer_places(&facts.areas);
    let fetched = u64::from(facts.fetched) + ring_words as u64 + u64::from(places.count);
    if fetched > MOST_FETCHED {
        return Err(CmdError::Quota);
    }
    Ok(Decoded {
        command,
        from: places.from,
        count: places.count,
    })
}

/// The checks on all ring words of a command whose header passed `head`, in order:
/// - its format is one
/// - its bucket or buffer and their size are
/// - its data and its offsets into result memories are
/// - its memories hold what it reads and writes
/// - the stream's quota holds with its transfer words too
#[inline(always)]
pub fn decode(words: &[(u32, u32)], facts: &StreamFacts) -> Result<Decoded, CmdError>
    requires lawful { IsLawfulFacts facts.now }
    requires head { IsOkAnd (headed (slice_index (values_of words.now) 0) facts.now)
        (λ shape. length words.now ≡ shape.ring_words) }

    ensures verdict { result ≡ decoded (values_of words.now) facts.now }
    ensures none { IfOk result (λ found. found.count ≡ 0 → found.from ≡ 0) }
    ensures transfer { IfOk result (λ found. 0 < found.count → facts.now.areas.ring ≤ found.from) }
    ensures places { IfOk result (λ found. found.from + found.count ≤ places_of facts.now.areas) }
    ensures quota { IfOk result
        (λ found. facts.now.fetched + length words.now + found.count ≤ MOST_FETCHED) }
{
    let command = table::command(split(words[0].1).id, words);
    checked(words.len(), command, facts)
}
