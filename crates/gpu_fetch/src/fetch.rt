ghost use Rattle.std.specs.Prelude.{◌≡◌, ◌≢◌, ◌+◌, ◌≤◌, ◌<◌, ◌^◌, ◌⊎◌, IfOk, IfErr, OnOk};
ghost use Rattle.gpu_cmd.specs.Lawful.{IsLawfulFacts, places_of};
ghost use Rattle.gpu_fetch.specs.Side.{StillBelongs};
ghost use Rattle.gpu_fetch.specs.Fetched.{FetchesCommand, FetchesRow, FetchesRowInPart, FetchesSome, FetchesRows};

use crate::side::ServiceSide;
use gpu_cmd::{CmdError, Command, StreamFacts, decode, head};
use gpu_word::Memory;

// Fetches the words of a given number of places that follow one another, in rising order, and appends them to a list.
#[inline(always)]
fn fetch_row<P: ServiceSide>(
    side: &mut P,
    words: &P::Words,
    list: &mut Vec<(u32, u32)>,
    from: u32,
    count: u32,
) -> Result<(), Memory>
    requires belongs { P.belongs side.old words.now }
    requires within { from + count ≤ places_of (P.side side.old).plan.areas }
    requires few { from + count < 2 ^ 32 }

    ensures row { OnOk result
        (FetchesRow (P.shows words.now) (P.side side.old) (P.side side.new) from count
        list.old.items list.new.items) }
    ensures whole { IfErr result (λ _. P.wants ⊎ (P.side side.new ≡ P.side side.old)) }
    ensures part { IfErr result
        (λ _. FetchesRowInPart (P.side side.old) (P.side side.new) from count) }
    ensures still { StillBelongs P.belongs P.note_belongs words.now side.old side.new }
    ensures table { P.table side.new ≡ P.table side.old }
{
    list.reserve(count as usize)?;
    for place in from..from + count {
        let value = side.fetch(words, place)?;
        list.push_reserved((place, value));
    }
    Ok(())
}

/// Fetches the next command of a stream and adds its words to a list. The answer is the verdict.
/// - The words come in this order, each place once: its header alone, its other ring entries, its transfer words.
/// - The fetch goes as far as the checks let it come. No place is fetched for a put out of range.
///
/// # Errors
///
/// `Memory`: the side fetched the first of the places that must be fetched. Where the side itself never runs out of
/// memory, these are no place, the header's place, or all ring places of the command.
pub fn fetch_onto<P: ServiceSide>(
    side: &mut P,
    words: &P::Words,
    facts: &StreamFacts,
    list: &mut Vec<(u32, u32)>,
) -> Result<Result<Command, CmdError>, Memory>
    requires belongs { P.belongs side.old words.now }
    requires lawful { IsLawfulFacts facts.now }
    requires more { facts.now.get ≢ facts.now.put }
    requires areas { facts.now.areas ≡ (P.side side.old).plan.areas }

    ensures fetches { IfOk result
        (FetchesCommand (P.shows words.now) (P.side side.old) (P.side side.new) facts.now
        list.old.items list.new.items) }
    ensures some { IfErr result (λ _. FetchesSome (P.side side.old) (P.side side.new) facts.now) }
    ensures rows { IfErr result
        (λ _. P.wants ⊎ FetchesRows (P.side side.old) (P.side side.new) facts.now) }
    ensures still { StillBelongs P.belongs P.note_belongs words.now side.old side.new }
    ensures table { P.table side.new ≡ P.table side.old }
{
    if facts.put >= facts.areas.ring {
        return Ok(Err(CmdError::OutOfBounds));
    }
    let from = list.len();
    let entry = side.fetch(words, facts.get)?;
    let shape = match head(entry, facts) {
        Ok(shape) => shape,
        Err(error) => {
            list.push((facts.get, entry))?;
            return Ok(Err(error));
        }
    };
    list.reserve(shape.ring_words as usize)?;
    list.push_reserved((facts.get, entry));
    fetch_row(side, words, list, facts.get + 1, shape.ring_words - 1)?;
    match decode(&list[from..], facts) {
        Ok(found) => {
            fetch_row(side, words, list, found.from, found.count)?;
            Ok(Ok(found.command))
        }
        Err(error) => Ok(Err(error)),
    }
}
