ghost use Rattle.std.specs.Prelude.{◌≡◌, ◌≢◌, ◌+◌, ◌<◌, ◌≤◌, IfOk};
ghost use Rattle.gpu_word.specs.Header.{size_of, id_of};
ghost use Rattle.gpu_cmd.specs.Lawful.{IsLawfulFacts, room};
ghost use Rattle.gpu_cmd.specs.Checks.{headed};

use crate::error::CmdError;
use crate::facts::{MOST_FETCHED, StreamFacts};
use crate::table::{fits, ring_words};
use gpu_word::split;

/// What a header says that passed checks 1 to 5.
#[derive(Clone, Copy)]
pub struct Shape {
    /// Which command it is.
    pub id: u32,
    /// How many ring entries the command takes, its header among them.
    pub size: u32,
    /// How many of its entries are fetched: of a Noop its header alone, of every other command all.
    pub ring_words: u32,
}

/// The checks on a header alone, in order: that the size is not 0, that it fits the room, that a command has the id,
/// that the size fits the id, and that the stream's quota holds with the command's ring words.
#[tactic(auto, unfolding(crate::specs::Checks::headed))]
#[inline(always)]
pub fn head(entry: u32, facts: &StreamFacts) -> Result<Shape, CmdError>
    requires lawful { IsLawfulFacts facts.now }
    requires put { facts.now.put < facts.now.areas.ring }
    requires more { facts.now.get ≢ facts.now.put }

    ensures verdict { result ≡ headed entry facts.now }
    ensures header { IfOk result
        (λ shape. (shape.id ≡ id_of entry) × (shape.size ≡ size_of entry)) }
    ensures some { IfOk result (λ shape. 1 ≤ shape.ring_words) }
    ensures fetched { IfOk result (λ shape. shape.ring_words ≤ shape.size) }
    ensures room { IfOk result (λ shape. shape.size ≤ room facts.now) }
    ensures quota { IfOk result (λ shape. facts.now.fetched + shape.ring_words ≤ MOST_FETCHED) }
    ensures within { IfOk result (λ shape. facts.now.get + shape.size ≤ facts.now.areas.ring) }
{
    let header = split(entry);
    if header.size == 0 {
        return Err(CmdError::InvalidSize);
    }
    if header.size > facts.room() {
        return Err(CmdError::OutOfBounds);
    }
    let Some(fits) = fits(header.id, header.size) else {
        return Err(CmdError::UnknownCommand);
    };
    if !fits {
        return Err(CmdError::InvalidArguments);
    }
    let ring_words = ring_words(header.id, header.size);
    if u64::from(facts.fetched) + u64::from(ring_words) > MOST_FETCHED {
        return Err(CmdError::Quota);
    }
    Ok(Shape {
        id: header.id,
        size: header.size,
        ring_words,
    })
}
