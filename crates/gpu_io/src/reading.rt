ghost use Rattle.std.specs.Prelude.{◌≡◌, ◌<◌, ◌^◌, length, vec_len, IfOk};
ghost use Rattle.gpu_io.specs.declared.reading.ReadError.TheVariants.{Fault, Memory};
ghost use Rattle.gpu_word.specs.Refused.{refused};
ghost use Rattle.gpu_io.specs.Whole.{ReadsWithin};

use crate::failed::Failed;
use crate::source::Source;
use gpu_word::Memory;
use std::alloc::{AllocError, Global};

/// How many bytes are asked for at once.
const PIECE_BYTES: usize = 65_536;

/// Why an input was not read to its end.
#[derive(Drop)]
pub enum ReadError {
    /// A read failed, before the input was too long.
    Fault,
    /// The input has more bytes than are allowed.
    TooLong,
    /// Out of memory.
    Memory(Memory),
}

impl From<Failed> for ReadError {
    ghost from_gives = { λ _ error. error ≡ Fault };

    fn from(_error: Failed) -> ReadError {
        ReadError::Fault
    }
}

impl From<AllocError> for ReadError {
    ghost from_gives = { λ _ error. error ≡ Memory refused };

    fn from(error: AllocError) -> ReadError {
        ReadError::Memory(Memory::from(error))
    }
}

// A given number of zero bytes.
fn zeros(alloc: Global, count: usize) -> Result<Vec<u8>, AllocError>
    ensures { IfOk result (λ bytes. vec_len bytes ≡ count) }
{
    vec![in alloc; 0u8; count]
}

/// All bytes that a source has left, where they are at most `most`, read by way of `piece`.
///
/// Reading stops at the first fault and at the first byte past the limit, whichever comes first.
#[tactic(auto, using(crate::proofs::Told::all_told, crate::proofs::Told::more_told))]
pub fn read_within<S: Source>(
    alloc: Global,
    source: &mut S,
    most: usize,
    piece: &mut [u8],
) -> Result<Vec<u8>, ReadError>
    requires some { 0 < length piece.old }
    requires limit { most < 2 ^ 63 }
    ensures { ReadsWithin most (S.left source.old) (S.left source.new)
        (S.faults source.old) (S.faults source.new) result }
{
    let mut bytes = Vec::new(alloc);
    loop {
        let room = (most - bytes.len() + 1).min(piece.len());
        let count = source.read(&mut piece[..room])?;
        if count == 0 {
            return Ok(bytes);
        }
        bytes.extend_from_slice(&piece[..count])?;
        if bytes.len() > most {
            return Err(ReadError::TooLong);
        }
    }
}

/// All bytes that a source has left, where they are at most `most`.
pub fn read_all<S: Source>(alloc: Global, source: &mut S, most: usize) -> Result<Vec<u8>, ReadError>
    requires { most < 2 ^ 63 }
    ensures { ReadsWithin most (S.left source.old) (S.left source.new)
        (S.faults source.old) (S.faults source.new) result }
{
    let mut piece = zeros(alloc, PIECE_BYTES)?;
    read_within(alloc, source, most, &mut piece)
}
