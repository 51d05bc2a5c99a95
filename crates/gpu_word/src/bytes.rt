ghost use Rattle.std.specs.Prelude.{◌≡◌, ◌+◌, ◌*◌, ◌≤◌, length, take, drop, IfOk};
ghost use Rattle.gpu_word.specs.Bytes.{values_of, bytes_of};

use crate::memory::Memory;
use byteorder::{ByteOrder, LittleEndian};
use std::alloc::Global;

/// How many bytes a word has.
const WORD_BYTES: usize = 4;

// All bytes of the values of some words, the lowest byte of each value first.
fn all_bytes(alloc: Global, words: &[(u32, u32)]) -> Result<Vec<u8>, Memory>
    ensures { IfOk result (λ bytes. bytes.items ≡ bytes_of (values_of words.now)) }
{
    let mut bytes = Vec::with_capacity(alloc, words.len() * WORD_BYTES)?;
    for word in words {
        let mut word_bytes = [0; WORD_BYTES];
        LittleEndian::write_u32(&mut word_bytes, word.1);
        bytes.extend_from_slice(&word_bytes)?;
    }
    Ok(bytes)
}

/// `count` bytes from byte `from` on of the little-endian bytes of the values of words that stand at places.
pub fn bytes_of(
    alloc: Global,
    words: &[(u32, u32)],
    from: usize,
    count: usize,
) -> Result<Vec<u8>, Memory>
    requires { from + count ≤ 4 * length words.now }
    ensures bytes { IfOk result
        (λ bytes. bytes.items ≡ take count (drop from (bytes_of (values_of words.now)))) }
    ensures count { IfOk result (λ bytes. length bytes.items ≡ count) }
{
    let first = from / WORD_BYTES;
    let last = (from + count).div_ceil(WORD_BYTES);
    let mut bytes = all_bytes(alloc, &words[first..last])?;
    if from % WORD_BYTES != 0 {
        bytes.rotate_left(from % WORD_BYTES);
    }
    bytes.truncate(count);
    Ok(bytes)
}
