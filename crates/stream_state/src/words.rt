//! The words of a step: its ring words, the header first, and then its transfer words.
ghost use Rattle.std.specs.Prelude.{◌≡◌, ◌-◌, ◌*◌, ◌%◌, ◌≤◌, ◌<◌, length, IfOk};
ghost use Rattle.gpu_word.specs.declared.format.Format.TheVariants.{Rgba8};
ghost use Rattle.gpu_store.specs.Conversion.{texels_of};
ghost use Rattle.stream_state.specs.Accepted.{HasTransfer};
ghost use Rattle.stream_state.specs.Steps.{ring_words_in, transfer_bytes, immediate_bytes};

use gpu_store::{Texels, unpack_words};
use gpu_word::{Memory, bytes_of, split};
use std::alloc::Global;

/// How many bytes a word has.
const WORD_BYTES: u32 = 4;

/// The ring words before the data entries of SetBucketDataImmediate: the header and three arguments.
const WORDS_BEFORE_DATA: usize = 4;

// How many of the words are ring words: of a Noop, whose id is 0, its header alone.
fn ring_words(words: &[(u32, u32)]) -> usize
    requires { 0 < length words.now }
    ensures { result ≡ ring_words_in words.now }
{
    let header = split(words[0].1);
    if header.id == 0 {
        1
    } else {
        header.size as usize
    }
}

/// A given number of bytes of the transfer words of a step, which begin with the word that the offset lies in.
#[tactic(auto, unfolding(crate::specs::Steps::transfer_bytes))]
pub fn transfer_bytes(
    alloc: Global,
    words: &[(u32, u32)],
    offset: u32,
    count: u128,
) -> Result<Vec<u8>, Memory>
    requires { HasTransfer words.now offset count }
    ensures bytes { IfOk result (λ bytes. bytes.items ≡ transfer_bytes words.now offset count) }
    ensures count { IfOk result (λ bytes. length bytes.items ≡ count) }
{
    if count == 0 {
        return Ok(Vec::new(alloc));
    }
    let (_, transfer) = words.split_at(ring_words(words));
    bytes_of(
        alloc,
        transfer,
        (offset % WORD_BYTES) as usize,
        count as usize,
    )
}

/// The texels whose bytes are a given number of bytes of the transfer words of a step, from the start of the first word on, four
/// for each texel.
pub fn transfer_texels(alloc: Global, words: &[(u32, u32)], count: u128) -> Result<Texels, Memory>
    requires transfer { HasTransfer words.now 0 count }
    requires whole { count % 4 ≡ 0 }
    ensures texels { IfOk result
        (λ texels. texels ≡ texels_of Rgba8 (transfer_bytes words.now 0 count)) }
    ensures count { IfOk result (λ texels. 4 * length texels ≡ count) }
{
    if count == 0 {
        return Ok(Texels::of(Vec::new(alloc)));
    }
    let (_, transfer) = words.split_at(ring_words(words));
    let (front, _) = transfer.split_at(count as usize / 4);
    unpack_words(alloc, front)
}

/// The first bytes of the data entries of a SetBucketDataImmediate.
#[tactic(auto, unfolding(crate::specs::Steps::immediate_bytes))]
pub fn immediate_bytes(alloc: Global, words: &[(u32, u32)], count: usize) -> Result<Vec<u8>, Memory>
    requires { count ≤ 4 * (length words.now - 4) }
    ensures bytes { IfOk result (λ bytes. bytes.items ≡ immediate_bytes words.now count) }
    ensures count { IfOk result (λ bytes. length bytes.items ≡ count) }
{
    let (_, data) = words.split_at(words.len().min(WORDS_BEFORE_DATA));
    bytes_of(alloc, data, 0, count)
}
