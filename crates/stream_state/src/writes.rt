ghost use Rattle.std.specs.Option.{option_map_or};
ghost use Rattle.std.specs.Prelude.{◌≡◌, ◌==◌, ◌++◌, ℕ, false, take, drop, slice_get, ◌+◌, ◌/◌, ◌<◌, ◌≤◌, ◌^◌, length, slice_index, IfOk, OnOk};
ghost use Rattle.stream_state.specs.Writes.{word_from, words_written, with_write};

use gpu_word::Memory;
use std::alloc::Global;
use std::marker::Model;

/// How many bytes a word has.
const WORD_BYTES: usize = 4;

/// What a step writes to result places: pairs of a place and a value, in rising order of place.
#[derive(Drop)]
pub struct Writes {
    items: Vec<(u32, u32)>,
}

impl Model for Writes {
    ghost use Rattle.std.specs.Prelude.{ℕ, List};

    ghost Value = { List (ℕ × ℕ) };

    ghost view = { λ writes. writes.items.items };
}

// A byte, or 0 past the end.
fn byte_at(bytes: &[u8], at: usize) -> u32
    ensures value { result ≡ slice_index bytes.now at }
    ensures small { result < 256 }
{
    u32::from(bytes.get(at).copied().unwrap_or(0))
}

// The little-endian word of four bytes; those past the end count as 0.
fn word_from(bytes: &[u8], at: usize) -> u32
    requires { at < length bytes.now }
    ensures { result ≡ word_from bytes.now at }
{
    byte_at(bytes, at)
        + (byte_at(bytes, at + 1) << 8)
        + (byte_at(bytes, at + 2) << 16)
        + (byte_at(bytes, at + 3) << 24)
}

// The index of the first write at a place or above it, or how many writes there are.
fn index_of(writes: &[(u32, u32)], place: u32) -> usize
    ensures within { result ≤ length writes.now }
    ensures behind { (value : ℕ) → with_write (place, value) writes.now
        ≡ take result writes.now ++ with_write (place, value) (drop result writes.now) }
    ensures first { (write : ℕ × ℕ) → slice_get writes.now result ≡ Some write → place ≤ write.0 }
{
    for (i, write) in writes.iter().enumerate() {
        if place <= write.0 {
            return i;
        }
    }
    writes.len()
}

// Whether a place is written at an index.
fn is_at(writes: &[(u32, u32)], index: usize, place: u32) -> bool
    ensures { result ≡ option_map_or (λ (write : ℕ × ℕ). write.0 == place)
        (slice_get writes.now index) false }
{
    match writes.get(index) {
        Some(write) => write.0 == place,
        None => false,
    }
}

impl Writes {
    /// Bytes as whole words at places that follow one another, with room for one more.
    pub(crate) fn of_bytes(alloc: Global, place: u32, bytes: &[u8]) -> Result<Writes, Memory>
        requires { place + (length bytes.now + 3) / 4 ≤ 2 ^ 32 }
        ensures { IfOk result (λ writes. writes ≡ words_written place bytes.now) }
    {
        let count = bytes.len().div_ceil(WORD_BYTES);
        let mut items = Vec::with_capacity(alloc, count + 1)?;
        for i in 0..count {
            let value = word_from(bytes, WORD_BYTES * i);
            items.push_reserved((place + i as u32, value));
        }
        Ok(Writes { items })
    }

    /// Adds a write in its place, unless the place is written already.
    #[tactic(auto, using(crate::proofs::Writings::added_same, crate::proofs::Writings::added_new))]
    pub(crate) fn add(&mut self, place: u32, value: u32) -> Result<(), Memory>
        ensures { OnOk result (self.new ≡ with_write (place, value) self.old) }
    {
        let index = index_of(&self.items, place);
        if is_at(&self.items, index, place) {
            return Ok(());
        }
        self.items.insert(index, (place, value))?;
        Ok(())
    }

    /// The places and values as a slice.
    pub fn as_slice(&self) -> &[(u32, u32)]
        ensures { result.now ≡ self.now }
    {
        self.items.as_slice()
    }
}
