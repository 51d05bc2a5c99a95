ghost use Rattle.std.specs.Prelude.{◌≡◌, ◌<◌, ◌≤◌, ◌+◌, ◌^◌, length, option_map, IfSome, OnOk, OnErr, IsTrue};
ghost use Rattle.stream_state.specs.Blocks.{no_blocks, block_of, bytes_in, part, has_range, with_block, without_block, zeros, sized, written_over};

use crate::block::Block;
use gpu_cmd::{MOST_SLOT_BYTES, SLOTS};
use gpu_word::Memory;
use std::alloc::Global;
use std::marker::Model;

/// The buckets or the buffers of a stream by their numbers, from 0 to 15.
#[derive(Drop)]
pub struct Blocks {
    alloc: Global,
    blocks: [Option<Block>; SLOTS],
}

impl Model for Blocks {
    ghost use Rattle.std.specs.Prelude.{ℕ, List, Option};

    ghost Value = { List (Option (List ℕ)) };

    ghost view = { λ blocks. blocks.blocks };
}

// A given number of bytes from an offset on.
fn part(bytes: &[u8], offset: usize, count: usize) -> &[u8]
    requires { offset + count ≤ length bytes.now }
    ensures bytes { result.now ≡ part bytes.now offset count }
    ensures count { length result.now ≡ count }
{
    let (_, rest) = bytes.split_at(offset);
    let (front, _) = rest.split_at(count);
    front
}

impl Blocks {
    /// No block.
    pub fn make(alloc: Global) -> Blocks
        ensures { result ≡ no_blocks }
    {
        Blocks {
            alloc,
            blocks: [
                None, None, None, None, None, None, None, None, None, None, None, None, None, None,
                None, None,
            ],
        }
    }

    /// The bytes of a block, where it is there.
    pub fn bytes(&self, number: u32) -> Option<&[u8]>
        ensures bytes { option_map (λ bytes. bytes.now) result ≡ block_of self.now number }
        ensures most { IfSome result (λ bytes. length bytes.now ≤ MOST_SLOT_BYTES) }
    {
        match self.blocks.get(number as usize) {
            Some(Some(block)) => Some(block.as_slice()),
            _ => None,
        }
    }

    /// The bytes of a block, and none where it is missing.
    pub fn all(&self, number: u32) -> &[u8]
        ensures bytes { result.now ≡ bytes_in self.now number }
        ensures most { length result.now ≤ MOST_SLOT_BYTES }
    {
        match self.bytes(number) {
            Some(bytes) => bytes,
            None => &[],
        }
    }

    /// A given number of bytes of a block from an offset on.
    pub fn part(&self, number: u32, offset: u32, count: u128) -> &[u8]
        requires { IsTrue (has_range self.now number offset count) }
        ensures bytes { result.now ≡ part (bytes_in self.now number) offset count }
        ensures count { length result.now ≡ count }
        ensures most { count ≤ MOST_SLOT_BYTES }
    {
        part(self.all(number), offset as usize, count as usize)
    }

    /// Whether a block is there and has a given number of bytes from an offset on.
    pub fn has_range(&self, number: u32, offset: u32, count: u128) -> bool
        requires { count < 2 ^ 67 }
        ensures { result ≡ has_range self.now number offset count }
    {
        match self.bytes(number) {
            Some(bytes) => u128::from(offset) + count <= bytes.len() as u128,
            None => false,
        }
    }

    /// Makes a block of a given number of zero bytes.
    pub fn create(&mut self, number: u32, size: u32) -> Result<(), Memory>
        requires number { number < SLOTS }
        requires size { size ≤ MOST_SLOT_BYTES }
        ensures made { OnOk result (self.new ≡ with_block self.old number (zeros size)) }
        ensures memory { OnErr result (self.new ≡ self.old) }
    {
        let block = Block::make(self.alloc, size)?;
        self.blocks[number as usize] = Some(block);
        Ok(())
    }

    /// Takes a block away.
    pub fn delete(&mut self, number: u32)
        requires { number < SLOTS }
        ensures { self.new ≡ without_block self.old number }
    {
        self.blocks[number as usize] = None;
    }

    /// Gives a block a size: zero bytes, unless it has this size already.
    pub fn resize(&mut self, number: u32, size: u32) -> Result<(), Memory>
        requires number { number < SLOTS }
        requires size { size ≤ MOST_SLOT_BYTES }
        ensures made { OnOk result (self.new ≡ sized self.old number size) }
        ensures memory { OnErr result (self.new ≡ self.old) }
    {
        if let Some(bytes) = self.bytes(number) {
            if bytes.len() == size as usize {
                return Ok(());
            }
        }
        self.create(number, size)
    }

    /// Writes bytes into a block, from an offset on.
    pub fn write(&mut self, number: u32, offset: u32, bytes: &[u8])
        requires { IsTrue (has_range self.old number offset (length bytes.now)) }
        ensures { self.new ≡ written_over self.old number offset bytes.now }
    {
        if let Some(block) = &mut self.blocks[number as usize] {
            block.write(offset as usize, bytes);
        }
    }
}
