ghost use Rattle.std.specs.Prelude.{◌≡◌, ◌+◌, ◌≤◌, length, IfOk};
ghost use Rattle.stream_state.specs.Blocks.{zeros, overwritten};

use gpu_cmd::MOST_SLOT_BYTES;
use gpu_word::Memory;
use std::alloc::Global;
use std::marker::Model;

/// The bytes of a bucket or of a buffer.
#[derive(Drop)]
pub struct Block {
    bytes: Vec<u8>,
}

impl Model for Block {
    ghost use Rattle.std.specs.Prelude.{ℕ, List, ◌≤◌, length};
    ghost use Rattle.gpu_cmd.specs.declared.checks.TheConstants.{MOST_SLOT_BYTES};

    ghost Value = { List ℕ };

    ghost view = { λ block. block.bytes.items };

    ghost invariant = { λ block. length block.bytes.items ≤ MOST_SLOT_BYTES };
}

impl Block {
    /// A block of a given number of zero bytes.
    pub fn make(alloc: Global, size: u32) -> Result<Block, Memory>
        requires { size ≤ MOST_SLOT_BYTES }
        ensures { IfOk result (λ block. block ≡ zeros size) }
    {
        let bytes = vec![in alloc; 0; size as usize]?;
        Ok(Block { bytes })
    }

    /// How many bytes there are.
    pub fn size(&self) -> u32
        ensures size { result ≡ length self.now }
        ensures most { result ≤ MOST_SLOT_BYTES }
    {
        self.bytes.len() as u32
    }

    /// The bytes.
    pub fn as_slice(&self) -> &[u8]
        ensures bytes { result.now ≡ self.now }
        ensures most { length result.now ≤ MOST_SLOT_BYTES }
    {
        self.bytes.as_slice()
    }

    /// Writes bytes over those from an offset on.
    pub fn write(&mut self, offset: usize, bytes: &[u8])
        requires { offset + length bytes.now ≤ length self.old }
        ensures { self.new ≡ overwritten self.old offset bytes.now }
    {
        self.bytes[offset..offset + bytes.len()].copy_from_slice(bytes);
    }
}
