ghost use Rattle.std.specs.Prelude.{◌≡◌, ◌≤◌, ◌↔◌, ◌++◌, [], IsTrue, length, take, min, IfOk};
ghost use Rattle.gpu_io.specs.InMemory.{IsFull, free_room};

use gpu_word::Memory;
use std::alloc::Global;
use std::marker::Model;

/// Bytes in a room of a fixed size, whose memory was taken at once.
#[derive(Drop)]
pub(crate) struct Bounded {
    bytes: Vec<u8>,
    room: usize,
}

impl Model for Bounded {
    ghost use Rattle.std.specs.Prelude.{◌≤◌, vec_len, vec_capacity};
    ghost use Rattle.gpu_io.specs.InMemory.{BoundedData};

    ghost Value = { BoundedData };

    ghost view = { λ b. record { bytes = b.bytes.items; room = b.room } };

    ghost invariant = { λ b. (vec_len b.bytes ≤ b.room) × (b.room ≤ vec_capacity b.bytes) };
}

impl Bounded {
    /// An empty room for a given number of bytes.
    pub(crate) fn new(alloc: Global, room: usize) -> Result<Bounded, Memory>
        ensures { IfOk result (λ b. b ≡ record { bytes = []; room = room }) }
    {
        let bytes = Vec::with_capacity(alloc, room)?;
        Ok(Bounded { bytes, room })
    }

    /// What lies in the room.
    pub(crate) fn bytes(&self) -> &[u8]
        ensures { result.now ≡ self.now.bytes }
    {
        &self.bytes
    }

    /// Whether no byte more fits.
    pub(crate) fn is_full(&self) -> bool
        ensures full { IsTrue result ↔ IsFull self.now }
        ensures within { length self.now.bytes ≤ self.now.room }
    {
        self.bytes.len() == self.room
    }

    /// Puts bytes from the front of these after what lies there, as many as fit, and at most `most`.
    pub(crate) fn put(&mut self, bytes: &[u8], most: usize) -> usize
        ensures count { result ≡ min (min (length bytes.now) (free_room self.old)) most }
        ensures appended { self.new.bytes ≡ self.old.bytes ++ take result bytes.now }
        ensures room { self.new.room ≡ self.old.room }
    {
        let free = self.room - self.bytes.len();
        let count = bytes.len().min(free).min(most);
        match self.bytes.extend_from_slice(&bytes[..count]) {
            Ok(()) => count,
            Err(_) => unreachable!(),
        }
    }
}
