ghost use Rattle.std.specs.Prelude.{◌≡◌, ◌<◌, ◌↔◌, ◌⊎◌, [], Some, length, min, IsErr, IfOk, OnErr};
ghost use Rattle.gpu_io.specs.Faults.{one_fault_more};
ghost use Rattle.gpu_io.specs.InMemory.{IsFailing, with_call, IsFull, free_room};
ghost use Rattle.gpu_io.specs.Moves.{SinkTakes};

use crate::bounded::Bounded;
use crate::calls::Calls;
use crate::failed::Failed;
use crate::faults::Faults;
use crate::sink::Sink;
use gpu_word::Memory;
use std::alloc::Global;
use std::marker::Model;

/// A sink in memory that takes bytes in pieces, and whose calls of given numbers fail.
#[derive(Drop)]
pub struct MemorySink {
    bytes: Bounded,
    piece: usize,
    calls: Calls,
    faults: Faults,
}

impl Model for MemorySink {
    ghost use Rattle.std.specs.Prelude.{◌<◌};
    ghost use Rattle.gpu_io.specs.InMemory.{MemorySinkData};

    ghost Value = { MemorySinkData };

    ghost view = { λ s. record {
      written = s.bytes;
      piece = s.piece;
      calls = s.calls;
      faults = s.faults;
    } };

    ghost invariant = { λ s. 0 < s.piece };
}

impl MemorySink {
    /// An empty sink with room for a given number of bytes, all of it taken at once.
    ///
    /// A write moves at most `piece` bytes. The writes whose numbers, from 1, stand in `fails` fail, and those that find
    /// the room full, and no others.
    pub fn make(
        alloc: Global,
        room: usize,
        piece: usize,
        fails: Vec<u32>,
    ) -> Result<MemorySink, Memory>
        requires { 0 < piece }
        ensures written { IfOk result (λ s. s.written ≡ record { bytes = []; room = room }) }
        ensures piece { IfOk result (λ s. s.piece ≡ piece) }
        ensures calls { IfOk result (λ s. s.calls ≡ record { made = 0; fails = fails.items }) }
        ensures faults { IfOk result (λ s. s.faults ≡ 0) }
    {
        let bytes = Bounded::new(alloc, room)?;
        Ok(MemorySink {
            bytes,
            piece,
            calls: Calls::new(fails),
            faults: Faults::new(),
        })
    }

    /// The bytes written.
    pub fn bytes(&self) -> &[u8]
        ensures { result.now ≡ self.now.written.bytes }
    {
        self.bytes.bytes()
    }
}

impl Sink for MemorySink {
    ghost written = { λ s. Some s.written.bytes };

    ghost faults = { λ s. s.faults };

    /// Takes as many bytes as there are, as fit into the room and as a piece has.
    fn write(&mut self, bytes: &[u8]) -> Result<usize, Failed>
        requires { 0 < length bytes.now }
        ensures takes { SinkTakes (Some self.old.written.bytes) (Some self.new.written.bytes)
            self.old.faults self.new.faults bytes.now result }
        // A write fails exactly where its number is one of those that fail, or the room is full.
        ensures fails { IsErr result ↔ (IsFailing self.new.calls ⊎ IsFull self.old.written) }
        ensures count { IfOk result (λ n.
            n ≡ min (min (length bytes.now) (free_room self.old.written)) self.old.piece) }
        ensures calls { self.new.calls ≡ with_call self.old.calls }
        ensures piece { self.new.piece ≡ self.old.piece }
        ensures room { self.new.written.room ≡ self.old.written.room }
        ensures fault { OnErr result (self.new.faults ≡ one_fault_more self.old.faults) }
    {
        if self.calls.is_next_failing() || self.bytes.is_full() {
            return Err(self.faults.fail());
        }
        Ok(self.bytes.put(bytes, self.piece))
    }
}
