ghost use Rattle.std.specs.Prelude.{◌≡◌, ◌<◌, ◌↔◌, [], Some, length, min, IsErr, IfOk, OnErr};
ghost use Rattle.gpu_io.specs.Faults.{one_fault_more};
ghost use Rattle.gpu_io.specs.InMemory.{IsFull, free_room};
ghost use Rattle.gpu_io.specs.Moves.{SinkTakes};

use crate::bounded::Bounded;
use crate::failed::Failed;
use crate::faults::Faults;
use crate::sink::Sink;
use gpu_word::Memory;
use std::alloc::Global;
use std::marker::Model;

/// A sink in memory that fails only where its room is full.
#[derive(Drop)]
pub struct SteadySink {
    bytes: Bounded,
    faults: Faults,
}

impl Model for SteadySink {
    ghost use Rattle.gpu_io.specs.InMemory.{SteadySinkData};

    ghost Value = { SteadySinkData };

    ghost view = { λ s. record { written = s.bytes; faults = s.faults } };
}

impl SteadySink {
    /// An empty sink with room for a given number of bytes, all of it taken at once.
    pub fn make(alloc: Global, room: usize) -> Result<SteadySink, Memory>
        ensures written { IfOk result (λ s. s.written ≡ record { bytes = []; room = room }) }
        ensures faults { IfOk result (λ s. s.faults ≡ 0) }
    {
        let bytes = Bounded::new(alloc, room)?;
        Ok(SteadySink {
            bytes,
            faults: Faults::new(),
        })
    }

    /// The bytes written.
    pub fn bytes(&self) -> &[u8]
        ensures { result.now ≡ self.now.written.bytes }
    {
        self.bytes.bytes()
    }
}

impl Sink for SteadySink {
    ghost written = { λ s. Some s.written.bytes };

    ghost faults = { λ s. s.faults };

    /// Takes as many bytes as there are and as fit into the room.
    fn write(&mut self, bytes: &[u8]) -> Result<usize, Failed>
        requires { 0 < length bytes.now }
        ensures takes { SinkTakes (Some self.old.written.bytes) (Some self.new.written.bytes)
            self.old.faults self.new.faults bytes.now result }
        // A write fails exactly where the room is full.
        ensures fails { IsErr result ↔ IsFull self.old.written }
        ensures count { IfOk result (λ n. n ≡ min (length bytes.now) (free_room self.old.written)) }
        ensures room { self.new.written.room ≡ self.old.written.room }
        ensures fault { OnErr result (self.new.faults ≡ one_fault_more self.old.faults) }
    {
        if self.bytes.is_full() {
            return Err(self.faults.fail());
        }
        Ok(self.bytes.put(bytes, bytes.len()))
    }
}
