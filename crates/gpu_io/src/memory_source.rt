ghost use Rattle.std.specs.Prelude.{◌≡◌, ◌<◌, ◌↔◌, Some, length, min, IsErr, IfOk, OnErr};
ghost use Rattle.gpu_io.specs.Faults.{one_fault_more};
ghost use Rattle.gpu_io.specs.InMemory.{IsFailing, with_call};
ghost use Rattle.gpu_io.specs.Moves.{SourceGives};

use crate::calls::Calls;
use crate::failed::Failed;
use crate::faults::Faults;
use crate::source::Source;
use crate::unread::Unread;
use std::marker::Model;

/// A source in memory that gives its bytes in pieces, and whose calls of given numbers fail.
#[derive(Drop)]
pub struct MemorySource {
    bytes: Unread,
    piece: usize,
    calls: Calls,
    faults: Faults,
}

impl Model for MemorySource {
    ghost use Rattle.std.specs.Prelude.{◌<◌};
    ghost use Rattle.gpu_io.specs.InMemory.{MemorySourceData};

    ghost Value = { MemorySourceData };

    ghost view = { λ s. record {
      left = s.bytes;
      piece = s.piece;
      calls = s.calls;
      faults = s.faults;
    } };

    ghost invariant = { λ s. 0 < s.piece };
}

impl MemorySource {
    /// A source of these bytes. A read moves at most `piece` of them.
    ///
    /// The reads whose numbers, from 1, stand in `fails` fail, and no others.
    pub fn make(bytes: Vec<u8>, piece: usize, fails: Vec<u32>) -> MemorySource
        requires { 0 < piece }
        ensures left { result.left ≡ bytes.items }
        ensures piece { result.piece ≡ piece }
        ensures calls { result.calls ≡ record { made = 0; fails = fails.items } }
        ensures faults { result.faults ≡ 0 }
    {
        MemorySource {
            bytes: Unread::new(bytes),
            piece,
            calls: Calls::new(fails),
            faults: Faults::new(),
        }
    }
}

impl Source for MemorySource {
    ghost left = { λ s. Some s.left };

    ghost faults = { λ s. s.faults };

    /// Reads as many bytes as are left, as fit into the buffer and as a piece has.
    fn read(&mut self, buffer: &mut [u8]) -> Result<usize, Failed>
        requires { 0 < length buffer.old }
        ensures gives { SourceGives (Some self.old.left) (Some self.new.left)
            self.old.faults self.new.faults buffer.new result }
        // A read fails exactly where its number is one of those that fail.
        ensures fails { IsErr result ↔ IsFailing self.new.calls }
        ensures count { IfOk result (λ n.
            n ≡ min (min (length self.old.left) (length buffer.old)) self.old.piece) }
        ensures calls { self.new.calls ≡ with_call self.old.calls }
        ensures piece { self.new.piece ≡ self.old.piece }
        ensures fault { OnErr result (self.new.faults ≡ one_fault_more self.old.faults) }
    {
        if self.calls.is_next_failing() {
            return Err(self.faults.fail());
        }
        Ok(self.bytes.take(buffer, self.piece))
    }
}
