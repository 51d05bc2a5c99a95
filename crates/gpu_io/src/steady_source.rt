ghost use Rattle.std.specs.Prelude.{◌≡◌, ◌<◌, Some, length, min, IsOkAnd};
ghost use Rattle.gpu_io.specs.Moves.{SourceGives};

use crate::failed::Failed;
use crate::source::Source;
use crate::unread::Unread;
use std::marker::Model;

/// A source in memory that never fails.
#[derive(Drop)]
pub struct SteadySource {
    bytes: Unread,
}

impl Model for SteadySource {
    ghost use Rattle.std.specs.Prelude.{ℕ, List};

    ghost Value = { List ℕ };

    ghost view = { λ s. s.bytes };
}

impl SteadySource {
    /// A source of these bytes.
    pub fn make(bytes: Vec<u8>) -> SteadySource
        ensures { result ≡ bytes.items }
    {
        SteadySource {
            bytes: Unread::new(bytes),
        }
    }
}

impl Source for SteadySource {
    ghost left = { λ bytes. Some bytes };

    ghost faults = { λ _. 0 };

    /// Reads as many bytes as are left and as fit into the buffer.
    fn read(&mut self, buffer: &mut [u8]) -> Result<usize, Failed>
        requires { 0 < length buffer.old }
        ensures gives { SourceGives (Some self.old) (Some self.new) 0 0 buffer.new result }
        // Every read succeeds.
        ensures count { IsOkAnd result (λ n. n ≡ min (length self.old) (length buffer.old)) }
    {
        Ok(self.bytes.take(buffer, buffer.len()))
    }
}
