ghost use Rattle.std.specs.Prelude.{◌≡◌, ◌<◌, length, OnErr};
ghost use Rattle.gpu_io.specs.Faults.{one_fault_more};
ghost use Rattle.gpu_io.specs.Moves.{SourceGives};

use crate::failed::Failed;
use crate::faults::Faults;
use crate::source::Source;
use std::io::Read;
use std::marker::Model;

/// A source over a reader of the system. It counts the reader's errors, and tells of its bytes what the reader tells.
#[derive(Drop)]
pub struct RealSource<R: Read> {
    reader: R,
    faults: Faults,
}

impl<R: Read> Model for RealSource<R> {
    ghost use Rattle.gpu_io.specs.Edge.{RealSourceData};

    ghost Value = { RealSourceData };

    ghost view = { λ s. record { left = R.remaining s.reader; faults = s.faults } };
}

impl<R: Read> RealSource<R> {
    /// A source that reads from this reader, with no fault as yet.
    pub fn make(reader: R) -> RealSource<R>
        ensures { result ≡ record { left = R.remaining reader; faults = 0 } }
    {
        RealSource {
            reader,
            faults: Faults::new(),
        }
    }
}

impl<R: Read> Source for RealSource<R> {
    ghost left = { λ s. s.left };

    ghost faults = { λ s. s.faults };

    /// Reads once from the reader, and counts a fault exactly where it answers an error.
    fn read(&mut self, buffer: &mut [u8]) -> Result<usize, Failed>
        requires { 0 < length buffer.old }
        ensures gives { SourceGives self.old.left self.new.left self.old.faults self.new.faults
            buffer.new result }
        ensures fault { OnErr result (self.new.faults ≡ one_fault_more self.old.faults) }
    {
        match self.reader.read(buffer) {
            Ok(count) => Ok(count),
            Err(_) => Err(self.faults.fail()),
        }
    }
}
