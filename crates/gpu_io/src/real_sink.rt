ghost use Rattle.std.specs.Prelude.{◌≡◌, ◌<◌, length, OnErr};
ghost use Rattle.gpu_io.specs.Faults.{one_fault_more};
ghost use Rattle.gpu_io.specs.Moves.{SinkTakes};

use crate::failed::Failed;
use crate::faults::Faults;
use crate::sink::Sink;
use std::io::Write;
use std::marker::Model;

/// A sink over a writer of the system. It counts the writer's errors, and tells of its bytes what the writer tells.
///
/// It keeps no bytes back, since a fault that came after its answer would be told to nobody. So the writer must be one
/// without a buffer.
#[derive(Drop)]
pub struct RealSink<W: Write> {
    writer: W,
    faults: Faults,
}

impl<W: Write> Model for RealSink<W> {
    ghost use Rattle.gpu_io.specs.Edge.{RealSinkData};

    ghost Value = { RealSinkData };

    ghost view = { λ s. record { written = W.contents s.writer; faults = s.faults } };
}

impl<W: Write> RealSink<W> {
    /// A sink that writes to this writer, with no fault as yet.
    pub fn make(writer: W) -> RealSink<W>
        ensures { result ≡ record { written = W.contents writer; faults = 0 } }
    {
        RealSink {
            writer,
            faults: Faults::new(),
        }
    }
}

impl<W: Write> Sink for RealSink<W> {
    ghost written = { λ s. s.written };

    ghost faults = { λ s. s.faults };

    /// Writes once to the writer, and counts a fault exactly where it answers an error or takes no byte.
    fn write(&mut self, bytes: &[u8]) -> Result<usize, Failed>
        requires { 0 < length bytes.now }
        ensures takes { SinkTakes self.old.written self.new.written self.old.faults self.new.faults
            bytes.now result }
        ensures fault { OnErr result (self.new.faults ≡ one_fault_more self.old.faults) }
    {
        match self.writer.write(bytes) {
            Ok(count) if count > 0 => Ok(count),
            _ => Err(self.faults.fail()),
        }
    }
}
