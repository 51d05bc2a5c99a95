ghost use Rattle.std.specs.Prelude.{ℕ, ◌<◌, List, Option, length};
ghost use Rattle.gpu_io.specs.Moves.{SinkTakes};

use crate::failed::Failed;

/// Where bytes go to, a few at a time.
pub trait Sink {
    /// The bytes written, where the sink tells them.
    ghost written: { Self → Option (List ℕ) };

    /// How often a write has failed.
    ghost faults: { Self → ℕ };

    /// Takes bytes from the front of these, at least one, and answers how many.
    ///
    /// After [`Failed`] the bytes written, where they are known, are what they were, and its count of faults rose; else
    /// it did not. A sink that can take nothing has failed.
    fn write(&mut self, bytes: &[u8]) -> Result<usize, Failed>
        requires { 0 < length bytes.now }
        ensures { SinkTakes (written self.old) (written self.new) (faults self.old) (faults self.new)
            bytes.now result };
}
