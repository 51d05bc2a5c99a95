ghost use Rattle.std.specs.Prelude.{ℕ, ◌<◌, List, Option, length};
ghost use Rattle.gpu_io.specs.Moves.{SourceGives};

use crate::failed::Failed;

/// Where bytes come from, a few at a time.
pub trait Source {
    /// The bytes left, where the source tells them.
    ghost left: { Self → Option (List ℕ) };

    /// How often a read has failed.
    ghost faults: { Self → ℕ };

    /// Reads some bytes into the front of the buffer, and answers how many: none only where no byte is left.
    ///
    /// After [`Failed`] the bytes left, where they are known, are what they were, and its count of faults rose; else it
    /// did not.
    fn read(&mut self, buffer: &mut [u8]) -> Result<usize, Failed>
        requires { 0 < length buffer.old }
        ensures { SourceGives (left self.old) (left self.new) (faults self.old) (faults self.new)
            buffer.new result };
}
