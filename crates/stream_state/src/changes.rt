//! What a command changes of the token, the release count, the buckets and the buffers.
ghost use Rattle.std.specs.Prelude.{◌≡◌, IsTrue, IsErr, OnOk, OnErr};
ghost use Rattle.gpu_cmd.specs.Checks.{has_slot};
ghost use Rattle.stream_state.specs.Verdict.{has_bytes};
ghost use Rattle.stream_state.specs.Steps.{token_after, release_after, buckets_after, buffers_after};
ghost use Rattle.stream_state.specs.Accepted.{HoldItsBytes, takes_memory};

use crate::asks::joined;
use crate::state::StreamState;
use crate::words::{immediate_bytes, transfer_bytes};
use gpu_cmd::Command;
use gpu_word::Memory;

impl StreamState {
    // Changes the buffers.
    fn change_buffers(&mut self, command: &Command, words: &[(u32, u32)]) -> Result<(), Memory>
        requires words { HoldItsBytes words.now command.now }
        requires bytes { IsTrue (has_bytes command.now self.old) }
        requires slot { IsTrue (has_slot command.now) }
        ensures changed { OnOk result
            (self.new ≡ record self.old
            { buffers = buffers_after command.now words.now self.old.buffers }) }
        ensures memory { OnErr result (self.new ≡ self.old) }
        ensures free { IsErr result → IsTrue (takes_memory command.now) }
    {
        match *command {
            Command::CreateBuffer { buffer, size } => self.buffers.create(buffer, size),
            Command::DeleteBuffer { buffer } => {
                self.buffers.delete(buffer);
                Ok(())
            }
            Command::BufferData {
                buffer,
                offset,
                size,
                memory_offset,
                ..
            } => {
                let bytes = transfer_bytes(self.alloc, words, memory_offset, u128::from(size))?;
                self.buffers.write(buffer, offset, &bytes);
                Ok(())
            }
            _ => Ok(()),
        }
    }

    // Changes the buckets, or else the buffers.
    pub(crate) fn change(&mut self, command: &Command, words: &[(u32, u32)]) -> Result<(), Memory>
        requires words { HoldItsBytes words.now command.now }
        requires bytes { IsTrue (has_bytes command.now self.old) }
        requires slot { IsTrue (has_slot command.now) }
        ensures changed { OnOk result (self.new ≡ record self.old {
          buckets = buckets_after command.now words.now self.old.buckets;
          buffers = buffers_after command.now words.now self.old.buffers;
        }) }
        ensures memory { OnErr result (self.new ≡ self.old) }
        ensures free { IsErr result → IsTrue (takes_memory command.now) }
    {
        match *command {
            Command::SetBucketSize { bucket, size } => self.buckets.resize(bucket, size),
            Command::SetBucketData {
                bucket,
                offset,
                size,
                memory_offset,
                ..
            } => {
                let bytes = transfer_bytes(self.alloc, words, memory_offset, u128::from(size))?;
                self.buckets.write(bucket, offset, &bytes);
                Ok(())
            }
            Command::SetBucketDataImmediate {
                bucket,
                offset,
                size,
            } => {
                let bytes = immediate_bytes(self.alloc, words, size as usize)?;
                self.buckets.write(bucket, offset, &bytes);
                Ok(())
            }
            _ => self.change_buffers(command, words),
        }
    }

    // Sets the token, and raises the release count.
    pub(crate) fn count(&mut self, command: &Command)
        ensures { self.new ≡ record self.old {
          token = token_after command.now self.old.token;
          release = release_after command.now self.old.release;
        } }
    {
        match *command {
            Command::SetToken { token } => self.token = token,
            Command::InsertFence {
                release_low,
                release_high,
            } => self.release = self.release.max(joined(release_low, release_high)),
            _ => {}
        }
    }
}
