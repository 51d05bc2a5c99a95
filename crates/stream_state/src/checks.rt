//! Checks 11 and 12: what a command finds among the buckets and buffers of its stream.
ghost use Rattle.std.specs.Prelude.{◌≡◌};
ghost use Rattle.stream_state.specs.Verdict.{has_block, has_texels, has_bytes, checked_state};

use crate::state::StreamState;
use gpu_cmd::{CmdError, Command, texels_bytes};

impl StreamState {
    // Check 11: whether the bucket or buffer is there, or for CreateBuffer is not.
    fn has_block(&self, command: &Command) -> bool
        ensures { result ≡ has_block command.now self.now }
    {
        match *command {
            Command::SetBucketData { bucket, .. }
            | Command::SetBucketDataImmediate { bucket, .. }
            | Command::GetBucketStart { bucket, .. }
            | Command::GetBucketData { bucket, .. }
            | Command::UploadBucket { bucket, .. } => self.buckets.bytes(bucket).is_some(),
            Command::CreateBuffer { buffer, .. } => self.buffers.bytes(buffer).is_none(),
            Command::DeleteBuffer { buffer }
            | Command::BufferData { buffer, .. }
            | Command::UploadBuffer { buffer, .. } => self.buffers.bytes(buffer).is_some(),
            Command::Noop
            | Command::SetToken { .. }
            | Command::SetBucketSize { .. }
            | Command::InsertFence { .. }
            | Command::WaitToken { .. }
            | Command::CreateImage { .. }
            | Command::DeleteImage { .. }
            | Command::ClearRect { .. }
            | Command::CopyRect { .. }
            | Command::UploadRect { .. }
            | Command::WaitSyncToken { .. } => true,
        }
    }

    // Check 12 for uploads: whether the bucket or buffer has the bytes of all texels.
    fn has_texels(&self, command: &Command) -> bool
        ensures { result ≡ has_texels command.now self.now }
    {
        match *command {
            Command::UploadBucket {
                w,
                h,
                format,
                bucket,
                ..
            } => {
                self.buckets
                    .has_range(bucket, 0, texels_bytes(w, h, format))
            }
            Command::UploadBuffer {
                w,
                h,
                format,
                buffer,
                offset,
                ..
            } => {
                self.buffers
                    .has_range(buffer, offset, texels_bytes(w, h, format))
            }
            _ => true,
        }
    }

    // Check 12: whether the bucket or buffer has the bytes that are read or written.
    fn has_bytes(&self, command: &Command) -> bool
        ensures { result ≡ has_bytes command.now self.now }
    {
        match *command {
            Command::SetBucketData {
                bucket,
                offset,
                size,
                ..
            }
            | Command::SetBucketDataImmediate {
                bucket,
                offset,
                size,
            }
            | Command::GetBucketData {
                bucket,
                offset,
                size,
                ..
            } => { self.buckets.has_range(bucket, offset, u128::from(size)) }
            Command::BufferData {
                buffer,
                offset,
                size,
                ..
            } => { self.buffers.has_range(buffer, offset, u128::from(size)) }
            _ => self.has_texels(command),
        }
    }

    /// The checks on a command that rest on its stream's state, in order: that its bucket or buffer is there, or for
    /// CreateBuffer is not, and that it has the bytes that the command reads or writes.
    ///
    /// The error is `InvalidArguments`, and never another.
    #[tactic(auto, unfolding(crate::specs::Verdict::checked_state))]
    pub fn check(&self, command: &Command) -> Result<(), CmdError>
        ensures { result ≡ checked_state command.now self.now }
    {
        if !self.has_block(command) || !self.has_bytes(command) {
            return Err(CmdError::InvalidArguments);
        }
        Ok(())
    }
}
