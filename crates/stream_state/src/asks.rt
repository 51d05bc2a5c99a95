//! What a command that writes no results asks of the rest of the service.
ghost use Rattle.std.specs.Prelude.{◌≡◌, IsTrue, IsErr, IfOk, IfSome};
ghost use Rattle.gpu_cmd.specs.Checks.{has_format};
ghost use Rattle.gpu_store.specs.Images.{HasItsTexels};
ghost use Rattle.stream_state.specs.Verdict.{has_bytes};
ghost use Rattle.stream_state.specs.Steps.{joined, work, told, upload_op, asked};
ghost use Rattle.stream_state.specs.Accepted.{HoldItsBytes, BringsItsTexels, takes_memory};

use crate::effect::Effect;
use crate::ops::{plain_op, upload};
use crate::state::StreamState;
use crate::words::{transfer_bytes, transfer_texels};
use gpu_cmd::{Command, Name, texels_bytes};
use gpu_store::{Op, Rect};
use gpu_word::Memory;

/// The number of the format whose texels are words.
const WORDS: u32 = 1;

/// A number of 64 bits of its two halves.
pub fn joined(low: u32, high: u32) -> u64
    ensures { result ≡ joined low high }
{
    u64::from(low) + (u64::from(high) << 32)
}

// What a command asks of the client and of other streams.
fn told(command: &Command) -> Option<Effect>
    ensures { result ≡ told command.now }
{
    match *command {
        Command::SetToken { token } => Some(Effect::Token(token)),
        Command::InsertFence {
            release_low,
            release_high,
        } => Some(Effect::Release(joined(release_low, release_high))),
        Command::WaitToken {
            stream,
            release_low,
            release_high,
        } => Some(Effect::Wait {
            stream,
            release: joined(release_low, release_high),
        }),
        Command::WaitSyncToken {
            namespace,
            id_low,
            id_high,
            release_low,
            release_high,
        } => Some(Effect::WaitName {
            name: Name {
                namespace,
                id: joined(id_low, id_high),
            },
            release: joined(release_low, release_high),
        }),
        _ => None,
    }
}

impl StreamState {
    // The operation of a command that uploads texels of a bucket or of a buffer.
    fn block_upload(&self, command: &Command) -> Result<Option<Op>, Memory>
        requires bytes { IsTrue (has_bytes command.now self.now) }
        requires format { IsTrue (has_format command.now) }
        ensures op { IfOk result (λ op. op ≡ (work command.now).block_upload self.now) }
        ensures texels { IfOk result (λ op. IfSome op HasItsTexels) }
        ensures free { IsErr result → IsTrue (takes_memory command.now) }
    {
        match *command {
            Command::UploadBucket {
                image,
                x,
                y,
                w,
                h,
                format,
                bucket,
            } => {
                let bytes = self.buckets.part(bucket, 0, texels_bytes(w, h, format));
                let op = upload(self.alloc, image, Rect { x, y, w, h }, format, bytes)?;
                Ok(Some(op))
            }
            Command::UploadBuffer {
                image,
                x,
                y,
                w,
                h,
                format,
                buffer,
                offset,
            } => {
                let count = texels_bytes(w, h, format);
                let bytes = self.buffers.part(buffer, offset, count);
                let op = upload(self.alloc, image, Rect { x, y, w, h }, format, bytes)?;
                Ok(Some(op))
            }
            _ => Ok(None),
        }
    }

    // The operation of a command that uploads texels.
    fn upload_op(&self, command: &Command, words: &[(u32, u32)]) -> Result<Option<Op>, Memory>
        requires words { HoldItsBytes words.now command.now }
        requires bytes { IsTrue (has_bytes command.now self.now) }
        requires format { IsTrue (has_format command.now) }
        ensures op { IfOk result (λ op. op ≡ upload_op command.now words.now self.now) }
        ensures texels { IfOk result (λ op. IfSome op HasItsTexels) }
        ensures free { IsErr result → IsTrue (takes_memory command.now) }
    {
        match *command {
            Command::UploadRect {
                image,
                x,
                y,
                w,
                h,
                format,
                memory_offset,
                ..
            } => {
                let count = texels_bytes(w, h, format);
                if format == WORDS && memory_offset % 4 == 0 {
                    let texels = transfer_texels(self.alloc, words, count)?;
                    return Ok(Some(Op::Upload {
                        image,
                        rect: Rect { x, y, w, h },
                        texels,
                    }));
                }
                let bytes = transfer_bytes(self.alloc, words, memory_offset, count)?;
                let op = upload(self.alloc, image, Rect { x, y, w, h }, format, &bytes)?;
                Ok(Some(op))
            }
            _ => self.block_upload(command),
        }
    }

    // What a command that writes no results asks of the rest of the service.
    #[tactic(auto, unfolding(crate::specs::Steps::asked))]
    pub(crate) fn asked(&self, command: &Command, words: &[(u32, u32)]) -> Result<Effect, Memory>
        requires words { HoldItsBytes words.now command.now }
        requires bytes { IsTrue (has_bytes command.now self.now) }
        requires format { IsTrue (has_format command.now) }
        ensures effect { IfOk result (λ given. given ≡ asked command.now words.now self.now) }
        ensures texels { IfOk result BringsItsTexels }
        ensures free { IsErr result → IsTrue (takes_memory command.now) }
    {
        if let Some(effect) = told(command) {
            return Ok(effect);
        }
        if let Some(op) = plain_op(command) {
            return Ok(Effect::Pixels(op));
        }
        match self.upload_op(command, words)? {
            Some(op) => Ok(Effect::Pixels(op)),
            None => Ok(Effect::Nothing),
        }
    }
}
