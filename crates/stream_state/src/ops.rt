//! The image operations of commands.
ghost use Rattle.std.specs.Prelude.{◌≡◌, ◌*◌, length, IfOk, IsSome};
ghost use Rattle.gpu_word.specs.Formats.{format_of};
ghost use Rattle.gpu_cmd.specs.Ranges.{texel_bytes};
ghost use Rattle.gpu_store.specs.Images.{HasItsTexels};
ghost use Rattle.stream_state.specs.Steps.{work, plain_op, uploaded};

use gpu_cmd::Command;
use gpu_store::{Op, Rect, unpack};
use gpu_word::{Format, Memory};
use std::alloc::Global;

// The operation of a command that makes an image.
fn made(command: &Command) -> Option<Op>
    ensures { result ≡ (work command.now).made }
{
    match *command {
        Command::CreateImage {
            image,
            width,
            height,
        } => Some(Op::Create {
            image,
            width,
            height,
        }),
        _ => None,
    }
}

// The operation of a command that takes an image away, or fills or copies a rectangle.
fn drawn(command: &Command) -> Option<Op>
    ensures { result ≡ (work command.now).drawn }
{
    match *command {
        Command::DeleteImage { image } => Some(Op::Delete { image }),
        Command::ClearRect {
            image,
            x,
            y,
            w,
            h,
            texel,
        } => Some(Op::Clear {
            image,
            rect: Rect { x, y, w, h },
            texel,
        }),
        Command::CopyRect {
            source,
            sx,
            sy,
            target,
            dx,
            dy,
            w,
            h,
        } => Some(Op::Copy {
            source,
            sx,
            sy,
            target,
            dx,
            dy,
            w,
            h,
        }),
        _ => None,
    }
}

/// The operation of a command without texels of its own.
pub fn plain_op(command: &Command) -> Option<Op>
    ensures { result ≡ plain_op command.now }
{
    match made(command) {
        Some(op) => Some(op),
        None => drawn(command),
    }
}

/// The upload of packed bytes into a rectangle.
#[tactic(auto, using(crate::proofs::Counts::upload_counted))]
pub fn upload(
    alloc: Global,
    image: u32,
    rect: Rect,
    format: u32,
    bytes: &[u8],
) -> Result<Op, Memory>
    requires format { IsSome (format_of format) }
    requires count { length bytes.now ≡ rect.w * rect.h * texel_bytes format }
    ensures upload { IfOk result (λ op. op ≡ uploaded image rect format bytes.now) }
    ensures texels { IfOk result HasItsTexels }
{
    let texels = unpack(alloc, Format::of(format).unwrap(), bytes)?;
    Ok(Op::Upload {
        image,
        rect,
        texels,
    })
}
