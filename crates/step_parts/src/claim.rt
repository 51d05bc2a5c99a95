//! What a command asks that may need memory outside its stream's state.
ghost use Rattle.std.specs.Prelude.{◌≡◌};
ghost use Rattle.step_parts.specs.Claims.{claim_of};

use gpu_cmd::{Command, Name};
use gpu_plan::Plans;
use gpu_store::Op;
use stream_state::joined;

/// What a command asks of the images and of the waits that may need memory there.
#[derive(Drop)]
pub enum Claim {
    /// Nothing.
    Nothing,
    /// An image is made.
    Image(Op),
    /// A wait is judged.
    Wait {
        /// The number of the stream that is waited on, or 0, which no stream has.
        target: u32,
        /// The release that is waited for.
        release: u64,
    },
}

/// What a command of a stream of these plans claims.
pub fn claim_of(plans: &Plans, command: &Command) -> Claim
    ensures { result ≡ claim_of plans.now command.now }
{
    match *command {
        Command::CreateImage {
            image,
            width,
            height,
        } => Claim::Image(Op::Create {
            image,
            width,
            height,
        }),
        Command::WaitToken {
            stream,
            release_low,
            release_high,
        } => Claim::Wait {
            target: stream,
            release: joined(release_low, release_high),
        },
        Command::WaitSyncToken {
            namespace,
            id_low,
            id_high,
            release_low,
            release_high,
        } => Claim::Wait {
            target: plans.number(Name {
                namespace,
                id: joined(id_low, id_high),
            }),
            release: joined(release_low, release_high),
        },
        // A command that is forgotten here is refused by the proof of `act`.
        _ => Claim::Nothing,
    }
}
