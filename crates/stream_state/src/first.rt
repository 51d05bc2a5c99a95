ghost use Rattle.std.specs.Prelude.{◌≡◌, replicate, IfOk};
ghost use Rattle.stream_state.specs.State.{first_state};

use crate::state::StreamState;
use std::alloc::{AllocError, Global};

/// The states of a given number of streams before any step.
pub fn first_states(alloc: Global, streams: u32) -> Result<Vec<StreamState>, AllocError>
    ensures { IfOk result (λ states. states.items ≡ replicate streams first_state) }
{
    let mut states = Vec::with_capacity(alloc, streams as usize)?;
    for _ in 0..streams {
        states.push(StreamState::make(alloc))?;
    }
    Ok(states)
}
