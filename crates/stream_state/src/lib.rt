//! The state of a stream: its buckets, buffers, counts and results, and what each command does to them.
//!
//! What the contracts say:
//! - `check` answers InvalidArguments exactly where the bucket or buffer of a command is not as it must be.
//! - `step` leaves exactly the state and answers exactly the effect of the definition, by the words of the step alone.
//!   Where memory runs out nothing has changed.
//! - The state after any list of steps is the fold of these steps, by the definition `stream_of`.
//! - Laws:
//!   - each step keeps the bounds on the counts;
//!   - a result place has the last value written to it;
//!   - a step writes its places once, in rising order and within the result memories;
//!   - its effect tells the token, the release count and the results that it leaves;
//!   - the release count never falls;
//!   - a verdict that is a command lets a step take the words.
//!
//! Notes:
//! - The command of a step is read off its ring words alone. Words with an id that is no command count as a Noop; no
//!   accepted step has such words.
//! - A transfer of no bytes reads no word, whatever its offset. DeleteBuffer takes no memory.
#![tactic(auto)]

mod asks;
mod block;
mod blocks;
mod changes;
mod checks;
mod effect;
mod first;
mod laws;
mod ops;
mod reads;
mod results;
mod state;
mod step;
mod words;
mod writes;

pub use asks::joined;
pub use effect::Effect;
pub use first::first_states;
pub use laws::{
    effects_tell_all, results_are_the_last_written, states_are_bounded, verdicts_follow_checks,
};
pub use state::StreamState;
pub use writes::Writes;
