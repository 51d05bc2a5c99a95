//! The choice of the stream that runs next.
//!
//! What the contracts say:
//! - `pick` is the least pair of priority and first number among the streams at home that wait for nothing. It is None
//!   exactly where there is none.
//!
//! Notes:
//! - Equal pairs of priority and number go to the lower stream. No core that represents a list has any.
#![tactic(auto)]

mod choice;
mod scheduler;
mod seat;

pub use scheduler::Scheduler;
