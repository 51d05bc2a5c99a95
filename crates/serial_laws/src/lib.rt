//! Laws of the serial history, of the end of every history, and of streams whose runs are out.
//!
//! Laws of every script:
//! - Each event that the rule for one thread gives is legal, and none is a loss as out of memory.
//! - After a legal history the rule gives none exactly where the history is complete.
//! - No legal history has more events than a number that the script tells.
//! - So the rule has one history, which is legal and complete.
//! - After every legal history that is not complete some event is legal that is no loss as out of memory. Where no number
//!   is left, a stream has a flush to order or may close. So every legal history can be finished without such a loss.
//!
//! Laws of a run that is out:
//! - While its stream is open its number stays the first, and only a step of its own whose wait is kept makes it wait.
//!   After every other step its stream can run.
//! - A legal history draws at most 100,000 numbers.
//! - An event changes the room that its own stream may still need, and no other's.
//! - After a legal history a closed stream has ordered all its flushes and is not lost.
//! - With all streams at home the choice is that of the rule for one thread, and it is the scheduler's.
//!
//! Notes:
//! - The laws rest on one record of what a script allows, `AreLawfulPlans`. A call that looks at each plan once says that
//!   every script that was read has it.
//! - The record of a run that is out says nothing once the stream has ended. It speaks of sync events alone.
#![tactic(auto)]

mod laws;
mod outs;
mod scripts;

pub use laws::{
    histories_go_on_until_complete, legal_histories_end, one_history_is_serial,
    played_histories_are_legal, serial_history_is_legal_and_complete,
};
pub use outs::{
    choices_agree, closed_streams_have_ordered_all, few_numbers_are_drawn,
    needs_change_by_one_stream, runs_go_on,
};
pub use scripts::plans_are_lawful;
