//! Judges journals: whether events are a legal and complete history of a script, or which is the first that breaks a rule.
//!
//! What the contracts say:
//! - `verify` says No exactly at the first event that breaks a rule of a legal history, with the least number of the rules
//!   that it breaks.
//! - It says NotComplete exactly where the events are legal and not complete, and else Yes, with the images that the
//!   history leaves.
//! - Laws: rule 6 is never the first, since rules 4 and 5 give it after a legal history. A list with a wrong event is not
//!   legal. One rule alone is the first.
//! - `verify` keeps what a history does to the rest of it: the sync core, the images, the state of each stream, and a watch
//!   for each stream with its counts and its client. Each event is judged by the rules in their order and then taken up.
//! - A client has two positions in its script, the least and the most that it can have done, which go forward only. The
//!   words stand at the least. Of the puts before the most, the last one at each place is kept.
//! - `Client::may_hold` decides whether a place has a value at some position from the least to the most. `go_on` brings the
//!   most to the bound by the finished flushes and the greatest token. `has_done` brings the least to any later position.
//! - A put that another stands over is kept in a map, by its place and its value, where the client may not have done it
//!   yet. So the time goes with the journal and the script, and not with their product.
//!
//! Notes:
//! - Each rule is judged where the lower ones hold, so rule 6, which rules 4 and 5 give, is never the answer. Errors are
//!   compared by their codes, which differ.
//! - A sync core refuses a lost stream's order. The rules let no such order come that far, so the answer is taken as out of
//!   memory.
//! - Events are counted in 32 bits, so a list that is judged is shorter than 2^32.
#![tactic(auto)]

mod client;
mod copy;
mod dumped;
mod ends;
mod entering;
mod followed;
mod held;
mod judge;
mod judging;
mod laws;
mod making;
mod outcome;
mod reach;
mod ruling;
mod stepping;
mod verdict;
mod verifying;
mod watch;

pub use client::Client;
pub use ends::ends_of;
pub use followed::Followed;
pub use laws::{dumps_tell_what_was_held, verdicts_exclude_one_another};
pub use ruling::{Ruling, follow};
pub use verdict::Verdict;
pub use verifying::verify;
