//! Journals: the events of a run in their one order, and what they say.
//!
//! What the contracts say:
//! - `replay` gives the images of a legal history, uploads included.
//! - Laws: the state of a stream is the fold of its steps, and keeps of each result place the last value written.
//!
//! Notes:
//! - An event does one thing to waits, or none: a release, a wait on a stream, or a wait on the stream of a name. A name
//!   that no stream has counts as stream 0.
//! - The first flush without an order is the one with as many flushes before it as the stream has orders.
//! - A client stands at its Close where the first action that does not pass is that Close.
//! - Replay reads a command off its words, without its stream's facts: in a legal history each step is a command.
//! - Lists that no run makes are judged too. An order after a close counts as unprocessed, and a finish takes the first
//!   number whatever it names; no legal history has either.
//! - What a dump tells is read off the history before its round, without the orders that the round has appended by then. No
//!   result depends on these.
#![tactic(auto)]

mod end;
mod entry;
mod event;
mod flush;
mod journal;
mod laws;
mod replaying;

pub use end::End;
pub use event::{Event, Why};
pub use flush::put_at;
pub use journal::Journal;
pub use laws::states_are_folds_of_steps;
pub use replaying::replay;
