//! What each thread of a run has of its own: the client of a stream, a viewer with its looks, and what threads tell each other.
//!
//! None of it knows the hall that the threads share, so it is proved beside the hall.
//!
//! What the contracts say:
//! - `Client::act` does one action of a client, posts the flush that it holds, or reads the dump that is due. Its answers:
//!   - Went only where it did one of the three;
//!   - Full only where it holds a flush that the queue did not take; 16 flushes were posted then;
//!   - NotYet only where its await did not pass, and Unread only where too few finishes were counted for the dump that is due;
//!   - AtClose and End only where it stands at its Close, or no action is left.
//! - A client keeps that it has posted each flush that it has made, but for one that it holds. What it read are the dumps of
//!   the actions that it has done, in order. It asked its reader for these and for nothing else.
//! - What a `Watch` has seen are its viewer's looks, in order. `Watch::watch` does all looks but the last.
//!
//! Notes:
//! - `Signals`, `Pace` and `Shift` only decide when a call is made, so no clause speaks of them. A lost ring costs a short nap,
//!   and after a few naps for nothing a thread serves whoever else does.
//! - A viewer's list has its room before any thread starts, so no look needs memory.
#![tactic(auto)]

mod bell;
mod client;
mod pace;
mod shift;
mod signals;
mod watch;

pub use client::{Act, Client};
pub use pace::Pace;
pub use shift::{Leave, Shift};
pub use signals::{OR_TOKEN, ROOM, Signals};
pub use watch::Watch;
