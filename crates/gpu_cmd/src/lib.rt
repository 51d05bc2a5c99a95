//! Commands of a command buffer, and the checks that a copied command passes before its stream's state is looked at.
//!
//! What the contracts say:
//! - `head` and `decode` answer exactly the first of the checks 1 to 10 that fails, or the command with the transfer places
//!   that it still needs. That holds for every header, all arguments, and all lawful facts whose put lies within the ring
//!   and differs from get.
//! - Laws `copied_words`, `fetched_words` and `command_places`: what is read as `head` and `decode` tell is exactly what
//!   must be fetched. Each place comes once and in rising order, with the verdict on that copy.
//!
//! Notes:
//! - The room of a command is a whole number also where get equals put. `head` is called only where they differ.
//! - `decode` reads the id again from the first word. Its condition, that `head` of that word is Ok, makes an unknown id
//!   impossible there.
//! - Names of streams can be keys of hash maps.
#![tactic(auto)]

mod areas;
mod arguments;
mod checks;
mod command;
mod decoded;
mod error;
mod facts;
mod ids;
mod laws;
mod name;
mod priority;
mod range;
mod shape;
mod table;

pub use areas::{Areas, LEAST_RING, MOST_RING, MOST_WORDS, Span, span_at, words_in};
pub use checks::{MOST_SLOT_BYTES, SLOTS, texels_bytes};
pub use command::Command;
pub use decoded::{Decoded, decode};
pub use error::CmdError;
pub use facts::{MOST_FETCHED, StreamFacts};
pub use laws::{accepted_commands, command_places, copied_words, fetched_words};
pub use name::Name;
pub use priority::Priority;
pub use shape::{Shape, head};
pub use table::command_of;
