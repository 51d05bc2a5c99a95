//! The words that a client and the service share: headers, texel formats, bytes of words, and the words that were fetched
//! for commands.
//!
//! What the contracts say:
//! - `split` gives the low 21 bits of a header and the rest. `join` undoes it, or refuses exactly the parts that do not
//!   fit. `header_round_trip` says so of both.
//! - `bytes_of` gives exactly the asked bytes of the little-endian bytes of the values of words.
//! - `Words` borrow the words that others keep, and are seen as a list of pairs, a place and a value.
//!
//! Notes:
//! - `bytes_of` copies the words that the asked bytes touch, turns the bytes before the first one to the end, and cuts the
//!   rest off. That is one pass and one allocation.
#![tactic(auto)]

mod bytes;
mod format;
mod header;
mod laws;
mod memory;
mod words;

pub use bytes::bytes_of;
pub use format::Format;
pub use header::{Header, join, split};
pub use laws::header_round_trip;
pub use memory::Memory;
pub use words::Words;
