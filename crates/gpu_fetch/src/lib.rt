//! Private copies of commands: each word is fetched once, and the verdict is that on the words fetched.
//!
//! The service's side of a stream is a trait, `ServiceSide`. Contracts see its plan, the words fetched, the flushes
//! published as finished, the greatest token published, and the latest flush met.
//!
//! What the contracts say:
//! - `fetch_onto`, over any side, makes the list of fetches grow by exactly the words of one command. They are at the
//!   places that must be fetched, each once and in rising order, with the verdict on these words. They are added to a
//!   list after those of other commands.
//! - Each word is one that the client may have put between the latest flush met and its bound by the side's own numbers.
//!   That holds for every client that goes on storing meanwhile.
//! - Where memory runs out, the list has grown by words at the first of these places.
//! - A side over plain words answers the value of each place.
//! - None of these sides needs memory for a fetch, nor does the side over words that a client may overwrite. So where
//!   memory runs out, the words fetched are none, the header, or all ring words of the command.
//! - The sides:
//!   - `ServicePass` fetches from words that a client overwrites on another thread;
//!   - `FullPass` of `gpu_threads` does so too, with result words beside them: `run_threads` uses it;
//!   - `PlainPass` serves words that one thread keeps for itself: `run_one` uses it.
//!
//! Notes:
//! - The facts that a verdict rests on are data of contracts alone, so what was fetched is its words and their verdict.
//! - A note of plain words is its mark alone, and plain words and their side keep no copy of the plan. Their list of
//!   fetches is data of contracts alone, which no code reads. The calls that make that list are proved by hand.
//! - Where memory runs out, a word that is missing counts as 0 among the places that must be fetched.
//! - A list of results that is not told stays untold, whatever is written.
#![tactic(auto)]

mod fetch;
mod fetched;
mod fetched_part;
mod plain;
mod shared;
mod side;

pub use fetch::fetch_onto;
pub use fetched::Fetched;
pub use fetched_part::FetchedPart;
pub use plain::{PlainNote, PlainPass, PlainWords};
pub use side::ServiceSide;
