//! The words that a client stores into while the service fetches them, on other threads and at any moment.
//!
//! - Word 0 is the flush mark.
//! - Word 1 tells how many flushes are finished.
//! - Word 2 tells the greatest token.
//! - Word 3 + i is place i.
//!
//! What the contracts say:
//! - Between any two steps on the words of a stream, from whatever threads they come:
//!   - each place has its value after the actions that the client has done;
//!   - a mark is stored before it is reported;
//!   - the client has not gone past its bound by what the service has published.
//! - `fetch` answers a value that the client may have put since the latest flush met, within that bound. A flush that is
//!   met lies within it too.
//! - `act` answers exactly what its next action and the words that it loads say. It loads exactly those, once.
//! - `flush`, `blank`, `meet` and the publishing calls change exactly what they say.
//! - No call ever blocks: none takes a Wait. Only `make` takes memory.
//!
//! Notes:
//! - At run time the client's pass has the only copy of the plan, which `make` takes.
//! - `meet` loads the flush mark and drops the value: at that step the rule tells that the flush lies within the client's
//!   bound.
//! - `meet` does not ask that its note is of a flush, nor `blank` that no flush is done. A note of no flush changes nothing
//!   of the pass that meets it.
//! - What `act` answers is one equation over the values that the two words held. That the client then stands at a flush is
//!   a clause of its own.
//! - The token word has the greatest token published. The finish word has 64 bits: `publish_finish` asks that one more
//!   finish fits.
#![tactic(auto)]

mod client;
mod maker;
mod note;
mod plays;
mod service;
mod view;
mod words;

pub use client::{Acted, ClientPass};
pub use maker::make;
pub use note::Note;
pub use service::ServicePass;
pub use words::SharedWords;
