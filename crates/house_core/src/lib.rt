//! The core of the house: the journal of a run, and all that is kept beside it.
//!
//! It holds the plans, the journal, the order numbers, the seats of the streams, the images, and a desk for each stream:
//! its book, its state, its counts. It is generic over nothing.
//!
//! What the contracts say:
//! - The journal of a core is legal. All that is kept beside it is what the journal says:
//!   - order numbers, pending waits and endings, and images;
//!   - the state and the counts of each stream;
//!   - which streams are away, and the numbers of each book.
//! - Each call appends exactly its event, and answers exactly by the journal. `order` draws the next number. `step`
//!   executes, or loses its stream by the verdict on what was fetched. `finish`, `lose_client` and `close` come where the
//!   rules let them.
//! - A run leaves with `Carried`: what the next command is judged by, and one half of the book. It comes back to `step`,
//!   `finish`, `back` or `lose`, where `shows_run` reads both halves. So a run that comes back is what the journal says of its
//!   stream.
//! - No run is handed out twice. With all streams at home none can be taken exactly where no number is left.
//! - All memory of a step is taken before anything changes, so where memory runs out nothing has changed. Finishes, losses,
//!   closes, and runs that leave or come back need none: their room was taken with the order and at the start.
//!
//! Notes:
//! - What waits aim at is a field of the invariant, though the definitions alone give it, so that it is named beside the
//!   other clauses.
//! - A step answers its effect: what it asked of the rest of the service, how its image operation was answered, and whether
//!   its wait was kept. A stream that was lost or closed before is answered before any memory is taken.
//! - `Stays` speaks of content: where memory runs out the journal may have more room than before. A desk keeps how far its
//!   client was found to come.
#![tactic(auto)]

mod carried;
mod closing;
mod core_of;
mod desk;
mod ends;
mod making;
mod orders;
mod runs;
mod steps;
mod walk;

pub use carried::Carried;
pub use core_of::Core;
pub use ends::Closing;
pub use steps::Stepped;
