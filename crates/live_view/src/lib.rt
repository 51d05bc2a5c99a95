//! The live view: a writer publishes versions of the images, and viewers look at them without a lock.
//!
//! Each version has the images after a prefix of the events of a run. A viewer sees the published version at one step,
//! and never goes back. The list of the versions lies in proofs alone.
//!
//! `live_view` keeps two copies of the images in the kit's `left_right`. Viewers read one without a lock, and the writer
//! changes the other.
//!
//! What the contracts say:
//! - `note` keeps an operation. `publish` hands all that wait to the copies with a mark after them, and shows them at one
//!   step.
//! - `publish` adds one version to the writer's list: the images after the operations noted, with a number of events. Where
//!   memory runs out, what is shown and what was noted stay.
//! - Each `look` is at a version of that list, and tells its events and the sum of its texels modulo 2^32. It never goes
//!   back: what is shown is the last version of a list that only grows, and each viewer knows a prefix of it.
//! - The list lies in proofs alone, in a book of the kit's `logbook`. Each shown value carries a copy of what was seen of
//!   it. So `learn` can compare what a writer told with what the viewer finds.
//! - `learn` answers true exactly where no earlier look was later than the last version reported, and fewer than 2^64 - 1
//!   versions were reported. Then each look was at a reported version.
//! - `make`, `publish`, `end`, `look` and `learn` may wait.
//!
//! Notes:
//! - `learn` enters until the version found is no earlier than the last one reported. That is at once where it was
//!   published before it was reported.
//! - A version stands in the log before it is shown. Where no memory is found for the showing, contracts see it after the
//!   published ones as one that was `tried`.
//! - `make` publishes the first version once, so a new viewer can be told of it before any look. `reserve` takes a number,
//!   and a note takes one of the room exactly.
//! - A place or an entry that was refused is asked for again, as `left_right` does not say when it refuses one.
//! - A writer is no `Drop`, so no closure may own it; tests lend it to two threads.
#![tactic(auto)]

mod absorbing;
mod copies;
mod drawn;
mod entering;
mod front;
mod known;
mod look;
mod making;
mod next;
mod roll;
mod rule;
mod shown;
mod step;
mod version;
mod viewer;
mod writer;

pub use look::{ALL_LOOKS, LOOKS, Look};
pub use making::{MOST_VIEWERS, make};
pub use viewer::{Told, Viewer};
pub use writer::ViewWriter;
