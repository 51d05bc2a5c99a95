//! The hall: what the lock of a run on threads keeps.
//!
//! It is a house, and beside it the takers of the queues by which flushes come, and a view of the images where there are
//! viewers.
//!
//! What is seen of one locked moment is one call of the hall, since a second lock knows nothing of what the first one
//! left.
//!
//! What the contracts say:
//! - `shows_laws` says of it whenever the lock is got:
//!   - its journal is legal;
//!   - each pending wait names a live stream with a lower unprocessed number, and no waits form a cycle;
//!   - where a number is unprocessed, the stream with the least one can run, and is at home or has its run out;
//!   - no run that is out is paused;
//!   - so all is done, or a client can come to its next flush or to its Close, or the stream with the least number runs on.
//! - `waits` tells what the service keeps of waits, and that is what the journal says.
//! - `collect` takes flushes from the queues and appends nothing but orders and losses as out of memory.
//! - `take` gives a run that may go on, of the stream that the scheduler chooses among those at home. It gives none exactly
//!   where none of these can run.
//! - `commit` appends the steps of a batch of commands, up to its end or to the first that is invalid or lacks memory.
//!   After them it appends the finish, the loss or nothing more. The run is out where it is returned, and else at home.
//! - `finish`, `lose`, `lose_client` and `close` append exactly their event or none, and say when. A loss takes a refusal
//!   of the library.
//! - `settle` appends nothing. Of results that tell what was written it says that this is what the journal's steps wrote.
//!   Each value that the reader got is the last one written to its place in a prefix of the journal with enough finishes.
//! - The taker of each stream that is not lost has taken as many flushes as the journal orders.
//! - Where there is a view, each of its versions has the images of a prefix of the journal. What was noted since leads to
//!   the images of all of it. Room for what a batch may draw is taken before the batch is committed.
//! - `publish` changes nothing of the journal. Where it answers Ok and there is a view, the last version is of all events.
//!   Where memory runs out, the view is as before.
//! - Law: a commit takes no event away. It adds at most one for each command, and one more where the run comes home.
//! - `show` ends the hall by a version of all events, and leaves a `Shown`: a report with the writer. A look at the last
//!   version that a `Shown` tells was of all events.
//! - `collect`, `publish`, `show` and `end` may wait.
//!
//! Notes:
//! - `FullPass` is the side of each stream. Words, a side, a note, results and a reader belong together by the names of
//!   their tables: all that a lock keeps of them is that they are of the tables that are named for their stream.
//! - A taker of a lost stream may have taken more than the journal orders; its notes are dropped.
//! - Where memory ran out in a commit there is one answer, `Wanted`, whether at the first member, later, or for the view.
//! - A hall is no `Drop`, since the writer of a view is none: `end` or `show` gives it up, and `unlock` gives back its
//!   guard.
//! - `Shown::tell` answers `None` where there is no view. A `Shown` has the report in place of the house, so readers are
//!   settled before `show`. What it tells is the same at each call.
//! - Where memory runs out for the last version, the view is ended and the report given up. A version counts its events in
//!   32 bits, and a legal journal has fewer.
#![tactic(auto)]

mod collecting;
mod full_pass;
mod hall;
mod laws;
mod noting;
mod runs;
mod shown;
mod streams;
mod viewing;

pub use full_pass::FullPass;
pub use hall::Hall;
pub use laws::commits_grow_the_journal;
pub use shown::Shown;
