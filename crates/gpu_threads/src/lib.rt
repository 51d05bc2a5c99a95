//! Runs of whole scripts on threads: a client for each stream, workers, and viewers.
//!
//! What the contracts say:
//! - `run_threads` runs any script with 1 to 8 workers and up to 4 viewers. On Ok it gives a `ThreadedRun`, of which
//!   `IsThreadedRun` says:
//!   - the journal of the report is legal (`legal`) and complete (`complete`);
//!   - the report has the plans and the base of the callback's marks (`plans`, `based`);
//!   - beside it is what the client of each stream read: one value for each dump of its plan, or none where the stream is
//!     lost.
//! - Each value may be told of its dump (`dumps`). It is that of its result place after a prefix of the journal. In that
//!   prefix at least as many flushes of the stream are finished as stand before the dump. That it was read while the run
//!   went on no clause says.
//! - Each viewer has 17 looks (`looks`). Each tells a number of first events of the journal and the sum of all texels that
//!   these leave. The number does not fall from look to look, and the last look is of all events.
//! - A `Ground` is what the threads of a run share. Its type keeps that the words and the queues are those of the run
//!   (`AreShared`).
//! - `client_turn` gives back a client of the same stream, words, plan, queue and result words. Its answers:
//!   - Went only where it did one action, posted the flush that it held, or read the dump that was due;
//!   - Waiting only where its await did not pass, it holds a flush that the queue did not take, too few finishes were
//!     counted for the dump that is due, or it stands at its Close;
//!   - Ended only where no action is left, or where it could not go on.
//! - Where a queue did not take a flush, the clause says that 16 flushes were posted, and which. That 16 notes wait then is
//!   only tested.
//!
//! Notes:
//! - No clause says which locks a turn takes, that `run_threads` returns, or that it uses threads. The last two are only
//!   tested. `serve_turn` answers Ran or NothingRunnable, which no clause ties to a cause.
//! - `Run::shows_fit` shows which tables a run is of, when it comes out of the lock. Whoever has words of these tables at
//!   hand may fetch and publish there.
//! - Clients and viewers lie in slices, and threads change them in place, so all of them are there when the threads are
//!   done.
//! - When the threads are done, nothing is known of the hall but its type. That is enough: the journal is legal, and
//!   `play_left` goes on until no stream is open and each client has read all its dumps or its stream is lost. Then the
//!   hall takes the readers back (`all_read`).
//! - Awaits pass by the finish that is published, and dumps by the one that is counted in the result words, which comes
//!   first. No clause ties the two words. So a dump whose await has passed may find too few: `Unread`.
//! - No clause says which number of a flush the gate hears: a gate changes nothing of a run.
#![tactic(auto)]

mod chain;
mod ground;
mod jobs;
mod over;
mod parts;
mod reading;
mod rows;
mod threaded_run;
mod threads;
mod turns;
mod views;
mod workplace;

pub use chain::{Turn, serve_turn};
pub use gpu_hall::FullPass;
pub use ground::Ground;
pub use thread_parts::Client;
pub use threaded_run::ThreadedRun;
pub use threads::{Team, run_threads};
pub use turns::{ClientTurn, client_turn};
