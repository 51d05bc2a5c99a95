//! The house: what the lock keeps, and the runs that leave it.
//!
//! It puts parts beside the core, each with a clause of its own: the sides at home with the notes that none has met, the
//! hooks, and the results. A further part is a field and a clause more, and no proof of the core is opened again.
//!
//! What the contracts say:
//! - Over any side that meets `ServiceSide`, each call appends exactly its event to the legal journal, and answers exactly
//!   by it.
//! - `take` gives a run its stream's side and the note of its flush. `Run::fetch` meets the note and fetches without the
//!   lock.
//! - A run that left keeps that each of its fetches is a value that its client may have put for its flush, whatever the
//!   client stores meanwhile. A step takes nothing but what was fetched.
//! - `step` tells the client of its token or its results, and answers the image operation that was drawn.
//! - `Run::fetch_batch` fetches up to 64 commands into one list of words. `step_batch` gives them to the core one after the
//!   other under one lock.
//! - `finish` counts the finish in the results before it publishes it.
//! - The side of a stream at home has fetched, finished and published what the journal says.
//! - Each ending has the mark that the stored callback answered, in order: after each call `follow` passes the new endings
//!   to it.
//! - Where the results tell what was written, the journal's steps wrote that.
//! - Of waits `AreWaitsOf` says that what the service keeps is what the journal says: how many are pending, and of a stream
//!   its first unprocessed number and whether a wait of that is pending.
//! - Where a number is unprocessed, the stream with the least one can run, and is at home or has its run out: clause `stuck`
//!   of `shows_laws`.
//! - A run is no `Drop`: whoever has one gives it back, finishes it or loses it. A loss takes a refusal of the library.
//! - A report has the plans, the base and the journal that the house had.
//!
//! Notes:
//! - A report keeps the base and the marks, and no callback: no wait ends any more.
//! - What words, a side and its notes say of each other is a meaning of the side's own. Over shared words it hangs on the
//!   name of the table alone, which the naming parameter names.
//! - Room for marks is looked up before each order and step. A step tells its client after its event, with the lock held.
//! - `EndsExactly` says of a batch: it ends at its last member, and at no other. Whether a stream is over is asked once,
//!   before the first step.
//! - What a batch drew is appended to a list of the caller's, also where memory ran out in its midst. Those steps stand in
//!   the journal, so a view must hear of them.
//! - A batch takes each member by `step`. A struct that holds a `&` is made from `&self.field`.
#![tactic(auto)]

mod answers;
mod batch;
mod batching;
mod doing;
mod ends;
mod house;
mod laws;
mod making;
mod marking;
mod meeting;
mod naming;
mod orders;
mod reading;
mod report;
mod run;
mod runs;
mod slot;
mod steps;

pub use answers::{Doing, Next, OrderRefused, Progress, WaitsKept};
pub use batch::Batch;
pub use house::House;
pub use house_core::Closing;
pub use laws::{
    no_wait_leads_back, none_is_taken_where_no_number_is_left, the_least_number_can_run,
};
pub use naming::Naming;
pub use report::Report;
pub use run::Run;
