//! A bounded queue in which the flushes of a stream go from its client to the service, on any threads.
//!
//! They come out in their order, none lost or doubled.
//!
//! A client posts the note of each flush to the queue of its stream, with no lock. The hall, which orders the flushes,
//! takes them there.
//!
//! What the contracts say:
//! - On whatever threads its two ends are, `take_next` gives the notes of a stream's flushes in their order. Each comes
//!   once and none is left out: the note is always that of the next flush of the plan.
//! - `post` answers Full after 16 posts at the earliest, and gives the note back.
//! - `make` gives an empty queue for the words and the plan of the client's pass, which comes back as it was.
//! - The rule of a queue: the queue holds the notes of the flushes that were posted and not taken, each once, rising.
//! - These three calls may wait. Only `make` takes memory.
//!
//! Notes:
//! - A note tells its words and its mark alone, and the plan says which flush has which mark. So the client's pass goes
//!   through the queue once, before the ends are parted, and both ends learn from it whose flushes they are.
//! - Of Full it follows that 16 flushes were posted, and no more; `post_early` of `part_tests` rests on this clause alone.
//!   None changes nothing, and no clause says more of it. That neither comes too early is tested.
//! - What a client has posted is the definition `HasPostedAll`.
#![tactic(auto)]

mod queue;
mod rule;
mod view;

pub use queue::{FlushQueue, Full, Poster, Taker, make};
