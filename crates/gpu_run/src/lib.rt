//! Runs of whole scripts.
//!
//! What the contracts say:
//! - `run_one` runs any script on one thread. Where it answers Ok, the journal of the report is the serial history of the
//!   plans. The report has these plans and the base of the callback's marks. What each client read of its results is what
//!   the definition of dumps says of that history.
//! - It takes no handle, so it always returns. Where memory runs out it answers `Memory` and loses no stream, since the
//!   serial history has no such loss; the run at hand is lost with the house that it came from.
//! - `run_one` makes of each stream a client over words of its own, a side and a book, names them at one call by the naming
//!   parameter, and makes a house of them.
//! - Each append owes one equation: its event is the one that follows by the rule (`next`). Between the calls `IsServed`
//!   says what the house and the clients have of each other. `IsRising`, `HaveActed` and `IsRunning` say how far the round
//!   is. At the end no event follows, so the journal is the serial history.
//!
//! Notes:
//! - Over plain words the house writes no results to the clients, who read the state of their stream. A client reads a dump
//!   as it passes it; dumps ahead are read from the last state.
//! - A client stores the puts that follow one another in one loop.
#![tactic(auto)]

mod act;
mod client;
mod closing;
mod parts;
mod reading;
mod rounds;
mod running;
mod serial;

pub use serial::run_one;
