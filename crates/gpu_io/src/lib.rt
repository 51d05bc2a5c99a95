//! Where bytes come from and go to, with a count of faults that never falls, and the gate that a run passes at its places.
//!
//! What the contracts say:
//! - A call of any source or sink answers Failed only where its count of faults rose, and else no fault rose. It moved
//!   exactly the bytes that it says, where it tells them.
//! - The real ones tell what the reader and the writer of std tell.
//! - The kinds in memory fail exactly at the calls of given numbers and where there is no room. The steady source never
//!   fails, and the steady sink exactly where there is no room.
//! - `read_all` reads a source to its end. On Ok the bytes are all that was left. It is too long exactly where one byte
//!   more than the limit was read.
//! - `read_all` answers a fault only where the source's count rose. On Ok and where the input is too long it did not rise.
//!
//! Notes:
//! - A count of faults or of calls has 64 bits and stays at its last value. "The count rose" also holds there.
//! - The kinds in memory count their calls, failed ones too.
//! - A writer that takes no byte is a fault.
//! - Reading stops after one read more than the limit, or sooner. Each read but the one that finds the end gives a byte, and
//!   the loop's measure is how many bytes it may still take.
#![tactic(auto)]

mod bounded;
mod calls;
mod failed;
mod faults;
mod front;
mod gate;
mod memory_sink;
mod memory_source;
mod reading;
mod real_sink;
mod real_source;
mod sink;
mod source;
mod steady_sink;
mod steady_source;
mod unread;

pub use failed::Failed;
pub use gate::{Gate, OpenGate, Place};
pub use memory_sink::MemorySink;
pub use memory_source::MemorySource;
pub use reading::{ReadError, read_all, read_within};
pub use real_sink::RealSink;
pub use real_source::RealSource;
pub use sink::Sink;
pub use source::Source;
pub use steady_sink::SteadySink;
pub use steady_source::SteadySource;
