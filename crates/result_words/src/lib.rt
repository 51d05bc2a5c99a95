//! The result words of one stream: its service writes results there and counts finishes, and its client reads them.
//!
//! Word 0 counts finishes, and word 1 + i is result place i. The two may be on any threads.
//!
//! Nobody can say of a read alone which write it has seen, since the service goes on writing. So a reader notes its reads.
//!
//! What the contracts say:
//! - `write` and `finish` add exactly one member to the list of what the writer has written, and change nothing else.
//! - `read` loads the number of finishes once. It answers None exactly where that number is below the one asked for. Else
//!   it adds its place, that number and the value to the reader's list. The numbers loaded never fall.
//! - The rule of the words says between any two steps: each noted read is the last value written to its place in a prefix
//!   of the writer's list with enough finishes.
//! - `settle` takes the reader back and gives the writer that sentence. Each value that the reader got is the last one
//!   written to its place, or 0, in a prefix of the writer's list. That prefix has at least as many finishes as the reader
//!   asked for.
//! - `Dumps` is a list of what a client has read: of each dump its action place, its result place and its value.
//! - No call ever blocks: none takes a Wait. Only `make` and `Dumps::push` take memory.
//!
//! Notes:
//! - A read that answers None loads no result, and is not in the list of reads.
//! - A read asks for less than 2^32 finishes, so no answer depends on what a word of 64 bits cannot count.
//! - How many finishes a read asks for comes to its load by a meaning of a trait, and is noted with the value.
//! - The number of places is the key of the rule; there is one word more. `part_tests` shows that the types may cross
//!   threads.
#![tactic(auto)]

mod dumps;
mod maker;
mod plays;
mod reader;
mod view;
mod words;
mod writer;

pub use dumps::Dumps;
pub use maker::make;
pub use reader::ResultReader;
pub use words::ResultWords;
pub use writer::ResultWriter;
