//! The output of a run, written to a sink line by line in big pieces.
//!
//! What the contracts say:
//! - `RunOutput::make` takes all room that writing needs: that of the piece that is written at once, and of the longest
//!   line.
//! - `write` then adds exactly the output of the run to a sink, section by section: names, journal, images, streams, marks,
//!   dumps and looks. Where the sink fails, it adds a prefix of them.
//! - `PictureOutput` does so with a text and images.
//!
//! Notes:
//! - A piece is written once it has 65,536 bytes, or at the end. No public clause says so.
//! - The dumps of a `RunOutput` are those that it is given, so a run on threads can use it too.
#![tactic(auto)]

mod dump_lines;
mod event_lines;
mod look_lines;
mod outcome;
mod output;
mod page;
mod picture_output;
mod run;
mod writing;

pub use picture_output::PictureOutput;
pub use run::RunOutput;
pub use writing::write_all;
