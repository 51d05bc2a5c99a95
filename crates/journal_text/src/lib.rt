//! The texts of the output: whole texts, and single lines that follow one another.
//!
//! What the contracts say:
//! - The texts of the output are exactly its format, whole and line by line.
//! - The memory for lines is taken when their `Sheet` is made, and none later.
//! - `Lines` are those of a part of the output: names, an image, streams or marks. Whoever prints or judges a run has each
//!   of them made.
//! - Numbers that differ have different digits. Histories that differ have different texts. A journal that the other parts
//!   of the output follow tells the history.
//!
//! Notes:
//! - Each append says by how much a text grows at most, so a line needs no error path. A whole text asks for room once a
//!   line.
#![tactic(auto)]

mod digits;
mod ended;
mod event_line;
mod image_lines;
mod laws;
mod lines;
mod mark_lines;
mod name_lines;
mod other_lines;
mod picture_line;
mod put;
mod sheet;
mod stream_line;
mod stream_lines;
mod tally;
mod text;

pub use digits::spaced_hex;
pub use ended::Ended;
pub use image_lines::ImageLines;
pub use laws::{
    histories_that_differ_have_different_texts, numbers_that_differ_have_different_digits,
    the_output_tells_the_history,
};
pub use lines::Lines;
pub use mark_lines::MarkLines;
pub use name_lines::NameLines;
pub use sheet::{MOST_EVENT_WORDS, MOST_LINE, Sheet};
pub use stream_lines::StreamLines;
pub use tally::Tally;
pub use text::{journal_text, mark_text, picture_text, stream_text, tally_text};
