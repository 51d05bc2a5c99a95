//! The lines, words and numbers of a script, and what its lines say, one by one.
//!
//! What the contracts say:
//! - A text is cut into lines, and a line into words, exactly as the definitions say.
//! - A word is read as a number exactly where its digits and its value are in range.
//! - `Values`, `first_value` and `first_decimal` say the same of the first word that is left of a line, and of what follows
//!   it.
//! - For both versions: what the words after each first word say, or the first of Word and Number that is wrong with them.
//! - A mentioned name has the number of its place among the names mentioned, counted from 1, and keeps it.
//!
//! Notes:
//! - The fences of a flush are counted before they are read, as Word comes first. So room for exactly that many is made at
//!   once.
#![tactic(auto)]

mod digit;
mod fault;
mod fences;
mod keyword;
mod line;
mod names;
mod number;
mod reading;
mod text;

pub use fault::{Kind, LineError, ScriptFault};
pub use fences::flush_said;
pub use keyword::{Keyword, keyword_of};
pub use line::{
    Putting, fill_begun, fill_said, none_said, one_said, put_begun, put_said, stream_said, two_said,
};
pub use names::Names;
pub use number::{decimal_u32, decimal_u64, hex_u32};
pub use reading::{Values, first_decimal, first_value, has_word};
pub use text::{Lines, Words, all_lines, cut_at, line_end};
