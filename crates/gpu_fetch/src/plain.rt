mod list;
mod pass;
mod words;

pub use pass::PlainPass;
pub use words::{PlainNote, PlainWords};
