//! Reads journal texts, and judges an input of a script and a journal: whether the journal is a legal and complete history
//! of the script.
//!
//! What the contracts say:
//! - `examine` takes a whole input: a script, a line whose only word is `journal`, and a journal text that the rest of an
//!   output may follow. It says which of these holds:
//!   - the script has this first bad line, with its first kind;
//!   - there is no journal, since this line of the input is missing or refused;
//!   - this event is the first that breaks a rule, and this is the rule;
//!   - the journal is legal and not complete;
//!   - it is a legal and complete history, of this number of events, that leaves these images.
//! - `read_journal` gives the events whose journal text the text is, of numbers of 32 bits. Else it gives the first line
//!   that is no event's, counted from 1. It does so for every text within the limit.
//! - Laws: one of the findings alone holds of an input, and of one with a whole output. A text with a line that is no
//!   event's is no journal text. A text is that of one list of events at most.
//!
//! Notes:
//! - The reader of scripts takes leading zeros; a further look at the first byte refuses them in journals. What follows the
//!   last line feed is a line too, and never an event's.
#![tactic(auto)]

mod border;
mod cut;
mod digit;
mod event;
mod examining;
mod fault;
mod finding;
mod heading;
mod laws;
mod looks;
mod number;
mod pieces;
mod reading;
mod reading_lines;
mod rest;
mod sections;
mod what;
mod whole;
mod word;

pub use examining::examine;
pub use fault::JournalFault;
pub use finding::Finding;
pub use laws::{
    findings_exclude_one_another, journal_texts_are_told_apart, whole_findings_exclude_one_another,
};
pub use reading::read_journal;
pub use rest::MOST_WHOLE_BYTES;
pub use what::What;
pub use whole::examine_whole;
