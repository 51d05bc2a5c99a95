//! What the program says: its commands, its statuses, and its answers on one thread.
//!
//! `plain_top`, the program on one thread, has one clause: the record `Conducts`, whose eleven fields are the theorem. It
//! can be read in `specs/Conducts.antt`. `top` of `script_main` has the same clause for every list of words.
//!
//! What the contracts say:
//! - `run`: the input is a script. The output of a legal and complete history of it was added, then lines that may be told
//!   of its dumps, and with viewers the 17 lines of each. Without workers that history is the serial one, which has no loss
//!   as out of memory, and the dump lines are those of that history.
//! - MemoryLost comes exactly where a stream of the history is lost as out of memory, and else SomeLost exactly where one
//!   is lost by an error.
//! - `check` adds the line of the counts, `generate` the generated script, and `trial` the line of its serial history.
//! - `verify`: on Ok the input is a script and a legal and complete journal of it, and the number of its events and its
//!   images were added. No, NotComplete and NoJournal come only where that is the verdict on it.
//! - `verify --whole`: on Ok the input is a script and the output of a run of it on threads. A Differs comes only where a line
//!   is off, and names the first.
//! - After WriteFault a prefix of that text stands. Each other status but NoMemory comes only with its cause, Refused with
//!   the first bad line and its first kind. All of these leave the sink alone.
//! - Where the source tells its bytes, field `complete` says which answer they have.
//! - `is_plain` says exactly which words are for `plain_top`, which takes no handle, so it always returns.
//! - A run that does not end with MemoryLost lost no stream as out of memory: field `kept` of `IsRun`.
//! - Laws: runs on threads that print the same have the same history, whatever was read and seen during them. What `run` writes
//!   is right for `verify --whole`, and what is right for that is right for `verify`. All events of a legal history have at most 17,891,328 words. Each limit that a
//!   definition names has its value.
//!
//! Notes:
//! - With `verify`, also of a whole output, the lines before the line `journal` are the script, and else all of them.
#![tactic(auto)]

mod answer;
mod answering;
mod command;
mod counts;
mod fault;
mod input;
mod laws;
mod plain;
mod status;

pub use answer::Answer;
pub use answering::answer_to;
pub use command::{Command, MOST_WORKERS, command_of, is_plain};
pub use fault::{Fault, fault_of};
pub use input::take_input;
pub use laws::{
    legal_words_are_few, limits_have_their_values, runs_are_judged_whole,
    viewed_runs_tell_histories, whole_yes_is_yes,
};
pub use plain::plain_top;
pub use status::Status;
