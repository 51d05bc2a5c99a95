//! Laws of scripts, of the histories that they have, and of the output of these; generated scripts, and the line of a
//! trial.
//!
//! Laws of scripts and of the output of histories:
//! - The plans of every script are lawful, so its serial history is legal and complete.
//! - The dump lines of a serial history say what their clients may have found. A later value may be printed
//!   too.
//! - No step, finish or loss by an error of a stream comes while a kept wait of its first number is pending. When one
//!   comes, and ever after the finish of that number, each kept wait of it has exactly one ending.
//! - While a number is unprocessed each of its kept waits is pending or has ended, and none is both.
//! - Each ending has the event that made it: the target came to the release, passed the number, or was closed. After a
//!   legal and complete history no wait is pending.
//! - Legal histories whose outputs are the same are the same, in either version. So they are by what any run prints, on one
//!   thread or on threads with viewers.
//! - A serial history has at most 409,800,016 events.
//! - After a legal history rule 6 holds wherever rules 4 and 5 do.
//! - A legal history has as many losses as lost streams.
//! - Each generated text is a script, whatever its seed and its size up to 2,000. No line of it is refused, it has four
//!   streams, in version 1, and it is within the limit of a script.
//!
//! What the contracts say:
//! - `trial_text` gives exactly the line of a trial. It has the size and the seed, the numbers of events, lost streams,
//!   images and endings of a run, and the sum of all texels of all images modulo 2^32.
//! - `generated_plans` gives the plans of the generated script; only memory can be lacking.
//!
//! Notes:
//! - That each loop of `run_one` ends is checked where it stands; how many events a run has is a law here, and no clause of
//!   `run_one`.
#![tactic(auto)]

mod counts;
mod digits;
mod generated;
mod laws;
mod line;
mod plans;

pub use generated::{generated_is_script, generated_is_short, losses_are_lost_streams};
pub use laws::{
    dumps_may_be_told, kept_waits_are_followed, outputs_tell_histories, rule_six_always_holds,
    scripts_are_lawful, serial_histories_are_short,
};
pub use line::trial_text;
pub use plans::generated_plans;
