//! Scripts that are generated from a size and a seed.
//!
//! What the contracts say:
//! - `generate` gives exactly the text that the definition gives for a size and a seed.
//!
//! Notes:
//! - A round is defined by its block of 32 values.
#![tactic(auto)]

mod digits;
mod draws;
mod script;

pub use script::{MOST_SIZE, generate};
