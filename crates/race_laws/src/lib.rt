//! Laws of what a run with workers may change.
//!
//! Law of one history:
//! - The state of a stream is that of its own events, but for how many of its image operations failed.
//!
//! Laws of two histories of one script:
//! - Of two legal histories, in one of which the client of a stream changed no word in flight, the stream did the same as
//!   far as both go.
//! - Where a stream is settled in one of two whole histories, it did the same in both. A whole one is legal and complete,
//!   and loses no stream as out of memory.
//! - Where every stream did the same in both, the images that are made fit together, and steps that conflict stand in the
//!   same order, both leave the same images and states.
//! - A history shows no race where every stream is settled in it, no steps of different streams conflict, and the images
//!   fit together. Where one whole history shows none, none does, and all leave the same images and states.
//! - Where the serial history shows none, the output of every whole history has its images and stream lines.
//! - Two rectangles overlap exactly where a texel lies in both.
//!
//! Notes:
//! - The program does not stand on this crate, so no build waits for it.
//! - A run on threads that ends with status 0 or 1 prints the output of a whole history: the contract of `top` says so.
//! - Which words a stream fetches and how its commands are judged rests on no image: a verdict never reads how an image
//!   operation was answered. So the first two laws speak of no image.
#![tactic(auto)]

mod laws;

pub use laws::{
    conflicts_decide, one_result, overlaps_are_shared, states_are_own, the_serial_history_shows_it,
    works_agree,
};
