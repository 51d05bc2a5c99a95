//! The images that all streams share: their texels, and the operations on them.
//!
//! What the contracts say:
//! - `apply`, `clear` and `copy` give exactly the answer and the images of the definition, by x and y. Every texel of a
//!   copy comes from the images before.
//! - An answer other than Done changes nothing.
//! - `unpack` is exactly the conversion of texels.
//! - `texel_sum` is the sum of all texels of all images, modulo 2^32.
//!
//! Notes:
//! - What an operation draws is a function of column and row. An operation is steps in the order of their answers: the
//!   first one that is refused is the answer, and the images then stay.
//! - An image takes all its memory when it is created, so drawing needs none. Until something is drawn, each row shows the
//!   zeros of one longest row.
//! - A row that overlaps its source is copied by the slice's own overlapping copy. Every other row is copied between two
//!   parts of the slice.
#![tactic(auto)]

mod canvas;
mod conversion;
mod image;
mod images;
mod numbers;
mod op;
mod rect;
mod rows;
mod sums;
mod texels;

pub use canvas::MOST_SIDE;
pub use conversion::{unpack, unpack_words};
pub use images::{Images, MOST_TEXELS};
pub use numbers::Numbers;
pub use op::{Answer, Op};
pub use rect::Rect;
pub use sums::texel_sum;
pub use texels::Texels;
