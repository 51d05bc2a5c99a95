use crate::rect::Rect;
use crate::texels::Texels;

/// An operation on the images. Images go by their numbers, and places and sizes are in texels.
#[derive(Drop)]
pub enum Op {
    /// Makes an image of this width and height, each from 1 to 4,096, whose texels are all 0.
    Create {
        image: u32,
        width: u32,
        height: u32,
    },
    /// Takes an image away.
    Delete {
        image: u32,
    },
    /// Writes one texel into a rectangle.
    Clear {
        image: u32,
        rect: Rect,
        texel: u32,
    },
    /// Copies the rectangle of `w` columns and `h` rows at `sx` and `sy` of the source to `dx` and `dy` of the target.
    Copy {
        source: u32,
        sx: u32,
        sy: u32,
        target: u32,
        dx: u32,
        dy: u32,
        w: u32,
        h: u32,
    },
    /// Writes texels into a rectangle, row by row: as many as the rectangle has.
    Upload {
        image: u32,
        rect: Rect,
        texels: Texels,
    },
}

/// How an operation ended. Every answer other than `Done` leaves the images as they were.
#[derive(Clone, Copy, PartialEq, Eq)]
pub enum Answer {
    /// The operation was done.
    Done,
    /// A side of a new image is out of range, or a rectangle is outside its image.
    InvalidValue,
    /// An image is missing, or a new one is there already.
    InvalidOperation,
    /// The texels of all images would be too many.
    OutOfTexels,
}
