/// A rectangle of texels.
#[derive(Clone, Copy)]
pub struct Rect {
    /// The leftmost column, counted from 0.
    pub x: u32,
    /// The topmost row, counted from 0.
    pub y: u32,
    /// How many columns there are.
    pub w: u32,
    /// How many rows there are.
    pub h: u32,
}
