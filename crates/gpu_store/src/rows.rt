//! Rows of texels: a rectangle is drawn one row at a time, and each row is written as a slice.
ghost use Rattle.std.specs.Prelude.{◌+◌, ◌*◌, ◌≤◌, length, slice_index};
ghost use Rattle.gpu_store.specs.Rows.{IsWritten, IsDrawn};

use crate::rect::Rect;

// Writes one texel to `count` places from `from` on.
fn fill_row(texels: &mut [u32], from: usize, count: usize, texel: u32)
    requires { from + count ≤ length texels.old }
    ensures { IsWritten from count (λ i. texel) texels.old texels.new }
{
    texels[from..from + count].fill(texel);
}

// Writes `count` texels of other texels, from the place `from` on, to the places from `to` on.
fn put_row(texels: &mut [u32], source: &[u32], from: usize, count: usize, to: usize)
    requires source { from + count ≤ length source.now }
    requires target { to + count ≤ length texels.old }
    ensures { IsWritten to count (λ i. slice_index source.now (from + i)) texels.old texels.new }
{
    texels[to..to + count].copy_from_slice(&source[from..from + count]);
}

// Copies `count` texels from the places from `from` on to those from `to` on, which begin after the others.
fn move_down(texels: &mut [u32], from: usize, count: usize, to: usize)
    requires apart { from + count ≤ to }
    requires target { to + count ≤ length texels.old }
    ensures { IsWritten to count (λ i. slice_index texels.old (from + i)) texels.old texels.new }
{
    let (front, back) = texels.split_at_mut(to);
    put_row(back, front, from, count, 0);
}

// Copies `count` texels from the places from `from` on to those from `to` on, which end before the others.
fn move_up(texels: &mut [u32], from: usize, count: usize, to: usize)
    requires apart { to + count ≤ from }
    requires source { from + count ≤ length texels.old }
    ensures { IsWritten to count (λ i. slice_index texels.old (from + i)) texels.old texels.new }
{
    let (front, back) = texels.split_at_mut(from);
    put_row(front, back, 0, count, to);
}

// Copies `count` texels from the places from `from` on to those from `to` on, as they were before.
fn move_row(texels: &mut [u32], from: usize, count: usize, to: usize)
    requires source { from + count ≤ length texels.old }
    requires target { to + count ≤ length texels.old }
    ensures { IsWritten to count (λ i. slice_index texels.old (from + i)) texels.old texels.new }
{
    if from + count <= to {
        return move_down(texels, from, count, to);
    }
    if to + count <= from {
        return move_up(texels, from, count, to);
    }
    texels.copy_within(from..from + count, to);
}

/// Writes one texel into a rectangle.
#[inline(always)]
pub fn fill(texels: &mut [u32], width: usize, rect: Rect, texel: u32)
    requires columns { rect.x + rect.w ≤ width }
    requires rows { (rect.y + rect.h) * width ≤ length texels.old }
    ensures { IsDrawn width rect (λ x y. texel) rect.y (rect.y + rect.h) texels.old texels.new }
{
    let left = rect.x as usize;
    let top = rect.y as usize;
    for row in top..top + rect.h as usize {
        fill_row(texels, row * width + left, rect.w as usize, texel);
    }
}

/// Writes into a rectangle the texels of a rectangle of as many columns and rows of other texels.
///
/// The other rectangle begins in column `sx` of row `sy` of rows that are `source_width` long.
#[inline(always)]
pub fn put(
    texels: &mut [u32],
    width: usize,
    rect: Rect,
    source: &[u32],
    source_width: usize,
    sx: u32,
    sy: u32,
)
    requires columns { rect.x + rect.w ≤ width }
    requires rows { (rect.y + rect.h) * width ≤ length texels.old }
    requires source_columns { sx + rect.w ≤ source_width }
    requires source_rows { (sy + rect.h) * source_width ≤ length source.now }
    ensures { IsDrawn width rect
        (λ x y. slice_index source.now ((sy + y) * source_width + (sx + x))) rect.y
        (rect.y + rect.h) texels.old texels.new }
{
    let left = rect.x as usize;
    let top = rect.y as usize;
    for row in top..top + rect.h as usize {
        let from = (sy as usize + (row - top)) * source_width + sx as usize;
        put_row(texels, source, from, rect.w as usize, row * width + left);
    }
}

/// Copies the texels of a rectangle of as many columns and rows, as they were before.
///
/// That rectangle begins in column `sx` of row `sy`. Where the rectangles overlap, the rows go in the order in which
/// none is read after it was written.
pub fn shift(texels: &mut [u32], width: usize, rect: Rect, sx: u32, sy: u32)
    requires columns { rect.x + rect.w ≤ width }
    requires rows { (rect.y + rect.h) * width ≤ length texels.old }
    requires source_columns { sx + rect.w ≤ width }
    requires source_rows { (sy + rect.h) * width ≤ length texels.old }
    ensures { IsDrawn width rect
        (λ x y. slice_index texels.old ((sy + y) * width + (sx + x))) rect.y
        (rect.y + rect.h) texels.old texels.new }
{
    if rect.y <= sy {
        shift_up(texels, width, rect, sx, sy);
    } else {
        shift_down(texels, width, rect, sx, sy);
    }
}

// Copies a rectangle to the same or an upper row, the uppermost row first.
fn shift_up(texels: &mut [u32], width: usize, rect: Rect, sx: u32, sy: u32)
    requires upwards { rect.y ≤ sy }
    requires columns { rect.x + rect.w ≤ width }
    requires rows { (rect.y + rect.h) * width ≤ length texels.old }
    requires source_columns { sx + rect.w ≤ width }
    requires source_rows { (sy + rect.h) * width ≤ length texels.old }
    ensures { IsDrawn width rect
        (λ x y. slice_index texels.old ((sy + y) * width + (sx + x))) rect.y
        (rect.y + rect.h) texels.old texels.new }
{
    let left = rect.x as usize;
    let top = rect.y as usize;
    for row in top..top + rect.h as usize {
        let from = (sy as usize + (row - top)) * width + sx as usize;
        move_row(texels, from, rect.w as usize, row * width + left);
    }
}

// Copies a rectangle to a lower row, the lowest row first.
fn shift_down(texels: &mut [u32], width: usize, rect: Rect, sx: u32, sy: u32)
    requires downwards { sy ≤ rect.y }
    requires columns { rect.x + rect.w ≤ width }
    requires rows { (rect.y + rect.h) * width ≤ length texels.old }
    requires source_columns { sx + rect.w ≤ width }
    requires source_rows { (sy + rect.h) * width ≤ length texels.old }
    ensures { IsDrawn width rect
        (λ x y. slice_index texels.old ((sy + y) * width + (sx + x))) rect.y
        (rect.y + rect.h) texels.old texels.new }
{
    let left = rect.x as usize;
    let top = rect.y as usize;
    for row in (top..top + rect.h as usize).rev() {
        let from = (sy as usize + (row - top)) * width + sx as usize;
        move_row(texels, from, rect.w as usize, row * width + left);
    }
}
