//! The texels of one image, which are not touched before the first of them is drawn.
ghost use Rattle.std.specs.Prelude.{◌≡◌, [], ◌+◌, ◌-◌, ◌*◌, ◌≤◌, ◌++◌, length, take, drop, replicate, slice_index, vec_len, vec_capacity, IfOk};
ghost use Rattle.gpu_store.specs.Rows.{IsDrawn};

use crate::rect::Rect;
use crate::rows;
use gpu_word::Memory;
use std::alloc::Global;
use std::marker::Model;

/// How many texels the longest side of an image may have.
pub const MOST_SIDE: u32 = 4096;

// Writes zeros after these texels, up to `count` of them. There is room for them.
fn settle(texels: &mut Vec<u32>, count: usize)
    requires within { vec_len texels.old ≤ count }
    requires room { count ≤ vec_capacity texels.old }
    ensures items { texels.new.items
        ≡ texels.old.items ++ replicate (count - length texels.old.items) 0 }
    ensures len { vec_len texels.new ≡ count }
    ensures capacity { vec_capacity texels.old ≤ vec_capacity texels.new }
{
    match texels.resize(count, 0) {
        Ok(()) => {}
        Err(_) => unreachable!(),
    }
}

/// Texels that are all 0 until something is drawn, seen as their list.
///
/// The memory for all of them is taken at once. Until something is drawn only the zeros of one longest row are written, and
/// each row shows these.
#[derive(Drop)]
pub(crate) struct Canvas {
    texels: Vec<u32>,
    count: usize,
}

impl Model for Canvas {
    ghost use Rattle.std.specs.Prelude.{ℕ, List, vec_capacity};
    ghost use Rattle.gpu_store.specs.Rows.{canvas_texels, IsCanvas};

    ghost Value = { List ℕ };

    ghost view = { λ canvas. canvas_texels canvas.count canvas.texels.items };

    ghost invariant = { λ canvas. IsCanvas canvas.count (vec_capacity canvas.texels)
        canvas.texels.items };
}

impl Canvas {
    /// A given number of texels of 0.
    pub(crate) fn zeros(alloc: Global, count: usize) -> Result<Canvas, Memory>
        ensures { IfOk result (λ canvas. canvas ≡ replicate count 0) }
    {
        let mut texels = Vec::with_capacity(alloc, count)?;
        settle(&mut texels, count.min(MOST_SIDE as usize));
        Ok(Canvas { texels, count })
    }

    /// No texels, which take no memory.
    pub(crate) fn empty(alloc: Global) -> Canvas
        ensures { result ≡ [] }
    {
        Canvas {
            texels: Vec::new(alloc),
            count: 0,
        }
    }

    /// `count` texels from the place `from` on, no more than a row may have.
    pub(crate) fn part(&self, from: usize, count: usize) -> &[u32]
        requires within { from + count ≤ length self.now }
        requires narrow { count ≤ MOST_SIDE }
        ensures { result.now ≡ take count (drop from self.now) }
    {
        if self.texels.len() < self.count {
            return &self.texels[..count];
        }
        &self.texels[from..from + count]
    }

    /// Writes one texel into a rectangle.
    #[inline(always)]
    pub(crate) fn fill(&mut self, width: usize, rect: Rect, texel: u32)
        requires columns { rect.x + rect.w ≤ width }
        requires rows { (rect.y + rect.h) * width ≤ length self.old }
        ensures { IsDrawn width rect (λ x y. texel) rect.y (rect.y + rect.h) self.old self.new }
    {
        settle(&mut self.texels, self.count);
        rows::fill(&mut self.texels, width, rect, texel);
    }

    /// Writes into a rectangle the texels of a rectangle of as many columns and rows of other texels.
    ///
    /// The other rectangle begins in column `sx` of row `sy` of rows that are `source_width` long.
    #[inline(always)]
    pub(crate) fn put(
        &mut self,
        width: usize,
        rect: Rect,
        source: &[u32],
        source_width: usize,
        sx: u32,
        sy: u32,
    )
        requires columns { rect.x + rect.w ≤ width }
        requires rows { (rect.y + rect.h) * width ≤ length self.old }
        requires source_columns { sx + rect.w ≤ source_width }
        requires source_rows { (sy + rect.h) * source_width ≤ length source.now }
        ensures { IsDrawn width rect
            (λ x y. slice_index source.now ((sy + y) * source_width + (sx + x))) rect.y
            (rect.y + rect.h) self.old self.new }
    {
        settle(&mut self.texels, self.count);
        rows::put(&mut self.texels, width, rect, source, source_width, sx, sy);
    }

    /// The same, where the other texels are those of a canvas.
    pub(crate) fn copy(
        &mut self,
        width: usize,
        rect: Rect,
        source: &Canvas,
        source_width: usize,
        sx: u32,
        sy: u32,
    )
        requires columns { rect.x + rect.w ≤ width }
        requires rows { (rect.y + rect.h) * width ≤ length self.old }
        requires source_columns { sx + rect.w ≤ source_width }
        requires source_rows { (sy + rect.h) * source_width ≤ length source.now }
        ensures { IsDrawn width rect
            (λ x y. slice_index source.now ((sy + y) * source_width + (sx + x))) rect.y
            (rect.y + rect.h) self.old self.new }
    {
        if source.texels.len() < source.count {
            return self.fill(width, rect, 0);
        }
        self.put(width, rect, &source.texels, source_width, sx, sy);
    }

    /// Copies the texels of a rectangle of as many columns and rows, as they were before, as [`rows::shift`] does.
    pub(crate) fn shift(&mut self, width: usize, rect: Rect, sx: u32, sy: u32)
        requires columns { rect.x + rect.w ≤ width }
        requires rows { (rect.y + rect.h) * width ≤ length self.old }
        requires source_columns { sx + rect.w ≤ width }
        requires source_rows { (sy + rect.h) * width ≤ length self.old }
        ensures { IsDrawn width rect
            (λ x y. slice_index self.old ((sy + y) * width + (sx + x))) rect.y (rect.y + rect.h)
            self.old self.new }
    {
        settle(&mut self.texels, self.count);
        rows::shift(&mut self.texels, width, rect, sx, sy);
    }
}
