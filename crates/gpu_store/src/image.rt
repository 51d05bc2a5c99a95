ghost use Rattle.std.specs.Prelude.{◌≡◌, ◌+◌, ◌*◌, ◌≤◌, ◌<◌, [], length, slice_index, IfOk, IsTrue};
ghost use Rattle.gpu_store.specs.Picture.{texel_at, texel_row, IsWhole, painted, rectangle, has_rect, texel_count, redrawn};

use crate::canvas::{Canvas, MOST_SIDE};
use crate::rect::Rect;
use gpu_word::Memory;
use std::alloc::Global;
use std::marker::Model;

/// One image: its size, and its texels row after row.
#[derive(Drop)]
pub struct Image {
    width: u32,
    height: u32,
    texels: Canvas,
}

impl Model for Image {
    ghost use Rattle.gpu_store.specs.Picture.{Picture, IsStored};

    ghost Value = { Picture };

    ghost view = { λ image. record {
      width = image.width;
      height = image.height;
      texels = image.texels;
    } };

    ghost invariant = { λ image. IsStored image.width image.height image.texels };
}

impl Image {
    /// An image of this size whose texels are all 0.
    pub fn make(alloc: Global, width: u32, height: u32) -> Result<Image, Memory>
        requires width { width ≤ MOST_SIDE }
        requires height { height ≤ MOST_SIDE }
        ensures { IfOk result (λ image. image ≡ painted width height (λ x y. 0)) }
    {
        let texels = Canvas::zeros(alloc, width as usize * height as usize)?;
        Ok(Image {
            width,
            height,
            texels,
        })
    }

    /// An image without texels, which takes no memory.
    pub fn empty(alloc: Global) -> Image
        ensures { result.texels ≡ [] }
    {
        Image {
            width: 0,
            height: 0,
            texels: Canvas::empty(alloc),
        }
    }

    /// The width and the height, which say how many texels there are.
    pub fn size(&self) -> (u32, u32)
        ensures size { result ≡ (self.now.width, self.now.height) }
        ensures whole { IsWhole self.now }
    {
        (self.width, self.height)
    }

    /// How many texels there are.
    pub fn texel_count(&self) -> u32
        ensures { result ≡ texel_count self.now }
    {
        self.width * self.height
    }

    /// Whether the rectangle lies in the image.
    pub fn fits(&self, rect: Rect) -> bool
        ensures { result ≡ has_rect self.now rect }
    {
        rect.w <= self.width
            && rect.x <= self.width - rect.w
            && rect.h <= self.height
            && rect.y <= self.height - rect.h
    }

    /// The texels of a row.
    pub fn row(&self, y: u32) -> &[u32]
        requires { y < self.now.height }
        ensures row { result.now ≡ texel_row self.now y }
        ensures len { length result.now ≡ self.now.width }
        ensures narrow { length result.now ≤ MOST_SIDE }
    {
        let start = y as usize * self.width as usize;
        self.texels.part(start, self.width as usize)
    }

    /// Writes one texel into a rectangle.
    pub fn clear(&mut self, rect: Rect, texel: u32)
        requires { IsTrue (has_rect self.old rect) }
        ensures { self.new ≡ redrawn self.old rect (λ x y. texel) }
    {
        self.texels.fill(self.width as usize, rect, texel);
    }

    /// Writes texels into a rectangle, row by row.
    pub fn upload(&mut self, rect: Rect, texels: &[u32])
        requires fits { IsTrue (has_rect self.old rect) }
        requires count { length texels.now ≡ rect.w * rect.h }
        ensures { self.new
            ≡ redrawn self.old rect (λ x y. slice_index texels.now (y * rect.w + x)) }
    {
        self.texels
            .put(self.width as usize, rect, texels, rect.w as usize, 0, 0);
    }

    /// Copies a rectangle of another image, from column `sx` of row `sy` on, into a rectangle of this one.
    pub fn copy(&mut self, rect: Rect, source: &Image, sx: u32, sy: u32)
        requires fits { IsTrue (has_rect self.old rect) }
        requires source_fits { IsTrue (has_rect source.now (rectangle sx sy rect.w rect.h)) }
        ensures { self.new ≡ redrawn self.old rect (λ x y. texel_at source.now (sx + x) (sy + y)) }
    {
        self.texels.copy(
            self.width as usize,
            rect,
            &source.texels,
            source.width as usize,
            sx,
            sy,
        );
    }

    /// Copies a rectangle of this image, from column `sx` of row `sy` on, into another, as it was before.
    pub fn shift(&mut self, rect: Rect, sx: u32, sy: u32)
        requires fits { IsTrue (has_rect self.old rect) }
        requires source_fits { IsTrue (has_rect self.old (rectangle sx sy rect.w rect.h)) }
        ensures { self.new ≡ redrawn self.old rect (λ x y. texel_at self.old (sx + x) (sy + y)) }
    {
        self.texels.shift(self.width as usize, rect, sx, sy);
    }
}
