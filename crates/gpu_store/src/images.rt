ghost use Rattle.std.specs.Prelude.{◌≡◌, ◌&&◌, ◌≤◌, ◌<◌, ◌*◌, ◌≢◌, [], length, slice_get, IsErr, IsSome, IsSomeAnd, IfOk, IfSome, OnOk, OnErr, option_map};
ghost use Rattle.std.specs.Ordering.{nat_cmp};
ghost use Rattle.std.specs.List.{All};
ghost use Rattle.std.specs.List.Sorted.{IsStrictlyIncreasing, IsStrictlySortedBy};
ghost use Rattle.gpu_store.specs.Images.{picture_of, numbers, total_texels, apply, is_side, HasItsTexels, IsCreate};
ghost use Rattle.gpu_store.specs.Picture.{texel_row, IsWhole};

use crate::canvas::MOST_SIDE;
use crate::image::Image;
use crate::numbers::Numbers;
use crate::op::{Answer, Op};
use crate::rect::Rect;
use gpu_word::Memory;
use std::alloc::Global;
use std::collections::BTreeMap;
use std::marker::Model;
use std::mem;

/// How many texels all images may have together.
pub const MOST_TEXELS: u32 = 4_194_304;

/// The images by their numbers.
#[derive(Drop)]
pub struct Images {
    alloc: Global,
    images: BTreeMap<u32, Image>,
    texels: u32,
}

impl Model for Images {
    ghost use Rattle.gpu_store.specs.Images.{Pictures, AreCounted};

    ghost Value = { Pictures };

    ghost view = { λ store. store.images.entries };

    ghost invariant = { λ store. AreCounted store.texels store.images.entries };
}

// Whether an image may have these sides.
fn is_size(width: u32, height: u32) -> bool
    ensures { result ≡ (is_side width && is_side height) }
{
    1 <= width && width <= MOST_SIDE && 1 <= height && height <= MOST_SIDE
}

impl Images {
    /// No image.
    pub fn make(alloc: Global) -> Images
        ensures { result ≡ [] }
    {
        Images {
            alloc,
            images: BTreeMap::new(alloc),
            texels: 0,
        }
    }

    // Makes an image of zeros.
    fn create(&mut self, image: u32, width: u32, height: u32) -> Result<Answer, Memory>
        ensures answer { IfOk result
            (λ answer. answer ≡ (apply self.old (Op.Create image width height)).answer) }
        ensures images { OnOk result
            (self.new ≡ (apply self.old (Op.Create image width height)).images) }
        ensures memory { OnErr result (self.new ≡ self.old) }
    {
        if self.images.contains_key(&image) {
            return Ok(Answer::InvalidOperation);
        }
        if !is_size(width, height) {
            return Ok(Answer::InvalidValue);
        }
        if width * height > MOST_TEXELS - self.texels {
            return Ok(Answer::OutOfTexels);
        }
        let blank = Image::make(self.alloc, width, height)?;
        self.images.insert(image, blank)?;
        self.texels += width * height;
        Ok(Answer::Done)
    }

    // Takes an image away.
    fn delete(&mut self, image: u32) -> Answer
        ensures answer { result ≡ (apply self.old (Op.Delete image)).answer }
        ensures images { self.new ≡ (apply self.old (Op.Delete image)).images }
    {
        match self.images.remove(&image) {
            None => Answer::InvalidOperation,
            Some(removed) => {
                self.texels -= removed.texel_count();
                Answer::Done
            }
        }
    }

    /// Writes one texel into a rectangle, with the answer of the operation Clear.
    pub fn clear(&mut self, image: u32, rect: Rect, texel: u32) -> Answer
        ensures answer { result ≡ (apply self.old (Op.Clear image rect texel)).answer }
        ensures images { self.new ≡ (apply self.old (Op.Clear image rect texel)).images }
    {
        let Some(found) = self.images.get_mut(&image) else {
            return Answer::InvalidOperation;
        };
        if !found.fits(rect) {
            return Answer::InvalidValue;
        }
        found.clear(rect, texel);
        Answer::Done
    }

    // Writes texels into a rectangle, row by row.
    fn upload(&mut self, image: u32, rect: Rect, texels: &[u32]) -> Answer
        requires { length texels.now ≡ rect.w * rect.h }
        ensures answer { result ≡ (apply self.old (Op.Upload image rect texels.now)).answer }
        ensures images { self.new ≡ (apply self.old (Op.Upload image rect texels.now)).images }
    {
        let Some(found) = self.images.get_mut(&image) else {
            return Answer::InvalidOperation;
        };
        if !found.fits(rect) {
            return Answer::InvalidValue;
        }
        found.upload(rect, texels);
        Answer::Done
    }

    /// Copies a rectangle of one image into another or the same, with the answer of the operation Copy.
    pub fn copy(
        &mut self,
        source: u32,
        sx: u32,
        sy: u32,
        target: u32,
        dx: u32,
        dy: u32,
        w: u32,
        h: u32,
    ) -> Answer
        ensures answer { result ≡ (apply self.old (Op.Copy source sx sy target dx dy w h)).answer }
        ensures images { self.new
            ≡ (apply self.old (Op.Copy source sx sy target dx dy w h)).images }
    {
        let to = Rect { x: dx, y: dy, w, h };
        let answer = self.copy_answer(source, sx, sy, target, to);
        if answer != Answer::Done {
            return answer;
        }
        if source == target {
            self.copy_within(target, sx, sy, to);
        } else {
            self.copy_between(source, sx, sy, target, to);
        }
        answer
    }

    // The answer of a copy from column `sx` of row `sy` on.
    fn copy_answer(&self, source: u32, sx: u32, sy: u32, target: u32, to: Rect) -> Answer
        ensures { result ≡ (apply self.now
            (Op.Copy source sx sy target to.x to.y to.w to.h)).answer }
    {
        let from = Rect {
            x: sx,
            y: sy,
            w: to.w,
            h: to.h,
        };
        let Some(shown) = self.images.get(&source) else {
            return Answer::InvalidOperation;
        };
        let Some(found) = self.images.get(&target) else {
            return Answer::InvalidOperation;
        };
        if shown.fits(from) && found.fits(to) {
            return Answer::Done;
        }
        Answer::InvalidValue
    }

    // Copies a rectangle of an image into the same image.
    fn copy_within(&mut self, image: u32, sx: u32, sy: u32, to: Rect)
        requires { (apply self.old (Op.Copy image sx sy image to.x to.y to.w to.h)).answer
            ≡ Answer.Done }
        ensures { self.new ≡ (apply self.old
            (Op.Copy image sx sy image to.x to.y to.w to.h)).images }
    {
        self.images.get_mut(&image).unwrap().shift(to, sx, sy);
    }

    // Copies a rectangle of an image into another image, which is out of the map for as long.
    fn copy_between(&mut self, source: u32, sx: u32, sy: u32, target: u32, to: Rect)
        requires apart { source ≢ target }
        requires done { (apply self.old (Op.Copy source sx sy target to.x to.y to.w to.h)).answer
            ≡ Answer.Done }
        ensures { self.new ≡ (apply self.old
            (Op.Copy source sx sy target to.x to.y to.w to.h)).images }
    {
        let empty = Image::empty(self.alloc);
        let mut drawn = mem::replace(self.images.get_mut(&target).unwrap(), empty);
        drawn.copy(to, self.images.get(&source).unwrap(), sx, sy);
        *self.images.get_mut(&target).unwrap() = drawn;
    }

    /// Does an operation, or answers why not.
    ///
    /// Only Create takes memory, and where it is wanted nothing changes.
    #[inline(always)]
    pub fn apply(&mut self, op: &Op) -> Result<Answer, Memory>
        requires { HasItsTexels op.now }
        ensures answer { IfOk result (λ answer. answer ≡ (apply self.old op.now).answer) }
        ensures images { OnOk result (self.new ≡ (apply self.old op.now).images) }
        ensures only_create { IsErr result → IsCreate op.now }
        ensures memory { OnErr result (self.new ≡ self.old) }
    {
        match op {
            Op::Create {
                image,
                width,
                height,
            } => self.create(*image, *width, *height),
            Op::Delete { image } => Ok(self.delete(*image)),
            Op::Clear { image, rect, texel } => Ok(self.clear(*image, *rect, *texel)),
            Op::Copy {
                source,
                sx,
                sy,
                target,
                dx,
                dy,
                w,
                h,
            } => Ok(self.copy(*source, *sx, *sy, *target, *dx, *dy, *w, *h)),
            Op::Upload {
                image,
                rect,
                texels,
            } => Ok(self.upload(*image, *rect, texels.as_slice())),
        }
    }

    /// How many images there are.
    pub fn count(&self) -> u32
        ensures count { result ≡ length self.now }
        ensures rising { IsStrictlyIncreasing (numbers self.now) }
        ensures within { total_texels self.now ≤ MOST_TEXELS }
    {
        self.images.len() as u32
    }

    /// The number of the image at a place in the rising order of numbers, counted from 0.
    pub fn id(&self, index: u32) -> u32
        requires { index < length self.now }
        ensures number { slice_get (numbers self.now) index ≡ Some result }
        ensures found { picture_of self.now result
            ≡ option_map (λ entry. entry.1) (slice_get self.now index) }
    {
        self.number_at(index as usize)
    }

    // The number at a place in the order, and that the numbers are in order.
    fn number_at(&self, index: usize) -> u32
        requires { index < length self.now }
        ensures number { slice_get (numbers self.now) index ≡ Some result }
        ensures sorted { IsStrictlySortedBy nat_cmp (numbers self.now) }
    {
        *self.images.keys().nth(index).unwrap()
    }

    /// The numbers of all images, in rising order: one walk over the map, where `id` looks each place up anew.
    pub fn numbers(&self) -> Numbers<'_>
        ensures numbers { result ≡ numbers self.now }
        ensures sorted { IsStrictlySortedBy nat_cmp (numbers self.now) }
        ensures found { All (λ image. IsSome (picture_of self.now image)) result }
    {
        Numbers::over(self.images.keys())
    }

    /// The width and the height of an image, or `None` where it is missing.
    pub fn size(&self, image: u32) -> Option<(u32, u32)>
        ensures size { result ≡ option_map (λ picture. (picture.width, picture.height))
            (picture_of self.now image) }
        ensures whole { IfSome (picture_of self.now image) IsWhole }
    {
        let found = self.images.get(&image)?;
        Some(found.size())
    }

    /// The texels of a row of an image, from left to right.
    pub fn row(&self, image: u32, y: u32) -> &[u32]
        requires { IsSomeAnd (picture_of self.now image) (λ picture. y < picture.height) }
        ensures row { IfSome (picture_of self.now image)
            (λ picture. result.now ≡ texel_row picture y) }
        ensures len { IfSome (picture_of self.now image)
            (λ picture. length result.now ≡ picture.width) }
        ensures narrow { length result.now ≤ MOST_SIDE }
    {
        self.images.get(&image).unwrap().row(y)
    }
}
