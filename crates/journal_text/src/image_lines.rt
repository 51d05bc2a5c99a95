ghost use Rattle.std.specs.Prelude.{◌≡◌, ◌<◌, ◌^◌, Some, IsSome, option_map};
ghost use Rattle.gpu_store.specs.Images.{picture_of};
ghost use Rattle.journal_text.specs.Parts.{image_lines};

use crate::lines::Lines;
use crate::sheet::Sheet;
use gpu_store::Images;

/// An image: its own line, and a line for each of its rows from the top.
#[derive(Drop)]
pub struct ImageLines<'a> {
    pub images: &'a Images,
    pub image: u32,
    pub height: u32,
    ghost there: { option_map (λ picture. picture.height) (picture_of images.now image)
        ≡ Some height },
    ghost small: { height < 2 ^ 32 },
}

impl<'a> ImageLines<'a> {
    /// The lines of one of the images.
    #[tactic(auto, using(crate::proofs::Parts::height_found))]
    pub fn of(images: &'a Images, image: u32) -> ImageLines<'a>
        requires { IsSome (picture_of images.now image) }
        ensures images { result.images.now ≡ images.now }
        ensures image { result.image ≡ image }
    {
        let (_, height) = images.size(image).unwrap();
        ImageLines {
            images,
            image,
            height,
        }
    }
}

impl<'a> Lines for ImageLines<'a> {
    ghost lines = { λ i. image_lines i.image (picture_of i.images.now i.image) };

    fn count(&self) -> usize {
        self.height as usize + 1
    }

    fn make(&self, index: usize, sheet: &mut Sheet) {
        if index == 0 {
            sheet.put_image(self.images, self.image);
        } else {
            sheet.put_row(self.images, self.image, index as u32 - 1);
        }
    }
}
