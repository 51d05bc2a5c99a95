ghost use Rattle.std.specs.Prelude.{◌≡◌, ◌+◌, ◌%◌, ◌^◌, IfSome, IsSome};
ghost use Rattle.std.specs.List.{sum};
ghost use Rattle.gpu_store.specs.Images.{picture_of};
ghost use Rattle.gpu_store.specs.Sums.{texel_sum};

use crate::images::Images;

// A sum with the texels of a row, modulo 2^32.
fn with_row(before: u32, row: &[u32]) -> u32
    ensures { result ≡ (before + sum row.now) % 2 ^ 32 }
{
    let mut total = before;
    for texel in row {
        total = total.wrapping_add(*texel);
    }
    total
}

// A sum with the texels of an image, modulo 2^32.
fn with_image(before: u32, images: &Images, image: u32) -> u32
    requires { IsSome (picture_of images.now image) }
    ensures { IfSome (picture_of images.now image)
        (λ picture. result ≡ (before + sum picture.texels) % 2 ^ 32) }
{
    let (_, height) = images.size(image).unwrap();
    let mut total = before;
    for y in 0..height {
        total = with_row(total, images.row(image, y));
    }
    total
}

/// The sum of all texels of all images, modulo 2^32.
pub fn texel_sum(images: &Images) -> u32
    ensures { result ≡ texel_sum images.now }
{
    let mut total = 0;
    for image in images.numbers() {
        total = with_image(total, images, image);
    }
    total
}
