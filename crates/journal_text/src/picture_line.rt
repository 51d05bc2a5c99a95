ghost use Rattle.std.specs.Prelude.{◌≡◌, ◌+◌, ◌*◌, ◌≤◌, ◌∷◌, length, vec_len, vec_capacity};
ghost use Rattle.std.specs.List.{flat_map};
ghost use Rattle.journal_text.specs.Appended.{Appended};
ghost use Rattle.journal_text.specs.Digits.{hex8};
ghost use Rattle.journal_text.specs.Picture.{head_text, row_text};

use crate::digits::{put_hex, put_number, spaced_hex};
use crate::put::put;

/// The most bytes of an image's own line.
pub(crate) const HEAD: usize = 80;

/// The bytes of a texel with the space or the line feed after it.
pub(crate) const TEXEL: usize = 9;

/// Appends the own line of an image.
#[tactic(auto, unfolding(crate::specs::Picture::head_text))]
pub(crate) fn put_head(out: &mut Vec<u8>, image: u32, width: u32, height: u32)
    requires { vec_len out.old + HEAD ≤ vec_capacity out.old }
    ensures { Appended out.old out.new (head_text image width height) }
{
    put(out, b"image");
    put_number(out, u64::from(image));
    put_number(out, u64::from(width));
    put_number(out, u64::from(height));
    out.push_reserved(b'\n');
}

// Appends a space and a texel for each of the texels.
fn put_texels(out: &mut Vec<u8>, texels: &[u32])
    requires { vec_len out.old + TEXEL * length texels.now ≤ vec_capacity out.old }
    ensures text { Appended out.old out.new (flat_map (λ texel. 32 ∷ hex8 texel) texels.now) }
    ensures len { vec_len out.new ≡ vec_len out.old + TEXEL * length texels.now }
{
    for texel in texels {
        put(out, &spaced_hex(*texel));
    }
}

/// Appends the line of a row.
#[tactic(auto, unfolding(crate::specs::Picture::row_text))]
pub(crate) fn put_row(out: &mut Vec<u8>, texels: &[u32])
    requires { vec_len out.old + TEXEL * length texels.now + 1 ≤ vec_capacity out.old }
    ensures { Appended out.old out.new (row_text texels.now) }
{
    match texels {
        [] => out.push_reserved(b'\n'),
        [first, more @ ..] => {
            put_hex(out, *first);
            put_texels(out, more);
            out.push_reserved(b'\n');
        }
    }
}
