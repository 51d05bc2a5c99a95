//! The conversion of packed bytes into texels.
ghost use Rattle.std.specs.Prelude.{◌≡◌, ◌+◌, ◌%◌, ◌≤◌, ◌<◌, length, drop, IfOk};
ghost use Rattle.gpu_word.specs.Formats.{format_bytes};
ghost use Rattle.gpu_word.specs.Bytes.{values_of, bytes_of};
ghost use Rattle.gpu_store.specs.Conversion.{texel, widened, texel_565, texel_4444, texel_of, texels_of};

use crate::texels::Texels;
use gpu_word::{Format, Memory};
use std::alloc::Global;

// The texel of red, green, blue and alpha.
#[inline(always)]
fn pack(r: u32, g: u32, b: u32, a: u32) -> u32
    requires red { r ≤ 255 }
    requires green { g ≤ 255 }
    requires blue { b ≤ 255 }
    requires alpha { a ≤ 255 }
    ensures { result ≡ texel r g b a }
{
    (r << 24) + (g << 16) + (b << 8) + a
}

// Spreads a channel over the range of a byte.
#[inline(always)]
fn widen(channel: u32, most: u32) -> u32
    requires positive { 0 < most }
    requires within { channel ≤ most }
    requires small { most ≤ 255 }
    ensures value { result ≡ widened channel most }
    ensures byte { result ≤ 255 }
{
    channel * 255 / most
}

// The texel of five bits of red, six of green and five of blue.
#[inline(always)]
fn unpack_565(v: u32) -> u32
    requires { v < 65536 }
    ensures { result ≡ texel_565 v }
{
    pack(
        widen(v / 2048, 31),
        widen(v / 32 % 64, 63),
        widen(v % 32, 31),
        255,
    )
}

// The texel of four bits each of red, green, blue and alpha.
#[inline(always)]
fn unpack_4444(v: u32) -> u32
    requires { v < 65536 }
    ensures { result ≡ texel_4444 v }
{
    pack(
        widen(v / 4096, 15),
        widen(v / 256 % 16, 15),
        widen(v / 16 % 16, 15),
        widen(v % 16, 15),
    )
}

// The texel whose bytes begin at a place.
#[inline(always)]
fn texel_from(format: Format, bytes: &[u8], at: usize) -> u32
    requires { at + format_bytes format ≤ length bytes.now }
    ensures { result ≡ texel_of format (drop at bytes.now) }
{
    let first = u32::from(bytes[at]);
    match format {
        Format::Rgba8 => pack(
            first,
            u32::from(bytes[at + 1]),
            u32::from(bytes[at + 2]),
            u32::from(bytes[at + 3]),
        ),
        Format::Rgb565 => unpack_565(first + u32::from(bytes[at + 1]) * 256),
        Format::Rgba4444 => unpack_4444(first + u32::from(bytes[at + 1]) * 256),
        Format::L8 => pack(first, first, first, 255),
    }
}

// The texels of one format: inlined into each arm that knows the format, so that the loop tests nothing.
#[inline(always)]
fn unpack_as(alloc: Global, format: Format, bytes: &[u8]) -> Result<Texels, Memory>
    ensures { IfOk result (λ texels. texels ≡ texels_of format bytes.now) }
{
    let size = format.bytes() as usize;
    let count = bytes.len() / size;
    let mut items = Vec::with_capacity(alloc, count)?;
    for i in 0..count {
        items.push_reserved(texel_from(format, bytes, i * size));
    }
    Ok(Texels::of(items))
}

/// The texels of packed bytes, in their order.
///
/// A channel `c` whose greatest value is `max` becomes `c * 255 / max`; the alpha of a format without one is 255.
pub fn unpack(alloc: Global, format: Format, bytes: &[u8]) -> Result<Texels, Memory>
    requires { length bytes.now % format_bytes format ≡ 0 }
    ensures { IfOk result (λ texels. texels ≡ texels_of format bytes.now) }
{
    match format {
        Format::Rgba8 => unpack_as(alloc, Format::Rgba8, bytes),
        Format::Rgb565 => unpack_as(alloc, Format::Rgb565, bytes),
        Format::Rgba4444 => unpack_as(alloc, Format::Rgba4444, bytes),
        Format::L8 => unpack_as(alloc, Format::L8, bytes),
    }
}

/// The texels of the values of words that stand at places: each value has the bytes of one texel of red, green, blue and alpha.
pub fn unpack_words(alloc: Global, words: &[(u32, u32)]) -> Result<Texels, Memory>
    ensures texels { IfOk result
        (λ texels. texels ≡ texels_of Format.Rgba8 (bytes_of (values_of words.now))) }
    ensures count { IfOk result (λ texels. length texels ≡ length words.now) }
{
    let mut items = Vec::with_capacity(alloc, words.len())?;
    for word in words {
        let value = word.1;
        items.push_reserved(pack(
            value % 256,
            value / 256 % 256,
            value / 65_536 % 256,
            value / 16_777_216,
        ));
    }
    Ok(Texels::of(items))
}
