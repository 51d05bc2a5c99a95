ghost use Rattle.std.specs.Prelude.{◌≡◌, ◌+◌, ◌<◌, ◌≤◌, ◌++◌, length, drop, false, vec_len, vec_capacity, OnOk};
ghost use Rattle.std.specs.Fmt.{digits, digit_glyph};
ghost use Rattle.std.specs.List.{flat_map};
ghost use Rattle.script_generator.specs.Appending.{AppendsWithin};
ghost use Rattle.script_generator.specs.Generator.{spaced_number, value_text};

use itoa::Buffer;
use std::alloc::AllocError;

/// The most bytes of a value: a space and eight digits.
pub(crate) const VALUE: usize = 9;

/// Appends bytes in room that is there, one by one: they are few, and a call for all of them costs more.
#[inline(always)]
pub(crate) fn put_text(out: &mut Vec<u8>, text: &[u8])
    requires { vec_len out.old + length text.now ≤ vec_capacity out.old }
    ensures { AppendsWithin out.old out.new text.now (length text.now) }
{
    for byte in text {
        out.push_reserved(*byte);
    }
}

/// Appends a space and a number in decimal digits.
pub(crate) fn push_number(out: &mut Vec<u8>, number: u32) -> Result<(), AllocError>
    ensures { OnOk result (out.new.items ≡ out.old.items ++ spaced_number number) }
{
    let mut buffer = Buffer::new();
    out.push(b' ')?;
    out.extend_from_slice(buffer.format(u64::from(number)).as_bytes())
}

// The digits below 16, in lower case.
static DIGITS: [u8; 16] = *b"0123456789abcdef";

// A digit below 16, in lower case.
#[inline(always)]
fn hex_digit(digit: u32) -> u8
    requires { digit < 16 }
    ensures { result ≡ digit_glyph false digit }
{
    DIGITS[digit as usize]
}

// A value in hexadecimal digits, without leading zeros: the digits stand from this place on.
fn hex_text(value: u32) -> ([u8; 8], usize)
    ensures text { drop result.1 result.0 ≡ digits 16 false value }
    ensures place { result.1 ≤ 7 }
{
    let mut text = [0; 8];
    let mut at = 7;
    let mut left = value;
    while left >= 16 {
        text[at] = hex_digit(left % 16);
        left /= 16;
        at -= 1;
    }
    text[at] = hex_digit(left);
    (text, at)
}

// Appends a value of two digits or more.
#[inline(always)]
fn put_long(out: &mut Vec<u8>, value: u32)
    requires { vec_len out.old + 8 ≤ vec_capacity out.old }
    ensures { AppendsWithin out.old out.new (digits 16 false value) 8 }
{
    let (text, at) = hex_text(value);
    let (_, written) = text.split_at(at);
    put_text(out, written);
}

// Appends a value in hexadecimal digits, without leading zeros. Most values of a script have one.
#[inline(always)]
fn put_hex(out: &mut Vec<u8>, value: u32)
    requires { vec_len out.old + 8 ≤ vec_capacity out.old }
    ensures { AppendsWithin out.old out.new (digits 16 false value) 8 }
{
    if value < 16 {
        out.push_reserved(hex_digit(value));
    } else {
        put_long(out, value);
    }
}

/// Appends a space and a value in hexadecimal digits, in room that is there.
#[inline(always)]
pub(crate) fn put_value(out: &mut Vec<u8>, value: u32)
    requires { vec_len out.old + VALUE ≤ vec_capacity out.old }
    ensures { AppendsWithin out.old out.new (value_text value) VALUE }
{
    out.push_reserved(b' ');
    put_hex(out, value);
}

/// Appends each value after a space.
pub(crate) fn push_values(out: &mut Vec<u8>, values: &[u32]) -> Result<(), AllocError>
    ensures { OnOk result (out.new.items ≡ out.old.items ++ flat_map value_text values.now) }
{
    for value in values {
        out.reserve(VALUE)?;
        put_value(out, *value);
    }
    Ok(())
}
