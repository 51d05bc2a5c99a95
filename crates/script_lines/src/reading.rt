ghost use Rattle.std.specs.Prelude.{◌≡◌, ◌≤◌, ◌<◌, true, not, ◌==◌, length, take, map, IfSome};
ghost use Rattle.std.specs.Char.{is_digit};
ghost use Rattle.std.specs.Iterator.{YieldsFirst, item_count};
ghost use Rattle.std.specs.List.{list_all};
ghost use Rattle.std.specs.Str.Parse.{digits_value};
ghost use Rattle.script_lines.specs.Text.{words_of, is_blank};
ghost use Rattle.script_lines.specs.Numbers.{decimal_of, hex_of};
ghost use Rattle.script_lines.specs.Reading.{BeginsWith, ReadsFirst, IsShortNumber};

use crate::digit::digit_of;
use crate::number::{decimal_u32, hex_u32};
use crate::text::{cut_at, first_word, is_blank};

/// What the words that are left of a line say as values.
#[derive(Clone, Copy)]
pub struct Values<'a> {
    pub rest: &'a [u8],
}

// At most the first eight bytes.
fn first_eight(bytes: &[u8]) -> &[u8]
    ensures front { result.now ≡ take 8 bytes.now }
    ensures few { length result.now ≤ 8 }
{
    if bytes.len() < 8 { bytes } else { &bytes[..8] }
}

// The value of the digits that at most eight bytes begin with, and how many these are.
#[inline(always)]
fn leading_digits(bytes: &[u8], radix: u32) -> (u32, usize)
    requires two { 2 ≤ radix }
    requires sixteen { radix ≤ 16 }
    requires short { length bytes.now ≤ 8 }
    ensures within { result.1 ≤ length bytes.now }
    ensures digits { list_all (λ c. is_digit c radix) (take result.1 bytes.now) ≡ true }
    ensures value { result.0 ≡ digits_value radix (take result.1 bytes.now) }
{
    let mut value = 0;
    for (count, byte) in bytes.iter().enumerate() {
        let digit = digit_of(*byte);
        if digit >= radix {
            return (value, count);
        }
        value = value * radix + digit;
    }
    (value, bytes.len())
}

// What stands after a first word of a given number of bytes, where it ends there.
#[tactic(auto, using(crate::proofs::Read::ends_word, crate::proofs::Read::cuts_word))]
#[inline(always)]
fn behind_word(line: &[u8], count: usize) -> Option<&[u8]>
    requires some { 0 < count }
    requires within { count ≤ length line.now }
    requires unbroken { list_all (λ byte. not (is_blank byte)) (take count line.now) ≡ true }
    ensures { IfSome result (λ rest. BeginsWith words_of line.now (take count line.now) rest.now) }
{
    if count == line.len() {
        return Some(&[]);
    }
    if !is_blank(line[count]) {
        return None;
    }
    let (_, rest) = cut_at(line, count);
    Some(rest)
}

// The number that the first word says, and what stands after it, where a line begins with a word of one to eight digits.
#[inline(always)]
fn short_number(line: &[u8], radix: u32) -> Option<(u32, &[u8])>
    requires two { 2 ≤ radix }
    requires sixteen { radix ≤ 16 }
    ensures { IfSome result (λ read. IsShortNumber radix line.now read.0 read.1.now) }
{
    let (value, count) = leading_digits(first_eight(line), radix);
    if count == 0 {
        return None;
    }
    let rest = behind_word(line, count)?;
    Some((value, rest))
}

#[cold]
fn first_decimal_word(line: &[u8]) -> Option<(Option<u32>, &[u8])>
    ensures { ReadsFirst decimal_of line.now result }
{
    let (word, rest) = first_word(line)?;
    Some((decimal_u32(word), rest))
}

#[cold]
fn first_value_word(line: &[u8]) -> Option<(Option<u32>, &[u8])>
    ensures { ReadsFirst hex_of line.now result }
{
    let (word, rest) = first_word(line)?;
    Some((hex_u32(word), rest))
}

/// What the first word of a line says as a decimal number of 32 bits, and what stands after that word.
///
/// The bytes of a short number are read once, and not first for the word's end.
#[inline]
pub fn first_decimal(line: &[u8]) -> Option<(Option<u32>, &[u8])>
    ensures { ReadsFirst decimal_of line.now result }
{
    match short_number(line, 10) {
        Some((number, rest)) => Some((Some(number), rest)),
        None => first_decimal_word(line),
    }
}

// The value of one digit that a line begins with, and what stands after the space that follows it.
//
// Most values of a script have one digit. They are read without a loop.
#[inline(always)]
fn one_digit(line: &[u8]) -> Option<(u32, &[u8])>
    ensures { IfSome result (λ read. IsShortNumber 16 line.now read.0 read.1.now) }
{
    if line.len() < 2 || line[1] != b' ' {
        return None;
    }
    let digit = digit_of(line[0]);
    if digit >= 16 {
        return None;
    }
    let rest = behind_word(line, 1)?;
    Some((digit, rest))
}

/// What the first word of a line says as a value, and what stands after that word.
#[inline(always)]
pub fn first_value(line: &[u8]) -> Option<(Option<u32>, &[u8])>
    ensures { ReadsFirst hex_of line.now result }
{
    if let Some((digit, rest)) = one_digit(line) {
        return Some((Some(digit), rest));
    }
    match short_number(line, 16) {
        Some((value, rest)) => Some((Some(value), rest)),
        None => first_value_word(line),
    }
}

/// Whether a line has a word.
#[tactic(auto, using(crate::proofs::Read::word_there))]
#[inline]
pub fn has_word(line: &[u8]) -> bool
    ensures { result ≡ not (length (words_of line.now) == 0) }
{
    if !line.is_empty() && !is_blank(line[0]) {
        return true;
    }
    first_word(line).is_some()
}

impl<'a> Iterator for Values<'a> {
    type Item = Option<u32>;

    ghost next_gives = { YieldsFirst (λ s. map hex_of (words_of s.rest.now)) };

    ghost remaining = { item_count (λ s. map hex_of (words_of s.rest.now)) };

    #[tactic(auto, using(crate::proofs::Read::read_on))]
    #[inline(always)]
    fn next(&mut self) -> Option<Option<u32>> {
        let (value, rest) = first_value(self.rest)?;
        self.rest = rest;
        Some(value)
    }
}
