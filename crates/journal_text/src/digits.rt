ghost use Rattle.std.specs.Prelude.{◌≡◌, ◌+◌, ◌*◌, ◌/◌, ◌%◌, ◌^◌, ◌<◌, ◌≤◌, ◌∷◌, length, vec_len, vec_capacity};
ghost use Rattle.std.specs.Char.{digit_char};
ghost use Rattle.journal_text.specs.Appended.{Appended};
ghost use Rattle.journal_text.specs.Digits.{numeral, hex8, number_text};

use crate::put::put;
use itoa::Buffer;

/// The most bytes of a space and a number: one, and the twenty digits of 2^64 - 1.
pub(crate) const NUMBER: usize = 21;

/// The bytes of a number of 32 bits in hexadecimal digits.
pub(crate) const HEX: usize = 8;

/// The character of a decimal digit.
pub(crate) fn digit(value: u64) -> u8
    requires { value < 10 }
    ensures { result ≡ 48 + value }
{
    b'0' + value as u8
}

// Appends a number of four digits or more in decimal digits.
#[tactic(auto, using(crate::proofs::Numerals::numeral_decimal))]
fn put_long(out: &mut Vec<u8>, number: u64)
    requires { vec_len out.old + length (numeral number) ≤ vec_capacity out.old }
    ensures text { Appended out.old out.new (numeral number) }
    ensures len { vec_len out.new ≡ vec_len out.old + length (numeral number) }
{
    let mut buffer = Buffer::new();
    put(out, buffer.format(number).as_bytes());
}

/// Appends a number in decimal digits.
///
/// Most numbers are short, as the places of words are. Their digits go to their place without a buffer.
#[tactic(auto, using(crate::proofs::Numerals::numeral_of_one, crate::proofs::Numerals::numeral_of_two, crate::proofs::Numerals::numeral_of_three))]
pub(crate) fn put_decimal(out: &mut Vec<u8>, number: u64)
    requires { vec_len out.old + length (numeral number) ≤ vec_capacity out.old }
    ensures text { Appended out.old out.new (numeral number) }
    ensures len { vec_len out.new ≡ vec_len out.old + length (numeral number) }
{
    if number < 10 {
        put(out, &[digit(number)]);
    } else if number < 100 {
        put(out, &[digit(number / 10), digit(number % 10)]);
    } else if number < 1000 {
        let (front, last) = (number / 10, digit(number % 10));
        put(out, &[digit(front / 10), digit(front % 10), last]);
    } else {
        put_long(out, number);
    }
}

/// Appends a space and a number.
#[tactic(auto, using(crate::proofs::Lengths::numeral_few, crate::proofs::Numerals::numeral_of_one))]
pub(crate) fn put_number(out: &mut Vec<u8>, number: u64)
    requires { vec_len out.old + NUMBER ≤ vec_capacity out.old }
    ensures text { Appended out.old out.new (number_text number) }
    ensures few { vec_len out.new ≤ vec_len out.old + NUMBER }
{
    if number < 10 {
        put(out, &[b' ', digit(number)]);
        return;
    }
    out.push_reserved(b' ');
    put_decimal(out, number);
}

// The two digits of each byte, one byte after the other.
static PAIRS: [u8; 512] =
    *b"000102030405060708090a0b0c0d0e0f101112131415161718191a1b1c1d1e1f202122232425262728292a2b2c2d2e2f303132333435363738393a3b3c3d3e3f404142434445464748494a4b4c4d4e4f505152535455565758595a5b5c5d5e5f606162636465666768696a6b6c6d6e6f707172737475767778797a7b7c7d7e7f808182838485868788898a8b8c8d8e8f909192939495969798999a9b9c9d9e9fa0a1a2a3a4a5a6a7a8a9aaabacadaeafb0b1b2b3b4b5b6b7b8b9babbbcbdbebfc0c1c2c3c4c5c6c7c8c9cacbcccdcecfd0d1d2d3d4d5d6d7d8d9dadbdcdddedfe0e1e2e3e4e5e6e7e8e9eaebecedeeeff0f1f2f3f4f5f6f7f8f9fafbfcfdfeff";

// The two digits of a byte, in lower case, the first of them the lower byte.
fn pair(byte: u32) -> u64
    requires { byte < 256 }
    ensures digits { result ≡ digit_char (byte / 16) + 256 * digit_char (byte % 16) }
    ensures small { result < 2 ^ 16 }
{
    let from = byte as usize * 2;
    u64::from(PAIRS[from]) + 0x100 * u64::from(PAIRS[from + 1])
}

/// A number as eight hexadecimal digits, which come two at a time.
pub(crate) fn hex(number: u32) -> [u8; HEX]
    ensures { result ≡ hex8 number }
{
    let first = pair(number / 0x100_0000) + 0x1_0000 * pair(number / 0x1_0000 % 0x100);
    let last = pair(number / 0x100 % 0x100) + 0x1_0000 * pair(number % 0x100);
    (first + 0x1_0000_0000 * last).to_le_bytes()
}

/// A space and a number as eight hexadecimal digits.
pub fn spaced_hex(number: u32) -> [u8; 9]
    ensures { result ≡ 32 ∷ hex8 number }
{
    let [a, b, c, d, e, f, g, h] = hex(number);
    [b' ', a, b, c, d, e, f, g, h]
}

/// Appends a number as eight hexadecimal digits.
pub(crate) fn put_hex(out: &mut Vec<u8>, number: u32)
    requires { vec_len out.old + HEX ≤ vec_capacity out.old }
    ensures text { Appended out.old out.new (hex8 number) }
    ensures len { vec_len out.new ≡ vec_len out.old + HEX }
{
    put(out, &hex(number));
}
