ghost use Rattle.std.specs.Prelude.{◌≡◌, ◌≤◌, ◌^◌, length};
ghost use Rattle.script_lines.specs.Numbers.{digits_said, number_said, decimal_of, hex_of, long_decimal_of};

use crate::digit::digit_of;

// The value of at most 15 digits.
fn value_of(word: &[u8], radix: u32) -> Option<u64>
    requires two { 2 ≤ radix }
    requires sixteen { radix ≤ 16 }
    requires short { length word.now ≤ 15 }
    ensures { result ≡ digits_said radix word.now }
{
    let mut value = 0;
    for byte in word {
        let digit = digit_of(*byte);
        if digit >= radix {
            return None;
        }
        value = value * u64::from(radix) + u64::from(digit);
    }
    Some(value)
}

// The value of at most 20 decimal digits.
fn long_value_of(word: &[u8]) -> Option<u128>
    requires { length word.now ≤ 20 }
    ensures { result ≡ digits_said 10 word.now }
{
    let mut value = 0;
    for byte in word {
        let digit = digit_of(*byte);
        if digit >= 10 {
            return None;
        }
        value = value * 10 + u128::from(digit);
    }
    Some(value)
}

/// The number below 2^64 that a word of one to twenty digits says.
#[tactic(auto, unfolding(crate::specs::Numbers::number_said))]
pub fn decimal_u64(word: &[u8]) -> Option<u64>
    ensures { result ≡ long_decimal_of word.now }
{
    if word.is_empty() || word.len() > 20 {
        return None;
    }
    let value = long_value_of(word)?;
    if value > u128::from(u64::MAX) {
        return None;
    }
    Some(value as u64)
}

// The number below 2^32 that a word of one to a given number of digits of a base says.
#[inline(always)]
#[tactic(auto, unfolding(crate::specs::Numbers::number_said))]
fn number_u32(word: &[u8], radix: u32, most: usize) -> Option<u32>
    requires two { 2 ≤ radix }
    requires sixteen { radix ≤ 16 }
    requires short { most ≤ 15 }
    ensures { result ≡ number_said radix most (2 ^ 32) word.now }
{
    if word.is_empty() || word.len() > most {
        return None;
    }
    let value = value_of(word, radix)?;
    if value > u64::from(u32::MAX) {
        return None;
    }
    Some(value as u32)
}

/// The number below 2^32 that a word of one to ten digits says.
pub fn decimal_u32(word: &[u8]) -> Option<u32>
    ensures { result ≡ decimal_of word.now }
{
    number_u32(word, 10, 10)
}

/// The number that a word of one to eight hexadecimal digits says.
pub fn hex_u32(word: &[u8]) -> Option<u32>
    ensures { result ≡ hex_of word.now }
{
    number_u32(word, 16, 8)
}
