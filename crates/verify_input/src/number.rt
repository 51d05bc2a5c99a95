ghost use Rattle.std.specs.Prelude.{◌≡◌, [], ◌∷◌};
ghost use Rattle.script_lines.specs.Numbers.{decimal_of};
ghost use Rattle.verify_input.specs.Said.{own_number, own_value};

use crate::digit::worth;
use script_lines::decimal_u32;

/// The number of 32 bits whose own decimal digits a word is.
#[tactic(auto, unfolding(crate::specs::Said::own_number))]
pub(crate) fn own_number(word: &[u8]) -> Option<u32>
    ensures { result ≡ own_number word.now }
{
    if word.len() > 1 && word[0] == b'0' {
        return None;
    }
    decimal_u32(word)
}

// The number that a digit says.
#[inline(always)]
fn digit(byte: u8) -> Option<u32>
    ensures { result ≡ decimal_of (byte ∷ []) }
{
    if byte < b'0' || byte > b'9' {
        return None;
    }
    Some(u32::from(byte - b'0'))
}

/// The number of 32 bits whose own decimal digits a word is. One digit or two are read without a loop.
#[inline(always)]
#[tactic(auto, unfolding(crate::specs::Said::own_number))]
pub(crate) fn short_number(word: &[u8]) -> Option<u32>
    ensures { result ≡ own_number word.now }
{
    match word.len() {
        1 => digit(word[0]),
        2 => {
            let ten = digit(word[0])?;
            let one = digit(word[1])?;
            if ten == 0 {
                return None;
            }
            Some(10 * ten + one)
        }
        _ => own_number(word),
    }
}

/// The value that a word of one to eight hexadecimal digits with small letters says.
///
/// A byte that is no digit makes the sum larger than 32 bits, so one test of the whole sum is enough.
pub(crate) fn own_value(word: &[u8]) -> Option<u32>
    ensures { result ≡ own_value word.now }
{
    if word.is_empty() || word.len() > 8 {
        return None;
    }
    let mut value: u64 = 0;
    for byte in word {
        value = value * 16 + worth(*byte);
    }
    if value > u64::from(u32::MAX) {
        return None;
    }
    Some(value as u32)
}
