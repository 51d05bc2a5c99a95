ghost use Rattle.std.specs.Prelude.{◌≡◌, ◌++◌, OnOk};
ghost use Rattle.journal_text.specs.Digits.{number_text};
ghost use Rattle.script_laws.specs.Trials.{number_after};

use itoa::Buffer;
use std::alloc::AllocError;

/// Appends a space and a number in decimal digits.
pub(crate) fn push_number(out: &mut Vec<u8>, number: usize) -> Result<(), AllocError>
    ensures { OnOk result (out.new.items ≡ out.old.items ++ number_text number) }
{
    let mut buffer = Buffer::new();
    out.push(b' ')?;
    out.extend_from_slice(buffer.format(number as u64).as_bytes())
}

/// Appends what is counted, and its number.
pub(crate) fn push_count(out: &mut Vec<u8>, what: &[u8], number: usize) -> Result<(), AllocError>
    ensures { OnOk result (out.new.items ≡ out.old.items ++ number_after what.now number) }
{
    out.extend_from_slice(what)?;
    push_number(out, number)
}
