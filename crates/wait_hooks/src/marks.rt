ghost use Rattle.std.specs.Prelude.{◌≡◌};
ghost use Rattle.wait_hooks.specs.Marks.{kind_of, mark};

use sync_core::{Ending, How};

/// The part of a mark that tells how the wait ended.
fn kind_of(how: How) -> u32
    ensures { result ≡ kind_of how }
{
    match how {
        How::Release => 0,
        How::Guard => 1,
        How::Closed => 2,
    }
}

/// The mark of an ending over a base: base + 4 * order + kind, modulo 2^32.
///
/// The kind is 0 for an end by release, 1 for one by guard and 2 for one by close.
pub fn mark(base: u32, ending: Ending) -> u32
    ensures { result ≡ mark base ending }
{
    base.wrapping_add(ending.order.wrapping_mul(4))
        .wrapping_add(kind_of(ending.how))
}
