ghost use Rattle.std.specs.Prelude.{◌≡◌, ◌≤◌, length, take};

/// Copies `count` bytes from the front of one slice to the front of the other.
pub(crate) fn copy_front(from: &[u8], to: &mut [u8], count: usize)
    requires from_has { count ≤ length from.now }
    requires to_has { count ≤ length to.old }
    ensures { take count to.new ≡ take count from.now }
{
    to[..count].copy_from_slice(&from[..count]);
}
