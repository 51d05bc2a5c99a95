ghost use Rattle.std.specs.Prelude.{◌≡◌, ◌<◌, ◌≤◌, ◌++◌, [], length, take, min};

use crate::front::copy_front;
use std::marker::Model;

/// The bytes of a text that were not read as yet.
#[derive(Drop)]
pub(crate) struct Unread {
    bytes: Vec<u8>,
    taken: usize,
}

impl Model for Unread {
    ghost use Rattle.std.specs.Prelude.{ℕ, ◌≤◌, List, drop, vec_len};

    ghost Value = { List ℕ };

    ghost view = { λ u. drop u.taken u.bytes.items };

    ghost invariant = { λ u. u.taken ≤ vec_len u.bytes };
}

impl Unread {
    /// All of these bytes are left.
    pub(crate) fn new(bytes: Vec<u8>) -> Unread
        ensures { result ≡ bytes.items }
    {
        Unread { bytes, taken: 0 }
    }

    /// Moves bytes to the front of the buffer, as many as there are and as fit, and at most `most`.
    #[tactic(auto, using(crate::proofs::Fronts::front_taken))]
    pub(crate) fn take(&mut self, buffer: &mut [u8], most: usize) -> usize
        ensures count { result ≡ min (min (length self.old) (length buffer.old)) most }
        ensures taken { self.old ≡ take result buffer.new ++ self.new }
        ensures end { result ≡ 0 → 0 < length buffer.old → 0 < most → self.new ≡ [] }
    {
        let rest = &self.bytes[self.taken..];
        let count = rest.len().min(buffer.len()).min(most);
        copy_front(rest, buffer, count);
        self.taken += count;
        count
    }
}
