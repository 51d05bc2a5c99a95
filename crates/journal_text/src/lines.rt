ghost use Rattle.std.specs.Prelude.{◌≡◌, ℕ, ◌<◌, ◌≤◌, List, [], ◌++◌, length, slice_index_or};

use crate::sheet::Sheet;

/// Lines of the output, each of which is made when it is asked for.
pub trait Lines {
    // The lines, in order.
    ghost lines: { Self → List (List ℕ) };

    // What has to hold so that each of them can be made.
    ghost fits: { Self → Type 0 } = { λ _. Unit {0} };

    /// How many lines there are.
    fn count(&self) -> usize
        ensures { result ≡ length (lines self.now) };

    /// Puts the line of this place, counted from 0, after those that are there.
    fn make(&self, index: usize, sheet: &mut Sheet)
        requires fits { fits self.now }
        requires within { index < length (lines self.now) }
        requires room { length sheet.old.bytes ≤ sheet.old.limit }
        ensures bytes { sheet.new.bytes
            ≡ sheet.old.bytes ++ slice_index_or (lines self.now) index [] }
        ensures limit { sheet.new.limit ≡ sheet.old.limit };
}
