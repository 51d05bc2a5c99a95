ghost use Rattle.std.specs.Prelude.{◌≡◌, ℕ, List};
ghost use Rattle.std.specs.Borrow.{ftrue};

use std::marker::Model;

// A list of pairs, as contracts see it. It takes no memory: no code reads it.
#[derive(Drop)]
pub struct SeenPairs {
    pub ghost pairs: { List (ℕ × ℕ) },
}

impl Model for SeenPairs {
    ghost also_owns = { λ _. ftrue };
}

// A struct with `also_owns` has neither by itself. This one owns nothing.
unsafe impl Send for SeenPairs {}

unsafe impl Sync for SeenPairs {}

impl SeenPairs {
    fn of(_pairs: &Vec<(u32, u64)>) -> SeenPairs
        ensures { result.pairs ≡ _pairs.now.items }
    {
        SeenPairs {}
    }
}

/// What a flush waits for, as contracts see it: a list of pairs, each a stream's number and a release.
///
/// The number 0 stands for a stream that is not there. The list takes no memory here: the plan keeps it, and `fences_at` gives it.
#[derive(Drop)]
pub struct Fences {
    seen: SeenPairs,
}

impl Model for Fences {
    ghost use Rattle.std.specs.Prelude.{ℕ, List};

    ghost Value = { List (ℕ × ℕ) };

    ghost view = { λ fences. fences.seen.pairs };
}

impl Fences {
    pub(crate) fn of(pairs: &Vec<(u32, u64)>) -> Fences
        ensures { result ≡ pairs.now.items }
    {
        Fences {
            seen: SeenPairs::of(pairs),
        }
    }
}
