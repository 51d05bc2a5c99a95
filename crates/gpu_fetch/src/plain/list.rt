ghost use Rattle.std.specs.Prelude.{◌≡◌, ℕ, List, [], ◌∷◌, ◌++◌};
ghost use Rattle.std.specs.Borrow.{ftrue};

use std::marker::Model;

// The words that a side has fetched, in order, as contracts see them. The list takes no memory: no code reads it.
#[derive(Drop)]
pub struct FetchList {
    pub ghost items: { List (ℕ × ℕ) },
}

impl Model for FetchList {
    ghost also_owns = { λ _. ftrue };
}

impl FetchList {
    pub(crate) fn new() -> FetchList
        ensures { result.items ≡ [] }
    {
        FetchList {}
    }

    // The list with one more word.
    pub(crate) fn with(_before: &FetchList, _place: &u32, _value: &u32) -> FetchList
        ensures { result.items ≡ _before.now.items ++ (_place.now, _value.now) ∷ [] }
    {
        FetchList {}
    }
}
