// The kinds of step on the result words, each with what it tells.

ghost use Rattle.result_words.specs.Views.{stores_result, counts_finish, loads_count, loads_result, looks_back, fresh_reader, taken_back};
ghost use Rattle.result_words.specs.declared.view.View.TheVariants.{Reader, Spent};

use crate::view::View;
use atomic_table::{Join, Play, Split};
use std::marker::{Brand, PhantomData};

// The writer stores a result.
pub(crate) struct StoresResult;

impl Play<(), View> for StoresResult {
    ghost then = { stores_result };
}

// The writer stores the number of finishes, which is one more.
pub(crate) struct CountsFinish;

impl Play<(), View> for CountsFinish {
    ghost then = { counts_finish };
}

// The reader loads the number of finishes.
pub(crate) struct LoadsCount;

impl Play<(), View> for LoadsCount {
    ghost then = { loads_count };
}

/// How many finishes a read asks for. A load has no operand that could say it.
pub trait Asked {
    ghost use Rattle.std.specs.Prelude.{ℕ};

    ghost at_least: { ℕ };
}

impl Asked for Brand {
    ghost at_least = { 0 };
}

// The reader loads a result.
pub(crate) struct LoadsResult<N: Asked> {
    marker: PhantomData<N>,
}

impl<N: Asked> Play<(), View> for LoadsResult<N> {
    ghost then = { loads_result N.at_least };
}

// The writer loads a word, by which it learns that the reads which it took back are as the rule says.
pub(crate) struct LooksBack;

impl Play<(), View> for LooksBack {
    ghost then = { looks_back };
}

// A reader leaves the writer, and is taken back.
pub(crate) struct Readers;

impl Split<View> for Readers {
    ghost left = { λ v. v };

    ghost right = { λ _. Reader fresh_reader };
}

impl Join<View> for Readers {
    ghost both = { taken_back };

    ghost spent = { Spent };
}
