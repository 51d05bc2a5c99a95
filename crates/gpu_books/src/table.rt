// The table of a book, its rule, and the kinds of step on it.

use atomic_table::{Join, Play, Split, Table, TableRule};
use std::alloc::Global;
use std::marker::{Brand, Model, PhantomData};

/// What a seat knows. No value of it is ever made.
pub enum View {
    /// All of the book, with its numbers.
    Full([u64; 6]),
    /// All of the book once one half was joined into the other: the numbers of both.
    Joined([u64; 6], [u64; 6]),
    /// One half, with its numbers.
    Halved([u64; 6]),
    /// The half that was joined into the other.
    Spent,
}

/// The rule of a book.
pub struct BookRule;

impl TableRule<(), View, ()> for BookRule {
    ghost use Rattle.gpu_books.specs.Views.{opened};
    ghost use Rattle.gpu_books.specs.Rule.{KeepsBook};

    ghost holds = { λ _. KeepsBook };

    ghost first = { λ _. opened };
}

/// What ties two halves: one shared word, whose steps change what both know. The word itself says nothing.
///
/// Seen as the name of its table: the halves of this book name the same one.
#[derive(Drop)]
pub struct Book {
    pub(crate) table: Table<(), View, (), BookRule, Global>,
}

impl Model for Book {
    ghost use Rattle.atomic_table.specs.Seated.{TableId, table_id_coded};
    ghost use Rattle.gpu_books.specs.Seen.{IsBook};

    ghost Value = { TableId };

    ghost coded = { table_id_coded };

    ghost view = { λ b. b.table.shared.table_id };

    ghost invariant = { λ b. IsBook b.table.shared.table_id };
}

// Cuts a full view into two halves, and joins one half into the other.
pub(crate) struct Halves;

impl Split<View> for Halves {
    ghost use Rattle.gpu_books.specs.Views.{halved};

    ghost left = { halved };

    ghost right = { halved };
}

impl Join<View> for Halves {
    ghost use Rattle.gpu_books.specs.Views.{halves_joined};
    ghost use Rattle.gpu_books.specs.declared.table.View.TheVariants.{Spent};

    ghost both = { halves_joined };

    ghost spent = { Spent };
}

// Loads a word through a full view.
pub(crate) struct Compares;

impl Play<(), View> for Compares {
    ghost use Rattle.gpu_books.specs.Views.{compares};

    ghost then = { compares };
}

/// The numbers that a book gets. A load has no operand that could say them.
pub trait Numbers {
    ghost use Rattle.std.specs.Prelude.{ℕ, List};

    ghost numbers: { List ℕ };
}

impl Numbers for Brand {
    ghost use Rattle.std.specs.Prelude.{[]};

    ghost numbers = { [] };
}

// Gives a full view other numbers, with a load of the word.
pub(crate) struct Renumbers<N: Numbers> {
    of: PhantomData<N>,
}

impl<N: Numbers> Play<(), View> for Renumbers<N> {
    ghost use Rattle.gpu_books.specs.Views.{renumbers};

    ghost then = { renumbers N.numbers };
}
