ghost use Rattle.std.specs.Prelude.{◌≡◌, IfOk};
ghost use Rattle.gpu_books.specs.Seen.{blank_half};

use crate::steps::{Holder, compare, cut, join, renumber};
use crate::table::Book;
use atomic_table::Table;
use gpu_word::Memory;
use std::alloc::Global;
use std::marker::{Brand, Model};

/// One of the two halves of a book, which can go to another thread.
///
/// Seen as the name of its book, and its numbers, which take no memory.
#[derive(Drop)]
pub struct Half {
    // None inside a call alone, while both halves are joined.
    seat: Option<Holder>,
}

impl Model for Half {
    ghost use Rattle.gpu_books.specs.Seen.{HalfData, half_coded, half_of, IsHalf};

    ghost Value = { HalfData };

    ghost coded = { half_coded };

    ghost view = { λ h. half_of h.seat };

    ghost invariant = { λ h. IsHalf h.seat };
}

/// A new book with its two halves, whose numbers are six zeros.
///
/// # Errors
///
/// `Memory`: for the shared word.
pub fn make(alloc: Global) -> Result<(Book, Half, Half), Memory>
    ensures kept { IfOk result (λ made. made.1 ≡ blank_half made.0) }
    ensures out { IfOk result (λ made. made.2 ≡ blank_half made.0) }
{
    let (table, seat) = Table::of_words(alloc, &[0u64], &())?;
    let book = Book { table };
    let (one, other) = cut(&book, seat);
    let kept = Half { seat: Some(one) };
    let out = Half { seat: Some(other) };
    Ok((book, kept, out))
}

/// Shows that the two halves of a book have the same numbers, and changes nothing.
pub fn agree(book: &Book, kept: &mut Half, out: &mut Half)
    requires kept { kept.old.book ≡ book.now }
    requires out { out.old.book ≡ book.now }

    ensures equal { kept.old.numbers ≡ out.old.numbers }
    ensures kept { kept.new ≡ kept.old }
    ensures out { out.new ≡ out.old }
{
    let mut full = join(book, kept.seat.take(), out.seat.take());
    compare(book, &mut full);
    let (one, other) = cut(book, full);
    kept.seat = Some(one);
    out.seat = Some(other);
}

/// Gives both halves of a book these numbers. They are for contracts alone: nothing stores them.
pub fn set(book: &Book, kept: &mut Half, out: &mut Half, numbers: &[u64; 6])
    requires kept { kept.old.book ≡ book.now }
    requires out { out.old.book ≡ book.now }

    ensures kept { kept.new ≡ record { book = book.now; numbers = numbers.now } }
    ensures out { out.new ≡ record { book = book.now; numbers = numbers.now } }
{
    let mut full = join(book, kept.seat.take(), out.seat.take());
    renumber::<Brand>(book, &mut full, numbers);
    let (one, other) = cut(book, full);
    kept.seat = Some(one);
    out.seat = Some(other);
}
