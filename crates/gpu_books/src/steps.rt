// The four kinds of step on a book.
ghost use Rattle.std.specs.Prelude.{◌≡◌, Some};
ghost use Rattle.gpu_books.specs.declared.table.View.TheVariants.{Joined};
ghost use Rattle.gpu_books.specs.Views.{half_numbers, joined_of};
ghost use Rattle.gpu_books.specs.Seen.{half_of, IsHalf, HasWholeBook};

use crate::table::{Book, Compares, Halves, Numbers, Renumbers, View};
use atomic_table::Seat;

// A seat at a book.
pub(crate) type Holder = Seat<(), View>;

// Joins one half into the other.
pub(crate) fn join(book: &Book, kept: Option<Holder>, out: Option<Holder>) -> Holder
    requires halves { IsHalf kept × IsHalf out }
    requires kept { (half_of kept).book ≡ book.now }
    requires out { (half_of out).book ≡ book.now }

    ensures book { result.table_id ≡ book.now }
    ensures full { HasWholeBook result.me }
    ensures view { result.me.0 ≡ Joined (half_of kept).numbers (half_of out).numbers }
{
    let mut full = kept.unwrap();
    let shared = &book.table.shared;
    shared.join_seat::<Halves>(&mut full, out.unwrap());
    full
}

// Loads the word, which tells that the numbers of both halves were equal.
pub(crate) fn compare(book: &Book, full: &mut Holder)
    requires book { full.old.table_id ≡ book.now }
    requires full { HasWholeBook full.old.me }

    ensures equal { half_numbers full.old.me.0 ≡ joined_of full.old.me.0 }
    ensures book { full.new.table_id ≡ book.now }
    ensures same { full.new.me ≡ full.old.me }
{
    book.table.shared.load::<Compares>(full, 0);
}

// Gives a full view other numbers, which N names: no code reads the argument.
pub(crate) fn renumber<N: Numbers>(book: &Book, full: &mut Holder, _numbers: &[u64; 6])
    requires book { full.old.table_id ≡ book.now }
    requires full { HasWholeBook full.old.me }
    requires named { _numbers.now ≡ N.numbers }

    ensures book { full.new.table_id ≡ book.now }
    ensures full { HasWholeBook full.new.me }
    ensures numbers { half_numbers full.new.me.0 ≡ _numbers.now }
{
    book.table.shared.load::<Renumbers<N>>(full, 0);
}

// Cuts a full view into two halves.
pub(crate) fn cut(book: &Book, mut full: Holder) -> (Holder, Holder)
    requires book { full.table_id ≡ book.now }
    requires full { HasWholeBook full.me }

    ensures halves { IsHalf (Some result.0) × IsHalf (Some result.1) }
    ensures kept { half_of (Some result.0)
        ≡ record { book = book.now; numbers = half_numbers full.me.0 } }
    ensures out { half_of (Some result.1)
        ≡ record { book = book.now; numbers = half_numbers full.me.0 } }
{
    let other = book.table.shared.split_seat::<Halves>(&mut full);
    (full, other)
}
