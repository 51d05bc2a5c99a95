//! A book: numbers, and two halves that tell the same ones however far apart they are.
//!
//! A book ties what one thread keeps under a lock to what another carries outside it. Its numbers are contract data, which
//! take no memory: each half of the book says what they are, and no code reads them.
//!
//! What the contracts say:
//! - However far apart the two halves are, they tell the same numbers. The rule of the book's table holds between any two
//!   steps.
//! - `make` gives a book whose numbers are six zeros.
//! - `agree` joins the halves, tells that their numbers are equal, and changes nothing.
//! - `set` joins the halves, gives them the numbers of its argument, and parts them again.
//! - Nothing else changes the numbers: that takes both halves. So who holds one half knows what the other tells.
//! - No call ever blocks: none takes a Wait. Only `make` takes memory.
//!
//! Notes:
//! - There are four kinds of step on a book: the join of both halves, two loads, and the cut. Each is one private function.
//! - A join tells nothing of the numbers; the load after it tells that both lists are equal. The other load gives the book
//!   other numbers, which come to it by a meaning of a trait. Both load the one word of the table and drop its value.
//! - A book is named by its table.
#![tactic(auto)]

mod half;
mod steps;
mod table;

pub use half::{Half, agree, make, set};
pub use table::Book;
