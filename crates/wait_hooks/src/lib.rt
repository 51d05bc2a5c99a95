//! A stored callback that is called once for each wait that ends, and the marks that it gave.
//!
//! What the contracts say:
//! - `ended` answers the mark of its ending, as every callback does. The marks are those of the endings given, in order.
//! - Where the callback tells its endings, each ending was passed to it once, in order, and no other.
//! - `into_marks` gives the callback back with the marks, and passes no ending to it.
//!
//! Notes:
//! - `Hook` has the base of its marks as a meaning and two calls. One answers the base; the other answers the mark of an
//!   ending and may do whatever else it likes. `Marker` does nothing else.
//! - `reserve` adds exactly what was asked to the spare of `Hooks`. The rule of a mark is the public function `mark`.
#![tactic(auto)]

mod hook;
mod hooks;
mod marks;

pub use hook::{Hook, Marker};
pub use hooks::Hooks;
pub use marks::mark;
