//! The rule of a queue, and its kinds of step.
ghost use Rattle.std.specs.Prelude.{◌≡◌, [], length};
ghost use Rattle.flush_queue.specs.declared.view.View.TheVariants.{Fresh};
ghost use Rattle.flush_queue.specs.Views.{tells, learns, poster_part, taker_part, posts, takes_note};
ghost use Rattle.flush_queue.specs.Rule.{KeepsQueue, AreLatestOf, AreNextOf};

use crate::view::View;
use crossbeam_queue::protocol::{Lesson, Outcome, Protocol, Split};
use shm_words::{ClientPass, Note};

/// What lies in a queue: the note of a flush, or the pass of the client, once and before the ends are parted.
pub type Item = Result<Note, ClientPass>;

/// The rule of a queue.
pub struct InOrder;

impl Protocol<Item, View> for InOrder {
    ghost holds = { KeepsQueue };

    ghost first = { Fresh };
}

// The one end puts the pass of the client into the queue.
pub(crate) struct Tells;

impl Outcome<Item, View> for Tells {
    ghost then = { tells };
}

impl Lesson<Item, View> for Tells {
    ghost fact = { λ view items. items ≡ [] };
}

// The one end takes the pass out again, and has learnt from it whose flushes these are.
pub(crate) struct Learns;

impl Outcome<Item, View> for Learns {
    ghost then = { learns };
}

impl Lesson<Item, View> for Learns {
    ghost fact = { λ view items. length items ≡ 1 };
}

// The one end is parted in two.
pub(crate) struct Parts;

impl Split<View> for Parts {
    ghost left = { poster_part };

    ghost right = { taker_part };
}

// The next flush is posted.
pub(crate) struct Posts;

impl Outcome<Item, View> for Posts {
    ghost then = { posts };
}

impl Lesson<Item, View> for Posts {
    ghost fact = { AreLatestOf };
}

// The next flush is taken.
pub(crate) struct Takes;

impl Outcome<Item, View> for Takes {
    ghost then = { takes_note };
}

impl Lesson<Item, View> for Takes {
    ghost fact = { AreNextOf };
}
