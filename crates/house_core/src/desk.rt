ghost use Rattle.std.specs.Prelude.{◌≡◌, ◌↔◌, ◌==◌, ◌&&◌, ◌+◌, ◌<◌, ◌≤◌, ◌^◌, [], ◌∷◌, true, false, length, slice_get, Some, IsTrue};
ghost use Rattle.gpu_books.specs.Seen.{blank_half};
ghost use Rattle.gpu_plan.specs.declared.plan.Action.TheVariants.{Close};
ghost use Rattle.gpu_plan.specs.Passes.{bound};
ghost use Rattle.gpu_plan.specs.declared.acting.TheConstants.{MOST_ACTIONS};
ghost use Rattle.house_core.specs.Walks.{HasWalked};
ghost use Rattle.house_core.specs.Desks.{DeskData, at_home, fresh_desk, book_numbers, kept_half};

use crate::walk::Walk;
use gpu_books::{Book, Half, agree, set};
use gpu_plan::Action;
use std::alloc::Global;
use std::marker::Model;
use std::mem;
use stream_state::StreamState;

/// Where the half of a book is that a run takes along.
#[derive(Drop)]
pub enum OtherHalf {
    /// No run of the stream is out.
    Home(Half),
    /// With the run of this order, whose latest step may have been answered Paused.
    Out { order: u32, paused: bool },
}

/// What the house keeps of one stream beside its waits, and one half of its book.
#[derive(Drop)]
pub struct Desk {
    pub(crate) book: Book,
    pub(crate) kept: Half,
    pub(crate) other: OtherHalf,
    places: Vec<u32>,
    pub(crate) state: StreamState,
    ordered: u32,
    pub(crate) finished: u32,
    pub(crate) greatest: u32,
    lost: bool,
    closed: bool,
    walk: Walk,
}

impl Model for Desk {
    ghost use Rattle.house_core.specs.Desks.{DeskData, out_of, book_numbers, AreBooked};

    ghost Value = { DeskData };

    ghost view = { λ d. record {
      book = d.book;
      places = d.places.items;
      state = d.state;
      ordered = d.ordered;
      finished = d.finished;
      greatest = d.greatest;
      lost = d.lost;
      closed = d.closed;
      walk = d.walk;
      out = out_of d.other;
    } };

    ghost invariant = { λ d. AreBooked d.book
        (book_numbers d.state.entries d.state.fetched d.finished d.greatest (out_of d.other))
        d.kept d.other };
}

/// The numbers of a book whose run that is out has this order, or none where it is 0.
pub(crate) fn numbers(
    state: &StreamState,
    finished: u32,
    greatest: u32,
    order: u32,
    paused: bool,
) -> [u64; 6]
    ensures { result
        ≡ book_numbers state.now.entries state.now.fetched finished greatest
        record { order = order; paused = paused } }
{
    [
        state.entries(),
        u64::from(state.fetched()),
        u64::from(finished),
        u64::from(greatest),
        u64::from(order),
        u64::from(paused),
    ]
}

/// Both halves of the book have these numbers then.
pub(crate) fn note(book: &Book, kept: &mut Half, half: &mut Half, numbers: &[u64; 6])
    requires kept { kept.old.book ≡ book.now }
    requires half { half.old.book ≡ book.now }
    ensures kept { kept.new ≡ record { book = book.now; numbers = numbers.now } }
    ensures half { half.new ≡ record { book = book.now; numbers = numbers.now } }
{
    set(book, kept, half, numbers);
}

impl Desk {
    /// The desk of a stream without events, whose flushes stand at these places.
    pub fn make(alloc: Global, book: Book, kept: Half, home: Half, places: Vec<u32>) -> Desk
        requires kept { kept ≡ blank_half book }
        requires home { home ≡ blank_half book }
        ensures { result ≡ fresh_desk book places.items }
    {
        Desk {
            book,
            kept,
            other: OtherHalf::Home(home),
            places,
            state: StreamState::make(alloc),
            ordered: 0,
            finished: 0,
            greatest: 0,
            lost: false,
            closed: false,
            walk: Walk::start(),
        }
    }

    /// The state of the stream.
    pub fn state(&self) -> &StreamState
        ensures { result.now ≡ self.now.state }
    {
        &self.state
    }

    /// How many of the stream's flushes are ordered.
    pub fn ordered(&self) -> u32
        ensures { result ≡ self.now.ordered }
    {
        self.ordered
    }

    /// How many of the stream's flushes are finished.
    pub fn finished(&self) -> u32
        ensures { result ≡ self.now.finished }
    {
        self.finished
    }

    /// The greatest token that the stream has set, or 0.
    pub fn greatest(&self) -> u32
        ensures { result ≡ self.now.greatest }
    {
        self.greatest
    }

    /// Whether the stream is lost.
    pub fn is_lost(&self) -> bool
        ensures { result ≡ self.now.lost }
    {
        self.lost
    }

    /// Whether the stream is closed.
    pub fn is_closed(&self) -> bool
        ensures { result ≡ self.now.closed }
    {
        self.closed
    }

    /// How many of the stream's flushes are ordered and not finished, where it is neither lost nor closed.
    pub fn unfinished(&self) -> u32
        requires { self.now.finished ≤ self.now.ordered }
        ensures { result + self.now.finished ≡ self.now.ordered }
    {
        self.ordered - self.finished
    }

    /// Whether each flush of the stream is ordered.
    pub fn is_all_ordered(&self) -> bool
        ensures { IsTrue result ↔ (self.now.ordered ≡ length self.now.places) }
    {
        self.ordered as usize == self.places.len()
    }

    /// Whether each flush of the stream is ordered and finished.
    pub fn is_all_done(&self) -> bool
        ensures { result ≡ (self.now.ordered == length self.now.places
            && self.now.finished == length self.now.places) }
    {
        let flushes = self.places.len();
        self.ordered as usize == flushes && self.finished as usize == flushes
    }

    /// Whether the client comes to its Close, by the finishes and the greatest token. The walk over its actions goes on from where
    /// it stood.
    pub(crate) fn comes_to_close(&mut self, actions: &[Action]) -> bool
        requires few { length actions.now ≤ MOST_ACTIONS }
        requires walked { HasWalked actions.now self.old.finished self.old.greatest self.old.walk }
        ensures desk { self.new ≡ record self.old { walk = self.new.walk } }
        ensures walked { HasWalked actions.now self.old.finished self.old.greatest self.new.walk }
        ensures close { IsTrue result
            ↔ (slice_get actions.now (bound actions.now self.old.finished (self.old.greatest ∷ []))
            ≡ Some Close) }
    {
        let (finished, greatest) = (self.finished, self.greatest);
        self.walk.comes_to_close(actions, finished, greatest)
    }

    /// The place of the flush of this number among the stream's flushes, counted from 0.
    pub fn place(&self, flush: u32) -> Option<u32>
        ensures { result ≡ slice_get self.now.places flush }
    {
        self.places.get(flush as usize).copied()
    }

    /// A half that is out has the numbers of the desk.
    pub fn shows_half(&mut self, half: &mut Half)
        requires { half.old.book ≡ self.old.book }
        ensures desk { self.new ≡ self.old }
        ensures half { half.new ≡ half.old }
        ensures same { half.old ≡ kept_half self.old }
    {
        agree(&self.book, &mut self.kept, half);
    }

    /// One more flush is ordered.
    pub fn order(&mut self)
        requires { self.old.ordered + 1 < 2 ^ 32 }
        ensures { self.new ≡ record self.old { ordered = self.old.ordered + 1 } }
    {
        self.ordered += 1;
    }

    /// The stream is lost.
    pub fn lose(&mut self)
        ensures { self.new ≡ record self.old { lost = true } }
    {
        self.lost = true;
    }

    /// The stream is closed.
    pub fn close(&mut self)
        ensures { self.new ≡ record self.old { closed = true } }
    {
        self.closed = true;
    }

    /// The half that is at home leaves, for a run of this order.
    pub fn leave(&mut self, order: u32) -> Half
        requires order { 0 < order }
        requires home { self.old.out.order ≡ 0 }
        ensures desk { self.new ≡
            record self.old { out = record { order = order; paused = false } } }
        ensures half { result ≡ kept_half self.new }
        ensures home { self.old.out ≡ at_home }
    {
        let numbers = numbers(&self.state, self.finished, self.greatest, order, false);
        let out = OtherHalf::Out {
            order,
            paused: false,
        };
        let OtherHalf::Home(mut half) = mem::replace(&mut self.other, out) else {
            unreachable!()
        };
        note(&self.book, &mut self.kept, &mut half, &numbers);
        half
    }

    /// A half comes home.
    pub fn come(&mut self, mut half: Half)
        requires { half.book ≡ self.old.book }
        ensures { self.new ≡ record self.old { out = at_home } }
    {
        let numbers = numbers(&self.state, self.finished, self.greatest, 0, false);
        note(&self.book, &mut self.kept, &mut half, &numbers);
        self.other = OtherHalf::Home(half);
    }

    /// A half comes home, and one more flush is finished.
    pub fn finish(&mut self, mut half: Half)
        requires book { half.book ≡ self.old.book }
        requires room { self.old.finished + 1 < 2 ^ 32 }
        ensures { self.new ≡ record self.old { finished = self.old.finished + 1; out = at_home } }
    {
        self.finished += 1;
        let numbers = numbers(&self.state, self.finished, self.greatest, 0, false);
        note(&self.book, &mut self.kept, &mut half, &numbers);
        self.other = OtherHalf::Home(half);
    }
}
