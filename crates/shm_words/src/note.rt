use crate::view::View;
use atomic_table::Seat;
use std::marker::Model;

/// What a client hands over with a flush. It has no bytes.
///
/// Seen as the words that it belongs to, and the mark of the flush: its place among the actions and one more, or 0 for
/// no flush.
#[derive(Drop)]
pub struct Note {
    pub(crate) seat: Seat<(), View>,
}

impl Model for Note {
    ghost use Rattle.shm_words.specs.Seen.{NoteData, IsNote};
    ghost use Rattle.shm_words.specs.Views.{note_mark};

    ghost Value = { NoteData };

    ghost view = { λ n. record { table = n.seat.table_id; mark = note_mark n.seat.me.0 } };

    ghost invariant = { λ n. IsNote n.seat.me };
}
