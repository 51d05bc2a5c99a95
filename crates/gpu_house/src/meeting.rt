//! The note of a run is met once.
ghost use Rattle.std.specs.Prelude.{◌≡◌, ◌≤◌, None, option_map, IfSome};
ghost use Rattle.gpu_fetch.specs.Side.{StillBelongs, side_reach};
ghost use Rattle.gpu_house.specs.Changes.{met_by};

use gpu_fetch::ServiceSide;

/// A side meets the note of its flush, where it has not met that.
pub(crate) fn meet<P: ServiceSide>(side: &mut P, note: &mut Option<P::Note>, words: &P::Words)
    requires belongs { P.belongs side.old words.now }
    requires note { IfSome note.old (P.note_belongs side.old words.now) }
    requires flush { IfSome note.old (λ note. 1 ≤ P.mark note) }
    ensures told { P.side side.new ≡ met_by (option_map P.mark note.old) (P.side side.old) }
    ensures list { (P.side side.new).fetched ≡ (P.side side.old).fetched }
    ensures finished { (P.side side.new).finished ≡ (P.side side.old).finished }
    ensures bounded { IfSome note.old
        (λ note. (P.side side.new).met ≤ side_reach (P.side side.new)) }
    ensures table { P.table side.new ≡ P.table side.old }
    ensures still { StillBelongs P.belongs P.note_belongs words.now side.old side.new }
    ensures met { note.new ≡ None }
{
    if let Some(note) = note.take() {
        side.meet(words, note);
    }
}
