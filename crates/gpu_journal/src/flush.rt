//! The flush at a place of a plan.
ghost use Rattle.std.specs.Prelude.{◌≡◌, slice_get};
ghost use Rattle.gpu_journal.specs.Facts.{put_in};

use gpu_plan::Action;

/// The put of the flush at a place, or 0 where no flush is.
pub fn put_at(actions: &[Action], place: u32) -> u32
    ensures { result ≡ put_in (slice_get actions.now place) }
{
    match actions.get(place as usize) {
        Some(Action::Flush { put, .. }) => *put,
        _ => 0,
    }
}
