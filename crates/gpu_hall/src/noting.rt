// What is done with the view of a hall.
ghost use Rattle.std.specs.Prelude.{◌≡◌, ◌++◌, ◌≤◌, length, OnOk, OnErr};
ghost use Rattle.std.specs.List.{All};
ghost use Rattle.gpu_store.specs.Images.{HasItsTexels};
ghost use Rattle.gpu_hall.specs.Views.{ViewHasRoom, IsSameView, HasNoted, ViewFits, ShowAll};

use crate::full_pass::FullPass;
use gpu_house::{House, Naming};
use gpu_store::Op;
use gpu_word::Memory;
use live_view::ViewWriter;
use serial_laws::{legal_histories_end, plans_are_lawful};
use std::sync::Wait;
use wait_hooks::Hook;

/// Makes room for more operations, where there is a view.
pub(crate) fn make_room(view: &mut Option<ViewWriter>, more: usize) -> Result<(), Memory>
    ensures room { OnOk result (ViewHasRoom more view.new) }
    ensures same { IsSameView view.old view.new }
{
    match view {
        Some(writer) => writer.reserve(more),
        None => Ok(()),
    }
}

// Notes operations that were done, in order.
fn note_each(writer: &mut ViewWriter, ops: Vec<Op>)
    requires room { length ops.items ≤ writer.old.spare }
    requires texels { All HasItsTexels ops.items }
    ensures { writer.new ≡ record writer.old {
      noted = writer.old.noted ++ ops.items;
      spare = writer.new.spare;
    } }
{
    for op in ops {
        writer.note(op);
    }
}

/// Notes operations that were done, in order, where there is a view.
pub(crate) fn note_all(view: &mut Option<ViewWriter>, ops: Vec<Op>)
    requires room { ViewHasRoom (length ops.items) view.old }
    requires texels { All HasItsTexels ops.items }
    ensures { HasNoted ops.items view.old view.new }
{
    match view {
        Some(writer) => note_each(writer, ops),
        None => {}
    }
}

/// Publishes a version of all events of the journal.
///
/// # Errors
///
/// `Memory`: the last version published stays, and no operation that was noted is lost.
pub(crate) fn publish_all<N: Naming, H: Hook, R: Wait>(
    rt: &R,
    house: &House<N, FullPass, H>,
    writer: &mut ViewWriter,
) -> Result<(), Memory>
    requires fits { ViewFits N.plans N.view house.now.core.past writer.old }
    ensures fits { ViewFits N.plans N.view house.now.core.past writer.new }
    ensures all { OnOk result (ShowAll N.plans house.now.core.past writer.new.versions) }
    ensures view { writer.new.view ≡ writer.old.view }
    ensures stays { OnErr result (writer.new.versions ≡ writer.old.versions) }
{
    house.shows_legal();
    plans_are_lawful(house.plans());
    legal_histories_end();
    writer.publish(rt, house.journal().count() as u32)
}

/// Gives a view up, where there is one.
pub(crate) fn end_view<R: Wait>(rt: &R, view: Option<ViewWriter>) {
    match view {
        Some(writer) => writer.end(rt),
        None => {}
    }
}
