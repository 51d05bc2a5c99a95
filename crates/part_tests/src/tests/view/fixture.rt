// A writer with one viewer, and versions of one image.
ghost use Rattle.std.specs.Prelude.{◌≡◌, ◌++◌, IfOk, IfSome};
ghost use Rattle.gpu_store.specs.Images.{HasItsTexels};
ghost use Rattle.live_view.specs.Versions.{IsLatest};

use gpu_store::{Op, Rect};
use gpu_word::Memory;
use live_view::{ViewWriter, Viewer, make};
use std::alloc::Global;
use std::sync::Wait;

/// A writer that has published the first version alone, and its viewer.
pub(super) fn pair<R: Wait>(rt: &R, alloc: Global) -> Result<(ViewWriter, Option<Viewer>), Memory>
    ensures first { IfOk result (λ pair. IsLatest (pair.0.versions ++ pair.0.tried) 0) }
    ensures view { IfOk result (λ pair. IfSome pair.1 (λ viewer. viewer.view ≡ pair.0.view)) }
{
    let (writer, mut viewers) = make(rt, alloc, 1)?;
    Ok((writer, viewers.pop()))
}

/// An image of a given number of texels.
pub(super) fn create(width: u32, height: u32) -> Op
    ensures { HasItsTexels result }
{
    Op::Create {
        image: 3,
        width,
        height,
    }
}

/// One texel in all places of that image.
pub(super) fn clear(width: u32, height: u32, texel: u32) -> Op
    ensures { HasItsTexels result }
{
    let rect = Rect {
        x: 0,
        y: 0,
        w: width,
        h: height,
    };
    Op::Clear {
        image: 3,
        rect,
        texel,
    }
}

/// Notes an operation, and says whether there was memory for it.
pub(super) fn noted(writer: &mut ViewWriter, op: Op) -> bool
    requires { HasItsTexels op }
    ensures view { writer.new.view ≡ writer.old.view }
    ensures all { writer.new.versions ++ writer.new.tried
        ≡ writer.old.versions ++ writer.old.tried }
{
    if writer.reserve(1).is_err() {
        return false;
    }
    writer.note(op);
    true
}

/// Publishes a version, and says whether there was memory for it.
pub(super) fn published<R: Wait>(rt: &R, writer: &mut ViewWriter, events: u32) -> bool
    requires { IsLatest (writer.old.versions ++ writer.old.tried) events }
    ensures view { writer.new.view ≡ writer.old.view }
    ensures latest { IsLatest (writer.new.versions ++ writer.new.tried) events }
{
    writer.publish(rt, events).is_ok()
}
