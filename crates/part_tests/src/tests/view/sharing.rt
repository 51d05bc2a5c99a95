// A writer and its viewer on two threads.
ghost use Rattle.std.specs.Prelude.{◌++◌};
ghost use Rattle.live_view.specs.Versions.{IsLatest};

use super::fixture::{clear, create, noted, pair, published};
use live_view::{Look, ViewWriter, Viewer};
use std::sync::Wait;
use std::test::Fail;
use std::thread;
use std::thread::Threads;

/// How many texels the image has on each side.
const SIDE: u32 = 256;

/// How many versions the writer publishes beside the viewer.
const VERSIONS: u32 = 10_000;

/// How often the viewer looks beside the writer.
const LOOKS: u32 = 100_000;

// Publishes a version whose texels are all one more than its number of events.
fn shown<R: Wait>(rt: &R, writer: &mut ViewWriter, events: u32) -> bool
    requires { IsLatest (writer.old.versions ++ writer.old.tried) events }
    ensures { IsLatest (writer.new.versions ++ writer.new.tried) events }
{
    let texel = events.wrapping_add(1);
    noted(writer, clear(SIDE, SIDE, texel)) && published(rt, writer, events)
}

// Publishes the image, which the viewer finds when it begins.
fn begin<R: Wait>(rt: &R, writer: &mut ViewWriter) -> bool
    requires { IsLatest (writer.old.versions ++ writer.old.tried) 0 }
    ensures { IsLatest (writer.new.versions ++ writer.new.tried) 0 }
{
    noted(writer, create(SIDE, SIDE)) && shown(rt, writer, 0)
}

// Publishes all versions after that.
fn publish_all<R: Wait>(rt: &R, writer: &mut ViewWriter) -> bool
    requires { IsLatest (writer.old.versions ++ writer.old.tried) 0 }
{
    for events in 1..=VERSIONS {
        if !shown(rt, writer, events) {
            return false;
        }
    }
    true
}

// Whether a look is of a version that the writer publishes with the image.
fn is_whole(look: Look) -> bool {
    look.events <= VERSIONS && look.sum == (look.events + 1).wrapping_mul(SIDE * SIDE)
}

// Whether each look is of such a version, and none of an earlier one than the look before.
fn look_all<R: Wait>(rt: &R, viewer: &mut Viewer) -> bool {
    let mut events = 0;
    for _ in 0..LOOKS {
        let look = viewer.look(rt);
        if !is_whole(look) || look.events < events {
            return false;
        }
        events = look.events;
    }
    true
}

// Both at work at once. Neither waits for the other to be done: a viewer that looks all the time
// holds the writer up, but only until it has looked so often.
fn race<R: Threads + Wait + Sync>(
    rt: &R,
    writer: &mut ViewWriter,
    viewer: &mut Viewer,
) -> (bool, bool)
    requires { IsLatest (writer.old.versions ++ writer.old.tried) 0 }
{
    thread::join(
        rt,
        move ||
            requires { IsLatest (writer.now.versions ++ writer.now.tried) 0 }
        { publish_all(rt, writer) },
        move || look_all(rt, viewer),
    )
}

#[test]
fn looks_beside_the_writer_are_whole(rt: HostRuntime) -> Result<(), Fail> {
    let (mut writer, viewer) = pair(&rt, rt.alloc())?;
    let begun = begin(&rt, &mut writer);
    let raced = match viewer {
        Some(mut viewer) => {
            let answers = race(&rt, &mut writer, &mut viewer);
            Some((answers, viewer.look(&rt), viewer.looks()))
        }
        None => None,
    };
    writer.end(&rt);
    let (answers, last, count) = raced.ok_or("one viewer")?;
    assert!(rt; (begun, answers) == (true, (true, true)));
    assert!(rt; last.events == VERSIONS && is_whole(last));
    assert!(rt; count == LOOKS + 1);
    Ok(())
}
