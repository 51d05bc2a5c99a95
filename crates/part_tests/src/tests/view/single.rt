// A writer and its viewer on one thread.
ghost use Rattle.std.specs.Prelude.{◌≡◌, ◌++◌};
ghost use Rattle.live_view.specs.Versions.{IsLatest};

use super::fixture::{clear, create, noted, pair, published};
use live_view::{Look, ViewWriter, Viewer};
use std::sync::Wait;
use std::test::Fail;

// Looks before and after a version is published, and learns of the versions before it, and of all.
fn follow<R: Wait>(rt: &R, writer: &mut ViewWriter, viewer: &mut Viewer) -> ([Look; 3], [bool; 5])
    requires view { viewer.old.view ≡ writer.old.view }
    requires first { IsLatest (writer.old.versions ++ writer.old.tried) 0 }
{
    let first = viewer.look(rt);
    let created = noted(writer, create(2, 1));
    let cleared = noted(writer, clear(2, 1, 0x8000_0001));
    let still = viewer.look(rt);
    let early = writer.tell();
    let shown = published(rt, writer, 0);
    let last = viewer.look(rt);
    let told = viewer.learn(rt, early);
    let all = viewer.learn(rt, writer.tell());
    ([first, still, last], [created, cleared, shown, told, all])
}

#[test]
fn looks_follow_what_is_published(rt: HostRuntime) -> Result<(), Fail> {
    let (mut writer, viewer) = pair(&rt, rt.alloc())?;
    let followed = match viewer {
        Some(mut viewer) => {
            let seen = follow(&rt, &mut writer, &mut viewer);
            Some((seen, viewer.looks()))
        }
        None => None,
    };
    writer.end(&rt);
    let (([first, still, last], answers), count) = followed.ok_or("one viewer")?;
    assert!(rt; [first.events, still.events, last.events] == [0, 0, 0]);
    assert!(rt; [first.sum, still.sum, last.sum] == [0, 0, 2]);
    assert!(rt; answers == [true, true, true, false, true]);
    assert!(rt; count == 3);
    Ok(())
}
