ghost use Rattle.std.specs.Prelude.{◌≡◌, ◌+◌, ◌<◌, ◌≤◌, length};

use gpu_word::Memory;
use std::alloc::Global;
use std::process::Abort;
use std::test::Fail;
use sync_core::{Ending, How, Judged, SyncCore};

/// What a test does to a core.
#[derive(Clone, Copy)]
enum Step {
    Order(u32, &'static [(u32, u64)]),
    Wait(u32, u32, u64, Judged),
    Release(u32, u64),
    Finish(u32),
    Lose(u32),
    Close(u32),
}

fn play(rt: &impl Abort, core: &mut SyncCore, step: Step)
    requires streams { length core.old.streams ≡ 3 }
    requires few { core.old.drawn < 100 }
    ensures streams { length core.new.streams ≡ 3 }
    ensures few { core.new.drawn ≤ core.old.drawn + 1 }
{
    match step {
        Step::Order(s, fences) => {
            assert!(rt; 1 <= s && s <= 3);
            let drawn = core.order(s, fences);
            assert!(rt; drawn.is_ok());
        }
        Step::Wait(s, t, r, wanted) => {
            assert!(rt; core.front(s).is_some());
            let judged = core.wait(s, t, r);
            assert!(rt;
                match judged {
                    Ok(Judged::Kept) => matches!(wanted, Judged::Kept),
                    Ok(Judged::Dropped) => matches!(wanted, Judged::Dropped),
                    Err(_) => false,
                }
            );
        }
        Step::Release(s, r) => {
            assert!(rt; 1 <= s && s <= 3);
            core.release(s, r);
        }
        Step::Finish(s) => {
            assert!(rt; core.front(s).is_some() && !core.blocked(s));
            core.finish(s);
        }
        Step::Lose(s) => {
            assert!(rt; 1 <= s && s <= 3);
            core.lose(s);
        }
        Step::Close(s) => {
            assert!(rt; 1 <= s && s <= 3);
            core.close(s);
        }
    }
}

/// The stream, order number, target and release of a wait that ends, and how it ends.
type Wanted = (u32, u32, u32, u64, How);

fn is_ending(ending: &Ending, wanted: &Wanted) -> bool {
    let is_how = match ending.how {
        How::Release => matches!(wanted.4, How::Release),
        How::Guard => matches!(wanted.4, How::Guard),
        How::Closed => matches!(wanted.4, How::Closed),
    };
    is_how
        && (ending.stream, ending.order) == (wanted.0, wanted.1)
        && (ending.target, ending.release) == (wanted.2, wanted.3)
}

fn are_endings(endings: &[Ending], wanted: &[Wanted]) -> bool {
    let mut same = endings.len() == wanted.len();
    for (ending, wanted) in endings.iter().zip(wanted) {
        same = same && is_ending(ending, wanted);
    }
    same
}

/// Plays the steps on a new core of three streams, and says whether its endings are those wanted.
fn ends_so(
    rt: &impl Abort,
    alloc: Global,
    steps: &[Step],
    wanted: &[Wanted],
) -> Result<bool, Memory> {
    assert!(rt; steps.len() < 100);
    let mut core = SyncCore::make(alloc, 3)?;
    for step in steps {
        play(rt, &mut core, *step);
    }
    Ok(are_endings(core.endings(), wanted))
}

// Steps, and the endings that they give, which no stored case of a run shows.
const CASES: [(&[Step], &[Wanted]); 3] = [
    // A close ends a wait of a command.
    (
        &[
            Step::Order(1, &[]),
            Step::Order(2, &[]),
            Step::Wait(2, 1, 5, Judged::Kept),
            Step::Close(1),
            Step::Finish(2),
        ],
        &[(2, 2, 1, 5, How::Closed)],
    ),
    // A loss ends all waits on the stream by their guards, by number and then by position.
    (
        &[
            Step::Order(1, &[]),
            Step::Order(2, &[(1, 9), (2, 9), (1, 8)]),
            Step::Order(3, &[(1, 7)]),
            Step::Wait(2, 1, 5, Judged::Kept),
            Step::Lose(1),
            Step::Finish(2),
            Step::Finish(3),
        ],
        &[
            (2, 2, 1, 9, How::Guard),
            (2, 2, 1, 8, How::Guard),
            (2, 2, 1, 5, How::Guard),
            (3, 3, 1, 7, How::Guard),
        ],
    ),
    // A lost or closed stream's own waits go silently.
    (
        &[
            Step::Order(1, &[]),
            Step::Order(2, &[(1, 5)]),
            Step::Order(3, &[(1, 5)]),
            Step::Lose(2),
            Step::Close(3),
            Step::Release(1, 5),
            Step::Finish(1),
        ],
        &[],
    ),
];

#[test]
fn waits_are_kept_and_end_as_worked_by_hand(rt: HostRuntime) -> Result<(), Fail> {
    for (i, (steps, wanted)) in CASES.iter().enumerate() {
        assert!(rt; ends_so(&rt, rt.alloc(), steps, wanted)?, "case {i}");
    }
    Ok(())
}
