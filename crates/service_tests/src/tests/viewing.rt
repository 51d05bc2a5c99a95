//! Runs that viewers look at.

use super::gates::{hold_until, one_more, value_of};
use super::scripts::{READ_BACK, viewed};
use gpu_io::{Gate, Place};
use live_view::Look;
use std::alloc::Global;
use std::sync::Wait;
use std::sync::atomic::AtomicU64;
use std::test::Fail;
use std::thread::Threads;

/// Holds the viewer before its second look until the first order is finished, and the client before its second flush until the viewer
/// stands before its third look. Counts the looks.
#[derive(Drop)]
struct ReadBack {
    finished: AtomicU64,
    looks: AtomicU64,
    looked: AtomicU64,
    late: AtomicU64,
}

impl Gate for ReadBack {
    fn reach(&self, place: Place) {
        match place {
            Place::BeforeLook { viewer: 1, look } => {
                one_more(&self.looks);
                match look {
                    2 => hold_until(&self.finished, &self.late),
                    3 => one_more(&self.looked),
                    _ => {}
                }
            }
            Place::BeforeFlush { flush: 2, .. } => hold_until(&self.looked, &self.late),
            Place::AfterFinish { order: 1, .. } => one_more(&self.finished),
            _ => {}
        }
    }
}

// How many events a run with one viewer leaves, and the viewer's second look and its last.
fn looked<G: Gate + Sync, R: Threads + Wait + Sync>(
    rt: &R,
    alloc: Global,
    gate: &G,
) -> Result<(usize, Look, Look), Fail> {
    let (report, all) = viewed(rt, alloc, READ_BACK, 1, gate)?;
    let events = report.journal().count();
    drop(report);
    let looks = all.first().ok_or("one viewer")?;
    let second = looks.get(1).ok_or("a second look")?;
    let last = looks.last().ok_or("a last look")?;
    Ok((events, *second, *last))
}

// The second look is one of the first upload: what was finished is published before the gate hears of it. The look after the
// run has no place of its own.
#[test]
fn a_finished_order_is_seen_during_the_run(rt: HostRuntime) -> Result<(), Fail> {
    let gate = ReadBack {
        finished: AtomicU64::new(0),
        looks: AtomicU64::new(0),
        looked: AtomicU64::new(0),
        late: AtomicU64::new(0),
    };
    let (events, second, last) = looked(&rt, rt.alloc(), &gate)?;
    assert_eq!(rt; value_of(&gate.late), 0);
    assert_eq!(rt; value_of(&gate.looks), 16);
    assert_eq!(rt; events, 7);
    assert_eq!(rt; (second.events, second.sum), (4, 0x1122_3344));
    assert_eq!(rt; (last.events, last.sum), (7, 0x5566_7788));
    Ok(())
}
