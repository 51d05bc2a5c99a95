//! Runs that a gate leads.

use super::scripts::{LOST, RACE, TWO_AND_ONE, TWO_FLUSHES, TWO_TEXELS, led};
use gpu_io::{Gate, Place};
use std::sync::atomic::{AtomicU64, Ordering};
use std::test::Fail;
use std::thread;

/// How often a held thread looks whether it may go on, before it goes on all the same.
const TURNS: u32 = 10_000_000;

pub(super) fn one_more(count: &AtomicU64) {
    let _ = count.fetch_add(1, Ordering::SeqCst);
}

pub(super) fn value_of(count: &AtomicU64) -> u64 {
    count.load(Ordering::SeqCst)
}

// Holds a thread until a place was reached, or for a given number of turns.
pub(super) fn hold_until(reached: &AtomicU64, late: &AtomicU64) {
    for _ in 0..TURNS {
        if value_of(reached) > 0 {
            return;
        }
        thread::yield_now();
    }
    one_more(late);
}

/// Counts how often each place is reached.
#[derive(Drop)]
struct Counts {
    before_fetch: AtomicU64,
    after_fetch: AtomicU64,
    before_flush: AtomicU64,
    after_finish: AtomicU64,
}

impl Counts {
    fn none() -> Counts {
        Counts {
            before_fetch: AtomicU64::new(0),
            after_fetch: AtomicU64::new(0),
            before_flush: AtomicU64::new(0),
            after_finish: AtomicU64::new(0),
        }
    }
}

impl Gate for Counts {
    fn reach(&self, place: Place) {
        match place {
            Place::BeforeFetch { .. } => one_more(&self.before_fetch),
            Place::AfterFetch { .. } => one_more(&self.after_fetch),
            Place::BeforeFlush { .. } => one_more(&self.before_flush),
            Place::AfterFinish { .. } => one_more(&self.after_finish),
            Place::BeforeLook { .. } => {}
        }
    }
}

/// Scripts, and how often a place before a fetch, one before a flush and one after a finish is reached.
const REACHED: [(&str, u64, u64, u64); 4] = [
    (TWO_TEXELS, 1, 1, 1),
    (TWO_FLUSHES, 2, 2, 2),
    (TWO_AND_ONE, 0, 3, 3),
    (LOST, 1, 1, 0),
];

// Both commands of the two texels are fetched in one batch, a batch ends with its flush, an empty flush has no batch, and a
// lost stream no finish.
#[test]
fn each_place_is_reached_once(rt: HostRuntime) -> Result<(), Fail> {
    for (script, fetches, flushes, finishes) in REACHED {
        let counts = Counts::none();
        let _ = led(&rt, rt.alloc(), script, &counts)?;
        assert_eq!(rt; value_of(&counts.before_fetch), fetches);
        assert_eq!(rt; value_of(&counts.after_fetch), fetches);
        assert_eq!(rt; value_of(&counts.before_flush), flushes);
        assert_eq!(rt; value_of(&counts.after_finish), finishes);
    }
    Ok(())
}

/// Holds the worker before its first fetch until the client stands before its second flush, and the client there until its first order
/// is finished.
#[derive(Drop)]
struct Overwriting {
    fetching: AtomicU64,
    flushing: AtomicU64,
    finished: AtomicU64,
    late: AtomicU64,
}

impl Gate for Overwriting {
    fn reach(&self, place: Place) {
        match place {
            Place::BeforeFetch { .. } => {
                one_more(&self.fetching);
                hold_until(&self.flushing, &self.late);
            }
            Place::BeforeFlush { flush: 2, .. } => {
                one_more(&self.flushing);
                hold_until(&self.finished, &self.late);
            }
            Place::AfterFinish { order: 1, .. } => one_more(&self.finished),
            _ => {}
        }
    }
}

/// The journal of the race up to its first finish, where the client overwrites its word before that is fetched.
const OVERWRITTEN: &str = "order 1 1 14
step 1 0:20400004 1:00000001 2:00000001 3:00000001
step 1 4:20c00009 5:00000001 6:00000000 7:00000000 8:00000001 9:00000001 10:00000001 11:00000000 12:00000000 32:88776655
finish 1 1
";

#[test]
fn race(rt: HostRuntime) -> Result<(), Fail> {
    let gate = Overwriting {
        fetching: AtomicU64::new(0),
        flushing: AtomicU64::new(0),
        finished: AtomicU64::new(0),
        late: AtomicU64::new(0),
    };
    let lines = led(&rt, rt.alloc(), RACE, &gate)?;
    assert_eq!(rt; value_of(&gate.late), 0);
    assert!(rt; value_of(&gate.fetching) > 0);
    assert_eq!(rt; value_of(&gate.flushing), 1);
    assert_eq!(rt; value_of(&gate.finished), 1);
    assert!(rt; lines.starts_with(OVERWRITTEN.as_bytes()));
    Ok(())
}

/// Holds the first client before its second flush until an order of the second stream is finished.
#[derive(Drop)]
struct Beside {
    finished: AtomicU64,
    late: AtomicU64,
}

impl Gate for Beside {
    fn reach(&self, place: Place) {
        match place {
            Place::BeforeFlush {
                stream: 1,
                flush: 2,
            } => hold_until(&self.finished, &self.late),
            Place::AfterFinish { stream: 2, .. } => one_more(&self.finished),
            _ => {}
        }
    }
}

// The last order is that of the flush that was held.
#[test]
fn workers_beside_clients(rt: HostRuntime) -> Result<(), Fail> {
    let gate = Beside {
        finished: AtomicU64::new(0),
        late: AtomicU64::new(0),
    };
    let lines = led(&rt, rt.alloc(), TWO_AND_ONE, &gate)?;
    assert_eq!(rt; value_of(&gate.late), 0);
    assert!(rt; lines.ends_with(b"finish 1 3\n"));
    Ok(())
}
