//! The program on threads.

use super::calls::{TWO_TEXELS, TWO_TEXELS_OUTPUT, ends, given, sink_of, source_of, steady};
use crate::program::top;
use gpu_io::{Gate, Place};
use script_answers::Status;
use std::sync::atomic::{AtomicU64, Ordering};
use std::test::Fail;
use std::thread;
use wait_hooks::Marker;

// Two clients with a command each.
const ONE_EACH: &[u8] = b"gpu-script 1
stream 1 normal 16
put 0 1
flush 1
stream 2 normal 16
put 0 1
flush 1
";

#[test]
fn a_script_is_run_with_each_number_of_workers(rt: HostRuntime) -> Result<(), Fail> {
    for workers in ["0", "1", "2", "3", "4", "5", "6", "7", "8"] {
        let words = ["run", "--workers", workers];
        ends(
            &rt,
            rt.alloc(),
            &words,
            TWO_TEXELS,
            &steady(),
            (0, TWO_TEXELS_OUTPUT),
        )?;
    }
    Ok(())
}

/// How often a held thread looks whether it may go on, before it goes on all the same.
const TURNS: u32 = 10_000_000;

/// Holds the first fetch of each of two streams until that of the other was reached.
#[derive(Drop)]
struct BothAtOnce {
    first: AtomicU64,
    second: AtomicU64,
    late: AtomicU64,
}

// Notes that a place was reached, and holds a thread there until the other was, or for a given number of turns.
fn meet(mine: &AtomicU64, other: &AtomicU64, late: &AtomicU64) {
    let _ = mine.fetch_add(1, Ordering::SeqCst);
    for _ in 0..TURNS {
        if other.load(Ordering::SeqCst) > 0 {
            return;
        }
        thread::yield_now();
    }
    let _ = late.fetch_add(1, Ordering::SeqCst);
}

impl Gate for BothAtOnce {
    fn reach(&self, place: Place) {
        match place {
            Place::BeforeFetch { stream: 1 } => meet(&self.first, &self.second, &self.late),
            Place::BeforeFetch { stream: 2 } => meet(&self.second, &self.first, &self.late),
            _ => {}
        }
    }
}

#[test]
fn two_workers_are_at_work_at_once(rt: HostRuntime) -> Result<(), Fail> {
    let both = BothAtOnce {
        first: AtomicU64::new(0),
        second: AtomicU64::new(0),
        late: AtomicU64::new(0),
    };
    let words = given(rt.alloc(), &["run", "--workers", "2"])?;
    let mut source = source_of(rt.alloc(), ONE_EACH, &steady())?;
    let mut sink = sink_of(rt.alloc(), &steady())?;
    let hook = Marker::make(1000);
    let status = top(&rt, rt.alloc(), &words, &mut source, &mut sink, &both, hook);
    assert!(rt; matches!(status, Status::Ok));
    assert_eq!(rt; both.late.load(Ordering::SeqCst), 0);
    Ok(())
}
