//! What a thread sleeps on.
use std::sync::Wait;
use std::sync::atomic::{AtomicU64, Ordering};
use std::time::Duration;

// A nap takes at most 2 to this power of milliseconds.
const LONGEST: u32 = 4;

/// What one thread sleeps on. It counts how often it was rung.
#[derive(Drop)]
pub(crate) struct Bell {
    rings: AtomicU64,
    // 1 where the thread sleeps, or is about to.
    asleep: AtomicU64,
}

impl Bell {
    /// One that was not rung yet.
    pub(crate) fn new() -> Bell {
        Bell {
            rings: AtomicU64::new(0),
            asleep: AtomicU64::new(0),
        }
    }

    /// How often it was rung.
    pub(crate) fn rings(&self) -> u64 {
        self.rings.load(Ordering::SeqCst)
    }

    /// Rings it, wakes the thread that sleeps on it, and says whether there was one.
    pub(crate) fn ring(&self) -> bool {
        self.rings.fetch_add(1, Ordering::SeqCst);
        let asleep = take_down(&self.asleep);
        if asleep {
            self.rings.wake_one();
        }
        asleep
    }

    /// Rings it where a thread sleeps on it, and says whether one did.
    pub(crate) fn wake(&self) -> bool {
        self.asleep.load(Ordering::SeqCst) != 0 && self.ring()
    }

    /// A thread is about to sleep on it: from now on a ring wakes it.
    pub(crate) fn lie_down(&self) {
        self.asleep.store(1, Ordering::SeqCst);
    }

    /// The thread does not sleep on it.
    pub(crate) fn get_up(&self) {
        self.asleep.store(0, Ordering::SeqCst);
    }

    /// Sleeps until it has been rung more often than `heard`. A nap takes a millisecond at most, and twice as long after each nap
    /// before, up to 16 ms.
    pub(crate) fn sleep<R: Wait>(&self, rt: &R, heard: u64, naps: u32) {
        let longest = Duration::from_millis(1u64 << naps.min(LONGEST));
        self.rings
            .park_timeout(rt, (heard & 0xffff_ffff) as u32, longest);
    }
}

/// Takes a flag down, and says whether it was up.
pub(crate) fn take_down(flag: &AtomicU64) -> bool {
    flag.load(Ordering::SeqCst) != 0 && flag.swap(0, Ordering::SeqCst) != 0
}
