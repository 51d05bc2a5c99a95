//! What the threads of a run tell each other, so that one that waits can sleep.
//!
//! It only decides when a call is made, and no clause speaks of it. Where it says too little, a thread that sleeps looks again by
//! itself after a while.
use crate::bell::{Bell, take_down};
use crossbeam_utils::CachePadded;
use gpu_word::Memory;
use std::alloc::Global;
use std::sync::atomic::{AtomicU64, Ordering};

// How many threads serve at once. With two of them what the lock keeps goes from processor to processor with each batch, which costs
// more than fetching beside each other brings.
const MOST_SERVERS: u64 = 1;

/// What a client needs that waits for room in its queue: more finishes than there can be.
pub const ROOM: u64 = 1 << 32;

/// What is added to the finishes that a client needs, where a token serves it as well.
pub const OR_TOKEN: u64 = 1 << 33;

/// The signals of one stream.
#[derive(Drop)]
struct StreamSignals {
    // 1 where the queue may hold something.
    posted: AtomicU64,
    // How many flushes were taken from the queue.
    taken: AtomicU64,
    // How many finishes the client waits for. 0: it does not wait. `ROOM`: it waits for room in its queue. With `OR_TOKEN` a token
    // serves it too.
    needs: AtomicU64,
    // 1 where the stream is lost.
    lost: AtomicU64,
}

impl StreamSignals {
    // Whether the queue may hold something, and each flush that was taken from it is finished.
    fn is_ready(&self, finishes: u32) -> bool {
        self.taken.load(Ordering::SeqCst) <= u64::from(finishes)
            && self.posted.load(Ordering::SeqCst) != 0
    }
}

/// What the threads of a run tell each other. Streams and bells are counted from 1: the bell of a stream, on which its client
/// sleeps, has the number of the stream, and after them come the bells of the workers.
#[derive(Drop)]
pub struct Signals {
    streams: Vec<CachePadded<StreamSignals>>,
    bells: Vec<CachePadded<Bell>>,
    // 1 where a queue that may be collected may hold something.
    posted: AtomicU64,
    // How many threads serve.
    servers: AtomicU64,
    // 1 where a worker was called that neither serves nor has gone back to sleep yet.
    called: AtomicU64,
}

impl Signals {
    /// Those of a given number of streams, with a given number of workers.
    ///
    /// # Errors
    ///
    /// `Memory`: for the lists.
    pub fn make(alloc: Global, streams: u32, workers: u32) -> Result<Signals, Memory> {
        let mut list = Vec::with_capacity(alloc, streams as usize)?;
        for _ in 0..streams {
            list.push(CachePadded::new(StreamSignals {
                posted: AtomicU64::new(0),
                taken: AtomicU64::new(0),
                needs: AtomicU64::new(0),
                lost: AtomicU64::new(0),
            }))?;
        }
        let threads = streams as usize + workers as usize;
        let mut bells = Vec::with_capacity(alloc, threads)?;
        for _ in 0..threads {
            bells.push(CachePadded::new(Bell::new()))?;
        }
        Ok(Signals {
            streams: list,
            bells,
            posted: AtomicU64::new(0),
            servers: AtomicU64::new(0),
            called: AtomicU64::new(0),
        })
    }

    // Those of one stream.
    fn of(&self, stream: u32) -> Option<&StreamSignals> {
        let padded = self.streams.get((stream as usize).wrapping_sub(1))?;
        Some(padded)
    }

    /// The bell of this number.
    pub(crate) fn bell(&self, number: usize) -> Option<&Bell> {
        let padded = self.bells.get(number.wrapping_sub(1))?;
        Some(padded)
    }

    /// How many workers there are.
    pub fn workers(&self) -> usize {
        self.bells.len().saturating_sub(self.streams.len())
    }

    /// The number of a worker's bell. Workers are counted from 0.
    pub(crate) fn bell_of_worker(&self, worker: usize) -> usize {
        self.streams.len().saturating_add(worker).saturating_add(1)
    }

    /// Rings a bell.
    pub(crate) fn ring(&self, bell: usize) {
        if let Some(bell) = self.bell(bell) {
            bell.ring();
        }
    }

    /// The client of a stream has posted a flush.
    pub(crate) fn post(&self, stream: u32) {
        if let Some(own) = self.of(stream) {
            own.posted.store(1, Ordering::SeqCst);
            self.posted.store(1, Ordering::SeqCst);
        }
    }

    /// Whether a queue that may be collected may hold something. From now on none does before something more is posted or finished.
    pub(crate) fn take_posted(&self) -> bool {
        take_down(&self.posted)
    }

    /// Whether the queue of a stream may hold something, and each flush that was taken from it is finished. Then from now on it holds
    /// nothing before something more is posted.
    pub(crate) fn may_collect(&self, stream: u32, finishes: u32) -> bool {
        match self.of(stream) {
            Some(own) => own.is_ready(finishes) && take_down(&own.posted),
            None => true,
        }
    }

    /// A given number of flushes was taken from the queue of a stream. It says whether the client waits for the room.
    pub(crate) fn note_taken(&self, stream: u32, count: u32) -> bool {
        match self.of(stream) {
            Some(own) => {
                own.taken.fetch_add(u64::from(count), Ordering::SeqCst);
                own.needs.load(Ordering::SeqCst) == ROOM
            }
            None => false,
        }
    }

    /// A stream has this number of finishes, a new token or none, and is lost or not. It says whether that concerns its client.
    pub(crate) fn note_end(&self, stream: u32, finishes: u32, has_token: bool, lost: bool) -> bool {
        let Some(own) = self.of(stream) else {
            return lost;
        };
        if lost {
            own.lost.store(1, Ordering::SeqCst);
        }
        if own.is_ready(finishes) {
            self.posted.store(1, Ordering::SeqCst);
        }
        let needs = own.needs.load(Ordering::SeqCst);
        lost || needs & !OR_TOKEN <= u64::from(finishes) || (has_token && needs & OR_TOKEN != 0)
    }

    /// Whether a stream is known to be lost.
    pub(crate) fn is_lost(&self, stream: u32) -> bool {
        match self.of(stream) {
            Some(own) => own.lost.load(Ordering::SeqCst) != 0,
            None => true,
        }
    }

    /// The client of a stream waits for a number of finishes, or for room.
    pub(crate) fn need(&self, stream: u32, finishes: u64) {
        if let Some(own) = self.of(stream) {
            own.needs.store(finishes, Ordering::SeqCst);
        }
    }

    /// A thread begins to serve. It says whether as many do already as are wanted.
    pub(crate) fn begin(&self) -> bool {
        let before = self.servers.fetch_add(1, Ordering::SeqCst);
        self.called.store(0, Ordering::SeqCst);
        before >= MOST_SERVERS
    }

    /// A thread serves no longer.
    pub(crate) fn end(&self) {
        self.servers.fetch_sub(1, Ordering::SeqCst);
    }

    /// Whether fewer threads serve than are wanted.
    pub(crate) fn is_short(&self) -> bool {
        self.servers.load(Ordering::SeqCst) < MOST_SERVERS
    }

    /// Whether fewer threads serve than are wanted, and a queue that may be collected may hold something.
    pub(crate) fn wants_server(&self) -> bool {
        self.posted.load(Ordering::SeqCst) != 0 && self.is_short()
    }

    /// Calls a worker that sleeps, where no thread serves and no worker is on its way.
    pub(crate) fn call(&self) {
        if self.servers.load(Ordering::SeqCst) != 0 || self.called.swap(1, Ordering::SeqCst) != 0 {
            return;
        }
        for worker in 0..self.workers() {
            if let Some(bell) = self.bell(self.bell_of_worker(worker)) {
                if bell.wake() {
                    return;
                }
            }
        }
        self.called.store(0, Ordering::SeqCst);
    }

    /// A worker that was called is not needed any more: another one may be called.
    pub(crate) fn dismiss(&self) {
        self.called.store(0, Ordering::SeqCst);
    }

    /// Calls all workers.
    pub(crate) fn call_all(&self) {
        for worker in 0..self.workers() {
            self.ring(self.bell_of_worker(worker));
        }
    }
}
