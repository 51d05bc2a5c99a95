//! What a thread keeps in mind while it waits.
use crate::shift::Shift;
use crate::signals::Signals;
use std::hint::spin_loop;
use std::sync::Wait;
use std::thread;

// After this number of naps for nothing a client looks whether its stream has ended, and a thread serves whoever else
// does.
const MANY: u32 = 3;

// How often a client looks before it sleeps, and how often of that it does not yield.
const LOOKS: u32 = 20;

const SPINS: u32 = 16;

/// What a client keeps in mind from one action to the next, and a worker from one rest to the next.
#[derive(Drop)]
pub struct Pace<'a> {
    signals: &'a Signals,
    // The stream of a client, or 0.
    stream: u32,
    bell: usize,
    // How often the bell was rung before the last look at what the thread waits for.
    heard: u64,
    // Whether the client posted a flush of which nobody heard.
    untold: bool,
    // Whether the client has said what it needs.
    asked: bool,
    // How often in a row the thread slept for nothing.
    naps: u32,
}

impl<'a> Pace<'a> {
    // Of the client of a stream, or of a worker for stream 0, which sleeps on this bell.
    fn new(signals: &'a Signals, stream: u32, bell: usize) -> Pace<'a> {
        Pace {
            signals,
            stream,
            bell,
            heard: 0,
            untold: false,
            asked: false,
            naps: 0,
        }
    }

    /// Of the client of a stream.
    pub fn of_client(signals: &'a Signals, stream: u32) -> Pace<'a> {
        Pace::new(signals, stream, stream as usize)
    }

    /// Of a worker. Workers are counted from 0.
    pub fn of_worker(signals: &'a Signals, worker: usize) -> Pace<'a> {
        Pace::new(signals, 0, signals.bell_of_worker(worker))
    }

    /// The thread is about to look at what it waits for: a ring from now on does not let it sleep.
    pub fn listen(&mut self) {
        if let Some(bell) = self.signals.bell(self.bell) {
            self.heard = bell.rings();
        }
    }

    /// The client did an action, by which it may have posted a flush. Of one posted before a worker hears, since the client goes on and
    /// does not serve itself.
    pub fn go(&mut self, has_posted: bool) {
        if self.untold {
            self.signals.call();
        }
        if self.asked {
            self.signals.need(self.stream, 0);
        }
        if has_posted {
            self.signals.post(self.stream);
        }
        self.untold = has_posted;
        self.asked = false;
        self.naps = 0;
    }

    /// The client has come to its end. A worker hears of what it posted.
    pub fn end(&self) {
        self.signals.call();
    }

    /// The client cannot go on before its stream has this number of finishes, or its queue room. It says whether the
    /// client must try again: it has only now told what it needs, and listens only now; a finish before that rang no bell.
    pub fn asks(&mut self, needs: u64) -> bool {
        if self.asked {
            return false;
        }
        self.signals.need(self.stream, needs);
        self.asked = true;
        self.untold = false;
        self.listen();
        true
    }

    // Whether the thread slept often for nothing.
    fn has_waited_long(&self) -> bool {
        self.naps > MANY
    }

    /// Whether the stream of the client may be lost or closed.
    pub fn may_be_over(&self) -> bool {
        self.has_waited_long() || self.signals.is_lost(self.stream)
    }

    /// Whether the thread must serve.
    pub fn may_serve(&self) -> bool {
        self.has_waited_long() || self.signals.is_short()
    }

    /// The thread begins to serve.
    pub fn shift(&self) -> Shift<'a> {
        Shift::begin(Some(self.signals), self.stream == 0)
    }

    /// The thread sleeps until its bell is rung, but not where a thread that serves is wanted. A client first looks for a while.
    pub fn sleep<R: Wait>(&mut self, rt: &R) {
        let Some(bell) = self.signals.bell(self.bell) else {
            return;
        };
        let looks = if self.stream == 0 { 0 } else { LOOKS };
        for look in 0..looks {
            if bell.rings() != self.heard {
                self.naps = 0;
                return;
            }
            if self.signals.wants_server() {
                return;
            }
            if look < SPINS {
                spin_loop();
            } else {
                thread::yield_now();
            }
        }
        bell.lie_down();
        if !self.signals.wants_server() {
            bell.sleep(rt, self.heard, self.naps);
        }
        bell.get_up();
        let woken = bell.rings() != self.heard;
        if woken && self.stream == 0 && !self.may_serve() {
            self.signals.dismiss();
        }
        self.naps = if woken {
            0
        } else {
            self.naps.saturating_add(1)
        };
    }
}
