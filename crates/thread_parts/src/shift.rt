//! What a thread keeps in mind while it serves.
use crate::signals::Signals;

/// How a thread came to serve no longer.
#[derive(Clone, Copy)]
pub enum Leave {
    /// It has taken the one run that it was to take.
    Enough,
    /// No stream at home could run.
    NothingRunnable,
    /// Nothing is left to do for any stream.
    AllOver,
}

/// What a thread keeps in mind while it serves: whom it tells of what it does, how many runs it takes, whose bells must be
/// rung once the lock is free, and how it came to leave.
#[derive(Drop)]
pub struct Shift<'a> {
    // None where it serves one turn, and tells nobody.
    signals: Option<&'a Signals>,
    is_worker: bool,
    // Whether it takes one run alone, and whether it has taken one.
    once: bool,
    ran: bool,
    // The streams whose bells must be rung, a bit each.
    rings: u32,
    leave: Leave,
}

impl<'a> Shift<'a> {
    /// A client or a worker begins to serve, as long as something is runnable. Where enough threads serve already, it takes
    /// one run alone. With no signals it serves one turn, for which all queues are collected.
    pub fn begin(signals: Option<&'a Signals>, is_worker: bool) -> Shift<'a> {
        let once = match signals {
            Some(signals) => signals.begin(),
            None => true,
        };
        Shift {
            signals,
            is_worker,
            once,
            ran: false,
            rings: 0,
            leave: Leave::Enough,
        }
    }

    /// It serves no longer. It says how it came to leave:
    /// - where it leaves something undone, a worker is called; a worker looks again by itself, and a client that posted
    ///   relies on those that serve
    /// - where all is over, all of them are
    pub fn end(&self) -> Leave {
        if let Some(signals) = self.signals {
            signals.end();
            match self.leave {
                Leave::Enough => signals.call(),
                Leave::NothingRunnable => {
                    if !self.is_worker && signals.wants_server() {
                        signals.call();
                    }
                }
                Leave::AllOver => signals.call_all(),
            }
        }
        self.leave
    }

    /// It must leave.
    pub fn stop(&mut self, leave: Leave) {
        self.leave = leave;
    }

    /// Whether a queue may hold something that may be collected. From now on none does before something more is posted or finished.
    pub fn takes_posted(&self) -> bool {
        match self.signals {
            Some(signals) => signals.take_posted(),
            None => true,
        }
    }

    /// Whether the queue of this stream must be collected: it may hold something, and what was taken from it is finished.
    pub fn may_collect(&self, stream: u32, finishes: u32) -> bool {
        match self.signals {
            Some(signals) => signals.may_collect(stream, finishes),
            None => true,
        }
    }

    /// A given number of flushes was taken from the queue of a stream, so that it has room.
    pub fn note_taken(&mut self, stream: u32, count: u32) {
        if let Some(signals) = self.signals {
            if signals.note_taken(stream, count) {
                self.owe(stream);
            }
        }
    }

    /// A stream has this number of finishes, a new token or none, and is lost or not.
    pub fn note_end(&mut self, stream: u32, finishes: u32, has_token: bool, lost: bool) {
        if let Some(signals) = self.signals {
            if signals.note_end(stream, finishes, has_token, lost) {
                self.owe(stream);
            }
        }
    }

    // The bell of a stream must be rung.
    fn owe(&mut self, stream: u32) {
        self.rings |= 1u32 << (stream & 31);
    }

    /// Whether the thread takes one run more.
    pub fn takes_run(&mut self) -> bool {
        let has_enough = self.once && self.ran;
        self.ran = true;
        !has_enough
    }

    /// Rings the bells that must be rung. No lock is held.
    pub fn ring(&mut self) {
        let Some(signals) = self.signals else {
            return;
        };
        for stream in 0..32u32 {
            if (self.rings >> stream) & 1 == 1 {
                signals.ring(stream as usize);
            }
        }
        self.rings = 0;
    }
}
