ghost use Rattle.std.specs.Prelude.{◌≡◌, None};

use gpu_cmd::CmdError;
use gpu_store::Op;
use sync_core::OrderFault;

/// What a stream is doing.
#[derive(Clone, Copy)]
pub enum Doing {
    /// Something is left to do.
    Open,
    /// It is lost.
    Lost,
    /// Its plan has no Close, and all its flushes are ordered and finished.
    AllDone,
    /// It is closed.
    Closed,
}

/// The record of waits.
#[derive(Clone, Copy)]
pub struct WaitsKept {
    /// How many waits are pending.
    pub pending: usize,
    /// The first unprocessed number of a stream.
    pub front: Option<u32>,
    /// Whether a wait of that number is pending.
    pub blocked: bool,
}

/// What a step left its run to do.
#[derive(Clone, Copy)]
pub enum Next {
    /// The flush has more commands.
    More,
    /// The step's wait was kept, so the run has to go back.
    Paused,
    /// Nothing is left of the flush.
    FlushEnd,
    /// The command was invalid, and its stream is lost by this error now.
    Invalid(CmdError),
    /// The stream was lost before. Nothing has changed.
    Lost,
    /// The stream was closed before. Nothing has changed.
    Closed,
}

/// How far a step has brought its run.
#[derive(Drop)]
pub struct Progress {
    /// What the run goes on with.
    pub next: Next,
    /// The image operation of the step, where it has one and that was answered Done.
    pub drawn: Option<Op>,
}

impl Progress {
    // No step was executed.
    pub(crate) fn without_step(next: Next) -> Progress
        ensures { result ≡ record { next = next; drawn = None } }
    {
        Progress { next, drawn: None }
    }

    /// What the run goes on with, where no view follows the images.
    pub fn into_next(self) -> Next
        ensures { result ≡ self.next }
    {
        self.next
    }
}

/// A flush that was not ordered, and why. Its note comes back.
#[derive(Drop)]
pub struct OrderRefused<N> {
    /// Why it was not ordered.
    pub why: OrderFault,
    /// The note that was given.
    pub note: N,
}
