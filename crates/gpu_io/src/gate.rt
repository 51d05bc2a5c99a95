/// A place that a run with threads reaches, where a gate may hold it back.
///
/// Streams, flushes, orders, viewers and looks are counted from 1.
#[derive(Clone, Copy)]
pub enum Place {
    /// A worker is about to fetch a batch of this stream.
    BeforeFetch { stream: u32 },
    /// A worker has fetched a batch of this stream.
    AfterFetch { stream: u32 },
    /// The client of this stream is about to order its flush of this number.
    BeforeFlush { stream: u32, flush: u32 },
    /// This order of this stream was finished, and the view was published. The thread that tells so may have its next run in hand, which
    /// no other thread can take then.
    AfterFinish { stream: u32, order: u32 },
    /// This viewer is about to take its look of this number.
    BeforeLook { viewer: u32, look: u32 },
}

/// What a run with threads is led through: it hears of each place, with no lock held.
///
/// A gate decides when a thread goes on, and changes nothing of what the run does.
pub trait Gate {
    /// Comes back when the thread that stands at this place may go on.
    fn reach(&self, place: Place);
}

/// A gate that lets every thread pass at once.
#[derive(Clone, Copy)]
pub struct OpenGate;

impl Gate for OpenGate {
    fn reach(&self, _place: Place) {}
}
