use crate::event::Why;

/// How a stream ended.
#[derive(Clone, Copy)]
pub enum End {
    /// All its flushes are finished.
    Done,
    /// It was lost.
    Lost(Why),
    /// Its client closed it.
    Closed,
}
