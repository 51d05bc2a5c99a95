/// What the scheduler knows of one stream.
#[derive(Clone, Copy)]
pub struct Seat {
    /// 0 is the highest priority.
    pub priority: u32,
    /// Whether no run of the stream is out.
    pub home: bool,
}

/// A stream that can run.
#[derive(Clone, Copy)]
pub struct Runner {
    /// The stream.
    pub stream: u32,
    /// Its priority.
    pub priority: u32,
    /// Its first unprocessed order number.
    pub front: u32,
}
