/// What a stream does that takes no memory, and may end waits.
#[derive(Clone, Copy)]
pub enum Change {
    /// Its release count is raised to this one, where that is greater.
    Released(u64),
    /// Its first number is finished.
    Finished,
    /// It is lost.
    Lost,
    /// It is closed.
    Closed,
}
