// What the seats at a stream's words know. No value of these types is ever made.

use gpu_plan::Plan;
use std::collections::LinkedList;

/// What the client knows.
pub struct ClientView {
    pub plan: Plan,
    /// The number of actions done.
    pub done: u64,
    /// The mark of the latest flush: its place among the actions and one more, or 0 for none.
    pub mark: u64,
    /// The words loaded, each with its value.
    pub loads: LinkedList<(u64, u64)>,
}

/// What the service knows.
pub struct ServiceView {
    pub plan: Plan,
    /// The greatest mark of a note that was met, or 0.
    pub met: u64,
    /// The flushes published as finished.
    pub finished: u64,
    /// The greatest token published, or 0.
    pub greatest: u64,
    /// The places fetched, each with its value.
    pub fetched: LinkedList<(u64, u64)>,
}

/// What a seat knows.
pub enum View {
    /// The one seat of new words, before it is cut in two.
    Whole(Plan),
    Client(ClientView),
    Service(ServiceView),
    /// The mark of a flush, or 0 for no flush.
    Note(u64),
    /// A note that was met.
    Spent,
}
