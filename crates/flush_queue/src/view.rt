// What the ends of a queue know. No value of this type is ever made.

use shm_words::ClientPass;

/// What an end knows.
pub enum View {
    /// The one end of a new queue.
    Fresh,
    /// It has put the pass of the client into the queue.
    Told(ClientPass),
    /// It has taken the pass out again.
    Whole(ClientPass),
    /// It posts the flushes of this client, and this number was posted.
    Poster(ClientPass, u64),
    /// It takes the flushes of this client, and this number was taken.
    Taker(ClientPass, u64),
}
