//! Commands whose words stand in one list, one after the other.
use gpu_cmd::{CmdError, Command, StreamFacts};
use std::snapshot::Snapshot;

/// What was fetched of a command whose words stand in a list after those of others: how many they are, the verdict on
/// them, and the facts of the stream that it rests on.
#[derive(Drop)]
pub struct FetchedPart {
    /// How many words the command has.
    pub count: usize,
    /// The verdict of checks 1 to 10.
    pub verdict: Result<Command, CmdError>,
    /// The facts that the verdict rests on, for contracts alone.
    pub facts: Snapshot<StreamFacts>,
}
