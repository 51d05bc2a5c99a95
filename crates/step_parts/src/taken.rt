use gpu_cmd::Command;
use gpu_plan::Plans;

/// A command as it was fetched for its stream.
#[derive(Clone, Copy)]
pub struct Taken<'a> {
    /// The plans of the script.
    pub plans: &'a Plans,
    /// The number of its stream.
    pub stream: u32,
    /// The command.
    pub command: &'a Command,
    /// The words that were fetched for it.
    pub words: &'a [(u32, u32)],
}
