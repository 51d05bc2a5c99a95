use gpu_cmd::{CmdError, Command};

/// The verdict on words that were fetched.
#[derive(Clone, Copy)]
pub(crate) enum Outcome {
    /// They break this rule first.
    Broken(u32),
    /// They are a valid command.
    Valid(Command),
    /// They have this error.
    Refused(CmdError),
}
