ghost use Rattle.std.specs.Prelude.{◌≡◌};
ghost use Rattle.gpu_cmd.specs.Errors.{code_of};

/// Why a command is refused. Its stream is lost then.
#[derive(Clone, Copy)]
pub enum CmdError {
    /// The command takes no entry.
    InvalidSize,
    /// The command, the flush's put or a memory range ends past its end.
    OutOfBounds,
    /// No command has this id.
    UnknownCommand,
    /// The size does not fit the id, or an argument is one that the command never takes.
    InvalidArguments,
    /// The stream would fetch more words than a stream may.
    Quota,
}

impl CmdError {
    /// The number of this error in a journal. The numbers are this project's own, and 5 is none.
    pub fn code(self) -> u32
        ensures { result ≡ code_of self }
    {
        match self {
            CmdError::InvalidSize => 1,
            CmdError::OutOfBounds => 2,
            CmdError::UnknownCommand => 3,
            CmdError::InvalidArguments => 4,
            CmdError::Quota => 6,
        }
    }
}
