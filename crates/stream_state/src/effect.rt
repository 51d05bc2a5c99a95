use crate::writes::Writes;
use gpu_cmd::Name;
use gpu_store::Op;

/// What a step asks of the rest of the service.
#[derive(Drop)]
pub enum Effect {
    /// Nothing.
    Nothing,
    /// The client hears of this token.
    Token(u32),
    /// The stream's release count is raised to this release, if it is below.
    Release(u64),
    /// The stream waits for a release of the stream of this number.
    Wait {
        /// The number of the other stream.
        stream: u32,
        /// The release that it waits for.
        release: u64,
    },
    /// The stream waits for a release of the stream of this name.
    WaitName {
        /// The name of the other stream.
        name: Name,
        /// The release that it waits for.
        release: u64,
    },
    /// An operation on the images. An upload has as many texels as its rectangle.
    Pixels(Op),
    /// Words that are written to result places.
    Results(Writes),
}
