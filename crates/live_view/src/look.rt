/// How often a viewer looks while a run goes on.
pub const LOOKS: u32 = 16;

/// How often it looks in all: once more when the run is over.
pub const ALL_LOOKS: usize = 17;

/// What a viewer saw of one version.
#[derive(Clone, Copy)]
pub struct Look {
    /// How many events the version stands for.
    pub events: u32,
    /// The sum of all its texels, modulo 2^32.
    pub sum: u32,
}

/// A look, and the place of its version in the list, counted from 0. No value of it is ever made.
pub struct Sight {
    pub place: u64,
    pub look: Look,
}
