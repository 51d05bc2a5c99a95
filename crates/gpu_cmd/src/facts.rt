ghost use Rattle.std.specs.Prelude.{◌≡◌, ◌↔◌, IsTrue};
ghost use Rattle.gpu_cmd.specs.Lawful.{IsLawfulFacts, room};

use crate::areas::Areas;

/// How many words a stream may fetch for the commands that it executes.
pub const MOST_FETCHED: u64 = 1_048_576;

/// What checks 1 to 10 read of a stream beside the words.
#[derive(Clone, Copy)]
pub struct StreamFacts {
    /// The stream's areas.
    pub areas: Areas,
    /// The ring place of the next command's header.
    pub get: u32,
    /// The ring place at which the flush ends.
    pub put: u32,
    /// How many words were fetched for the stream's executed commands.
    pub fetched: u32,
}

impl StreamFacts {
    // The entries from `get` to the end of its segment. No command crosses the ring's end.
    pub(crate) fn room(&self) -> u32
        requires { IsLawfulFacts self.now }
        ensures { result ≡ room self.now }
    {
        if self.get < self.put {
            self.put - self.get
        } else {
            self.areas.ring - self.get
        }
    }

    /// Whether a stream of a script may have these facts, whatever its put.
    pub fn is_lawful(&self) -> bool
        ensures { IsTrue result ↔ IsLawfulFacts self.now }
    {
        self.areas.is_lawful()
            && self.get < self.areas.ring
            && u64::from(self.fetched) <= MOST_FETCHED
    }
}
