ghost use Rattle.std.specs.Prelude.{◌≡◌, ◌<◌, ◌^◌};

use std::marker::Model;

/// The place of a put among the words of its stream, in three bytes, so that a put takes eight with its value.
#[derive(Drop)]
pub struct Place {
    low: u8,
    middle: u8,
    high: u8,
}

impl Model for Place {
    ghost use Rattle.std.specs.Prelude.{ℕ, ◌+◌, ◌*◌};

    ghost Value = { ℕ };

    ghost view = { λ p. p.low + 256 * p.middle + 65536 * p.high };
}

impl Place {
    pub(crate) fn of(place: u32) -> Place
        requires { place < 2 ^ 24 }
        ensures { result ≡ place }
    {
        Place {
            low: (place % 256) as u8,
            middle: (place / 256 % 256) as u8,
            high: (place / 65536) as u8,
        }
    }

    /// The place as a number.
    pub fn get(&self) -> u32
        ensures value { result ≡ self.now }
        ensures small { result < 2 ^ 24 }
    {
        u32::from(self.low) + 256 * u32::from(self.middle) + 65536 * u32::from(self.high)
    }
}
