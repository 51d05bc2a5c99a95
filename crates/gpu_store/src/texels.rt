ghost use Rattle.std.specs.Prelude.{◌≡◌, ℕ, List};

use std::marker::Model;

/// Texels in order: each is `r * 2^24 + g * 2^16 + b * 2^8 + a`, with channels of one byte.
#[derive(Drop)]
pub struct Texels {
    items: Vec<u32>,
}

impl Model for Texels {
    ghost Value = { List ℕ };

    ghost view = { λ texels. texels.items.items };
}

impl Texels {
    /// These texels.
    pub fn of(items: Vec<u32>) -> Texels
        ensures { result ≡ items.items }
    {
        Texels { items }
    }

    /// The texels as a slice.
    pub fn as_slice(&self) -> &[u32]
        ensures { result.now ≡ self.now }
    {
        self.items.as_slice()
    }
}
