ghost use Rattle.std.specs.Prelude.{◌≡◌};
ghost use Rattle.std.specs.Iterator.{YieldsFirst, item_count};

use crate::image::Image;
use std::collections::btree_map::Keys;
use std::marker::Model;

/// The numbers of the images that are left to be walked, in rising order.
#[derive(Drop)]
pub struct Numbers<'a> {
    keys: Keys<'a, u32, Image>,
}

impl<'a> Model for Numbers<'a> {
    ghost use Rattle.std.specs.Prelude.{ℕ, List};

    ghost Value = { List ℕ };

    ghost view = { λ walk. walk.keys };
}

impl<'a> Numbers<'a> {
    // The walk over these keys.
    pub(crate) fn over(keys: Keys<'a, u32, Image>) -> Numbers<'a>
        ensures { result ≡ keys.entry }
    {
        Numbers { keys }
    }
}

impl<'a> Iterator for Numbers<'a> {
    type Item = u32;

    ghost next_gives = { YieldsFirst (λ s. s) };

    ghost remaining = { item_count (λ s. s) };

    fn next(&mut self) -> Option<u32> {
        self.keys.next().copied()
    }
}
