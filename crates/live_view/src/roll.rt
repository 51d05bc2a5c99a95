// The writer's end of the list of versions.
ghost use Rattle.std.specs.Prelude.{◌≡◌, [], ◌∷◌, ◌++◌, MatchBool};
ghost use Rattle.live_view.specs.Versions.{blank, IsLatest};
ghost use Rattle.live_view.specs.Fronts.{version_count};
ghost use Rattle.live_view.specs.Nexts.{version_of_next};

use crate::front::{Add, Front, Rising};
use crate::next::Next;
use crate::version::Version;
use logbook::{Plain, Seen, Start, Word};
use std::marker::Model;

/// The list of versions, to which one writer adds.
///
/// Seen as its view, and all its versions.
#[derive(Drop)]
pub struct Roll {
    front: Front,
    count: Word<Version, u64, Rising>,
}

impl Model for Roll {
    ghost use Rattle.std.specs.Prelude.{◌≡◌};
    ghost use Rattle.live_view.specs.Fronts.{FrontData, version_count};

    ghost Value = { FrontData };

    ghost view = { λ roll. roll.front };

    ghost invariant = { λ roll. roll.count ≡ version_count roll.front.view };
}

impl<'a> Plain<Next<'a>, Version, u64> for Add {
    ghost use Rattle.std.specs.Prelude.{None};
    ghost use Rattle.live_view.specs.Nexts.{version_of_next};

    ghost ask = { version_of_next };

    ghost state = { λ next. None };
}

impl Roll {
    /// A list whose one version has no image and no event.
    pub fn open() -> Roll
        ensures { result.versions ≡ blank ∷ [] }
    {
        let (seen, mut pen, _second) = Seen::open(Start::alone(), 1, 0);
        let count = Word::tracked(1, &mut pen);
        Roll {
            front: Front::first(seen),
            count,
        }
    }

    /// All versions of the list.
    pub fn front(&self) -> &Front
        ensures { result.now ≡ self.now }
    {
        &self.front
    }

    /// Adds a version, and says whether it did.
    ///
    /// It does not where there are 2^64 - 1 versions, or where another has added one. Nobody but the one writer can reach
    /// the word that counts them, but the rule of the list does not say so.
    pub fn add(&mut self, next: &Next<'_>) -> bool
        requires { IsLatest self.old.versions (version_of_next next.now).events }
        ensures view { self.new.view ≡ self.old.view }
        ensures added { MatchBool result
            (self.new.versions ≡ self.old.versions ++ version_of_next next.now ∷ [])
            (self.new.versions ≡ self.old.versions) }
    {
        match self.front.with(&self.count, next) {
            Some(front) => {
                self.front = front;
                true
            }
            None => false,
        }
    }
}
