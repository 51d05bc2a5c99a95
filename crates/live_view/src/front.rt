// The list of versions: it lies in proofs alone, and only its length in memory.
ghost use Rattle.std.specs.Prelude.{◌≡◌, ◌≤◌, ◌++◌, ◌∷◌, [], length, IfSome};
ghost use mathlib.Core.List.{IsPrefix};
ghost use Rattle.live_view.specs.Versions.{blank, AreRising, IsLatest};
ghost use Rattle.live_view.specs.Fronts.{version_count};
ghost use Rattle.live_view.specs.Nexts.{version_of_next};

use crate::next::Next;
use crate::version::Version;
use logbook::{Gain, Offer, Play, Rule, Seen, Word};
use std::marker::Model;

/// The rule of the list.
pub struct Rising;

impl Rule<Version, u64> for Rising {
    ghost use Rattle.std.specs.Prelude.{[], ◌∷◌};
    ghost use base.Fml.{ftrue};
    ghost use Rattle.live_view.specs.Versions.{blank};
    ghost use Rattle.live_view.specs.Fronts.{CountsVersions};

    ghost holds = { λ cells versions. CountsVersions cells versions };

    ghost first = { blank ∷ [] };

    ghost hinted = { λ n versions. Unit {0} };

    ghost shows = { λ versions. [] };

    ghost keeps = { λ names versions. ftrue };

    ghost moves = { λ ask before after answer. Unit {0} };
}

/// Nobody gains anything beside the list.
pub struct Nothing;

impl Gain<Version, u64> for Nothing {
    ghost use base.Fml.{ftrue};

    ghost after = { λ names about answer. ftrue };
}

/// A version is added.
pub struct Add;

impl Play<Version, u64> for Add {
    ghost use Rattle.live_view.specs.Fronts.{AddsVersion};

    ghost then = { AddsVersion };
}

/// A beginning of the list of versions that was seen. It can be copied, and stays true.
///
/// Seen as the view whose list it begins, and its versions.
#[derive(Drop)]
pub struct Front {
    number: u64,
    seen: Seen<Version, u64, Rising>,
}

impl Model for Front {
    ghost use Rattle.std.specs.Prelude.{◌≡◌, length};
    ghost use Rattle.live_view.specs.Versions.{AreRising};
    ghost use Rattle.live_view.specs.Fronts.{FrontData};

    ghost Value = { FrontData };

    ghost view = { λ front. record { view = front.seen.book; versions = front.seen.log } };

    ghost invariant = { λ front. (front.number ≡ length front.seen.log)
        × AreRising front.seen.log };
}

impl Front {
    /// The front of a new list, which has one version.
    pub fn first(seen: Seen<Version, u64, Rising>) -> Front
        requires { seen.log ≡ blank ∷ [] }
        ensures { result ≡ record { view = seen.book; versions = blank ∷ [] } }
    {
        Front { number: 1, seen }
    }

    /// The list with one version more, or `None` where it did not end as seen here, or has 2^64 - 1 versions.
    pub fn with(&self, count: &Word<Version, u64, Rising>, next: &Next<'_>) -> Option<Front>
        requires count { count.now ≡ version_count self.now.view }
        requires rising { IsLatest self.now.versions (version_of_next next.now).events }
        ensures { IfSome result (λ front. front
            ≡ record {
              view = self.now.view;
              versions = self.now.versions ++ version_of_next next.now ∷ [];
            }) }
    {
        if self.number == u64::MAX {
            return None;
        }
        let mut seen = self.seen.again();
        let mut offer: Offer<Version, u64, Rising, Nothing> = seen.plain::<Nothing, Next<'_>, Add>(
            next,
        );
        let mut pen = seen.no_pen();
        let number = self.number + 1;
        let found = count.compare_exchange::<Add, Nothing>(
            self.number,
            number,
            &mut seen,
            &mut offer,
            &mut pen,
        );
        if found != self.number {
            return None;
        }
        Some(Front { number, seen })
    }

    /// How many versions there are.
    pub fn number(&self) -> u64
        ensures number { result ≡ length self.now.versions }
        ensures rising { AreRising self.now.versions }
    {
        self.number
    }

    /// A copy.
    pub fn again(&self) -> Front
        ensures { result ≡ self.now }
    {
        Front {
            number: self.number,
            seen: self.seen.again(),
        }
    }

    /// Shows that of two fronts of one view the shorter begins the longer.
    pub fn shows_prefix(&self, other: &Front)
        requires { other.now.view ≡ self.now.view }
        ensures { length self.now.versions ≤ length other.now.versions
            → IsPrefix self.now.versions other.now.versions }
    {
        let mut both = self.seen.again();
        both.learn(&other.seen);
    }
}
