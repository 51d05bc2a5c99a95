ghost use Rattle.std.specs.Prelude.{◌≡◌, ◌∷◌, ◌++◌, ◌-◌, ◌^◌, ◌&&◌, nat_lt, nat_le, min, [], length, Some, IsTrue};
ghost use Rattle.std.specs.List.{All};
ghost use mathlib.Core.List.{IsPrefix};
ghost use Rattle.left_right.specs.Sides.{view};
ghost use Rattle.live_view.specs.Looks.{sight, IsOf, AreLooks, latest_of};
ghost use Rattle.live_view.specs.Seen.{front_in, viewer_of};

use crate::entering::{look_once, meet};
use crate::front::Front;
use crate::look::Look;
use crate::rule::Seat;
use core::mem::replace_with;
use std::marker::Model;
use std::sync::Wait;

/// The list of the versions that were published, as the writer told it.
///
/// Seen as its view and its versions.
#[derive(Drop)]
pub struct Told {
    front: Front,
}

impl Model for Told {
    ghost use Rattle.live_view.specs.Fronts.{FrontData};

    ghost Value = { FrontData };

    ghost view = { λ told. told.front };
}

impl Told {
    // What this front says.
    pub(crate) fn of(front: Front) -> Told
        ensures { result ≡ front }
    {
        Told { front }
    }
}

/// Looks at the version that was published last, from any thread, and never sees an earlier one than before.
///
/// Seen as its view, the versions that it knows of, and its looks in order.
#[derive(Drop)]
pub struct Viewer {
    seat: Seat,
    // The number of the latest version that a look saw, counted from 1, or 0.
    latest: u64,
    looks: u32,
}

impl Model for Viewer {
    ghost use Rattle.live_view.specs.Seen.{ViewerData, viewer_of, IsViewer};

    ghost Value = { ViewerData };

    ghost view = { λ viewer. viewer_of viewer.seat.place.me.0.client };

    ghost invariant = { λ viewer. IsViewer viewer.seat.place.me.0.client viewer.latest
        viewer.looks };
}

// Whether looks up to the latest are all at versions that were reported, by their numbers.
fn are_told(latest: u64, told: u64) -> bool
    ensures { result ≡ (nat_lt told (2 ^ 64 - 1) && nat_le latest told) }
{
    told < u64::MAX && latest <= told
}

impl Viewer {
    // The viewer that reads from this seat, and has not looked.
    pub(crate) fn of(seat: Seat) -> Viewer
        requires met { (view seat.place).front ≡ Some (front_in (view seat.place)) }
        requires new { (view seat.place).looks ≡ [] }
        ensures { result ≡ viewer_of (view seat.place) }
    {
        Viewer {
            seat,
            latest: 0,
            looks: 0,
        }
    }

    /// Looks at the version that is published: its number of events, and the sum of all its texels modulo 2^32.
    ///
    /// It takes no memory. It waits until it is let in, and as long as the writer lasts that is at once.
    pub fn look<R: Wait>(&mut self, rt: &R) -> Look
        ensures view { self.new.view ≡ self.old.view }
        ensures longer { IsPrefix self.old.versions self.new.versions }
        ensures newest { IsOf self.new.versions (sight (length self.new.versions - 1) result) }
        ensures looks { self.new.looks
            ≡ self.old.looks ++ sight (length self.new.versions - 1) result ∷ [] }
        ensures kept { AreLooks self.new.versions self.new.looks }
    {
        let (look, number) = replace_with(&mut self.seat, rt, look_once::<R>);
        self.latest = number;
        self.looks = self.looks.saturating_add(1);
        look
    }

    /// How many looks there were, or 2^32 - 1 where there were more.
    pub fn looks(&self) -> u32
        ensures number { result ≡ min (length self.now.looks) (2 ^ 32 - 1) }
        ensures kept { AreLooks self.now.versions self.now.looks }
    {
        self.looks
    }

    /// Shows that each look was at a version, and none at one before that of the look before. It changes nothing.
    pub fn shows_looks(&self)
        ensures { AreLooks self.now.versions self.now.looks }
    {
        let _ = &self.seat;
    }

    /// Takes in what the writer told, so that each later look is at the last version told or at a later one.
    ///
    /// It answers whether every look before was at a version that was reported. It enters once, which is no look, and
    /// waits as `look` does.
    pub fn learn<R: Wait>(&mut self, rt: &R, told: Told) -> bool
        requires { told.view ≡ self.old.view }
        ensures view { self.new.view ≡ self.old.view }
        ensures longer { IsPrefix self.old.versions self.new.versions }
        ensures told { IsPrefix told.versions self.new.versions }
        ensures looks { self.new.looks ≡ self.old.looks }
        ensures answer { result ≡
            (nat_lt (length told.versions) (2 ^ 64 - 1) && nat_le (latest_of self.old.looks)
            (length told.versions)) }
        ensures each { IsTrue result → All (IsOf told.versions) self.old.looks }
    {
        let number = told.front.number();
        replace_with(&mut self.seat, (rt, &told.front), meet::<R>);
        are_told(self.latest, number)
    }
}
