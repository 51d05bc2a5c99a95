// A viewer's entries. The port does not say when it refuses one, so it is asked for again.
ghost use Rattle.std.specs.Prelude.{◌≡◌, ℕ, true, Some, length};
ghost use mathlib.Core.List.{IsPrefix};
ghost use Rattle.crossbeam_utils.specs.Register.{Turns};
ghost use Rattle.left_right.specs.Sides.{view};
ghost use Rattle.live_view.specs.declared.shown.Shown.{Shown};
ghost use Rattle.live_view.specs.declared.known.Known.{Known};
ghost use Rattle.live_view.specs.Versions.{AreRising};
ghost use Rattle.live_view.specs.Looks.{look_of};
ghost use Rattle.live_view.specs.Rule.{Holds, IsBegun, HasFound, looked, met};
ghost use Rattle.live_view.specs.Seen.{front_in};

use crate::front::Front;
use crate::known::Known;
use crate::look::Look;
use crate::rule::{Looks, Meets, Open, Seat};
use crate::shown::Shown;
use crossbeam_utils::rule::Outcome;
use gpu_store::texel_sum;
use std::sync::Wait;
use std::thread;

// Enters until an entry is had.
fn enter<M: Outcome<Shown, Known>, R: Wait>(rt: &R, seat: Seat) -> Open
    requires { (id : ℕ) (known : Known) → Turns Holds id known (λ x. x) M.then }
    ensures { M.then (view seat.place) result.part.value result.part.value (view result.place) }
{
    let mut seat = seat;
    for _ in rt.forever() {
        match seat.enter_as::<M>() {
            Ok(open) => return open,
            Err(back) => seat = back,
        }
        thread::yield_now();
    }
    unreachable!()
}

/// One look: what it saw, and the number of its version.
pub(crate) fn look_once<R: Wait>(seat: Seat, rt: &R) -> (Seat, (Look, u64))
    ensures { (shown : Shown) × HasFound (view seat.place) shown × AreRising shown.front.versions
        × (view result.0.place ≡ looked (view seat.place) shown)
        × (result.1 ≡ (look_of shown.version, length shown.front.versions)) }
{
    let open = enter::<Looks, R>(rt, seat);
    let shown = open.get();
    let look = Look {
        events: shown.version.events,
        sum: texel_sum(&shown.version.images),
    };
    let number = shown.front.number();
    (open.leave(), (look, number))
}

// One entry that is no look. It says whether the version found is no earlier than the front's.
fn meet_once<R: Wait>(rt: &R, seat: Seat, told: &Front) -> (Seat, bool)
    requires met { (view seat.place).front ≡ Some (front_in (view seat.place)) }
    requires same { told.now.view ≡ (front_in (view seat.place)).view }
    ensures { (shown : Shown) × HasFound (view seat.place) shown
        × (view result.0.place ≡ met (view seat.place) shown)
        × (result.1 ≡ true → IsPrefix told.now.versions shown.front.versions) }
{
    let open = enter::<Meets, R>(rt, seat);
    let front = &open.get().front;
    let arrived = told.number() <= front.number();
    told.shows_prefix(front);
    (open.leave(), arrived)
}

/// Enters, without a look, until the version found is no earlier than the front's: at once where that was published before.
pub(crate) fn meet<R: Wait>(seat: Seat, told: (&R, &Front)) -> (Seat, ())
    requires met { (view seat.place).front ≡ Some (front_in (view seat.place)) }
    requires same { told.1.now.view ≡ (front_in (view seat.place)).view }
    ensures known { (view result.0.place).front ≡ Some (front_in (view result.0.place)) }
    ensures looks { (view result.0.place).looks ≡ (view seat.place).looks }
    ensures before { IsBegun (front_in (view seat.place)) (front_in (view result.0.place)) }
    ensures told { IsPrefix told.entry.1.now.versions (front_in (view result.0.place)).versions }
{
    let (rt, front) = told;
    let mut seat = seat;
    for _ in rt.forever() {
        let (left, arrived) = meet_once(rt, seat, front);
        seat = left;
        if arrived {
            return (seat, ());
        }
    }
    unreachable!()
}
