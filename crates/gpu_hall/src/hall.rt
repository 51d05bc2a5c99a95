ghost use Rattle.std.specs.Prelude.{◌≡◌, [], length, option_map, replicate, IfSome};
ghost use Rattle.sync_core.specs.Standing.{IsKnown};
ghost use Rattle.gpu_journal.specs.World.{known};
ghost use Rattle.gpu_plan.specs.Passes.{greatest};
ghost use Rattle.gpu_journal.specs.Legal.{IsLegal};
ghost use Rattle.house_core.specs.Desks.{at_home};
ghost use Rattle.gpu_house.specs.Ending.{doing_of};
ghost use Rattle.gpu_house.specs.Waiting.{AreWaitsOf, HaveTargets, FormNoCycle};
ghost use Rattle.gpu_house.specs.Stuck.{IsNotStuck};
ghost use Rattle.gpu_hall.specs.Takers.{AreFreshTakers};
ghost use Rattle.gpu_hall.specs.Outs.{NoneIsPaused, IsDoneOrGoesOn};
ghost use Rattle.gpu_hall.specs.Views.{IsFreshView, view_front};

use crate::full_pass::FullPass;
use flush_queue::Taker;
use gpu_house::{Doing, House, Naming, WaitsKept};
use live_view::ViewWriter;
use serial_laws::plans_are_lawful;
use std::marker::Model;
use wait_hooks::Hook;

/// What the lock of a run on threads keeps: a house, the takers of the queues by which the flushes of its streams come, and the writer
/// of the view, where there is one.
///
/// It is not `Drop`, as no writer is: give it up by `end` or `show`.
///
/// Seen as the journal of the house, the runs that are out, and where there is a view, which one it is and its versions.
pub struct Hall<N: Naming, H: Hook> {
    pub(crate) house: House<N, FullPass, H>,
    pub(crate) takers: Vec<Taker>,
    pub(crate) view: Option<ViewWriter>,
}

impl<N: Naming, H: Hook> Model for Hall<N, H> {
    ghost use Rattle.gpu_hall.specs.Halls.{HallData, hall_seen, IsHall};

    ghost Value = { HallData };

    ghost view = { λ h. hall_seen h.house.core h.view };

    ghost invariant = { λ h. IsHall N.plans N.words N.queues N.view h.house.core
        h.takers.items h.view };
}

impl<N: Naming, H: Hook> Hall<N, H> {
    /// A hall without events, with a taker for each plan, in order, that has taken nothing, and a view that shows nothing, or none.
    pub fn make(
        house: House<N, FullPass, H>,
        takers: Vec<Taker>,
        view: Option<ViewWriter>,
    ) -> Hall<N, H>
        requires empty { house.core.past ≡ [] }
        requires home { house.core.outs ≡ replicate (length N.plans.plans) at_home }
        requires takers { AreFreshTakers N.plans.plans N.words N.queues takers.items }
        requires view { IfSome view (IsFreshView N.view) }
        ensures past { result.past ≡ [] }
        ensures outs { result.outs ≡ house.core.outs }
        ensures view { result.view ≡ option_map view_front view }
    {
        Hall {
            house,
            takers,
            view,
        }
    }

    /// How many streams there are.
    pub fn count(&self) -> u32
        ensures { result ≡ length N.plans.plans }
    {
        self.house.plans().count()
    }

    /// What a stream is doing.
    pub fn state(&self, stream: u32) -> Doing
        requires { IsKnown (length N.plans.plans) stream }
        ensures { result ≡ doing_of N.plans self.now.past stream }
    {
        self.house.state(stream)
    }

    /// How many flushes of a stream are finished.
    pub fn finishes(&self, stream: u32) -> u32
        requires { IsKnown (length N.plans.plans) stream }
        ensures { result ≡ (known N.plans self.now.past stream).finished }
    {
        self.house.finishes(stream)
    }

    /// The greatest token that a stream has set, or 0.
    pub fn greatest(&self, stream: u32) -> u32
        requires { IsKnown (length N.plans.plans) stream }
        ensures { result ≡ greatest (known N.plans self.now.past stream).tokens }
    {
        self.house.greatest(stream)
    }

    /// What the service really keeps of waits: how many are pending, and of a stream its first unprocessed number and whether a
    /// wait of that is pending. It is what the journal says.
    pub fn waits(&self, stream: u32) -> WaitsKept
        ensures { AreWaitsOf N.plans self.now.past stream result }
    {
        self.house.waits(stream)
    }

    /// What holds whenever the lock is free. It changes nothing.
    ///
    /// - `legal`: the journal is legal
    /// - `targets`: each pending wait names another stream, which is neither lost nor closed and has a lower unprocessed number
    /// - `no_cycle`: no waits form a cycle
    /// - `stuck`: where a number is unprocessed, the stream with the least one can run, and is at home or has its run out
    /// - `going`: no run that is out is paused
    /// - `further`: so all is done, or a client can come to its next flush or to its Close, or the stream with the least number runs
    ///   on: it can run and is at home, or its run is out and not paused
    pub fn shows_laws(&self)
        ensures legal { IsLegal N.plans self.now.past }
        ensures targets { HaveTargets N.plans self.now.past }
        ensures no_cycle { FormNoCycle N.plans self.now.past }
        ensures stuck { IsNotStuck N.plans self.now.past self.now.outs }
        ensures going { NoneIsPaused self.now.outs }
        ensures further { IsDoneOrGoesOn N.plans self.now.past self.now.outs }
    {
        plans_are_lawful(self.house.plans());
        self.house.shows_legal();
        self.house.shows_laws();
    }
}
