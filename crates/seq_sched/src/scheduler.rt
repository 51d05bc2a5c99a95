ghost use Rattle.std.specs.Prelude.{◌≡◌, ◌↔◌, ◌^◌, ◌<◌, List, length, true, false, IfOk, IfSome, IsNone};
ghost use Rattle.sync_core.specs.Events.{SyncEvent};
ghost use Rattle.sync_core.specs.Core.{StandsFor};
ghost use Rattle.seq_sched.specs.Seats.{seat_of, all_home, AreHome, IsAway, with_home};
ghost use Rattle.seq_sched.specs.Choice.{least_runnable, IsChoice, NoneCanRun, NothingLeft};

use crate::choice::{candidate, lesser};
use crate::seat::Seat;
use gpu_word::Memory;
use std::alloc::Global;
use std::marker::Model;
use sync_core::SyncCore;

/// Which streams are at home, and their priorities.
///
/// Streams count from 1. A stream is away while a run of it is out.
#[derive(Drop)]
pub struct Scheduler {
    seats: Vec<Seat>,
}

impl Model for Scheduler {
    ghost use Rattle.std.specs.Prelude.{List, ◌<◌, ◌^◌, vec_len};
    ghost use Rattle.seq_sched.specs.declared.seat.Seat.{Seat};

    ghost Value = { List Seat };

    ghost view = { λ s. s.seats.items };

    ghost invariant = { λ s. vec_len s.seats < 2 ^ 32 };
}

impl Scheduler {
    /// A scheduler of streams with these priorities, 0 the highest; all are at home.
    pub fn make(alloc: Global, priorities: &[u32]) -> Result<Scheduler, Memory>
        ensures { IfOk result (λ scheduler. scheduler ≡ all_home priorities.now) }
    {
        // A stream beyond has no number.
        if priorities.len() > u32::MAX as usize {
            return Err(Memory::of_too_many(alloc, priorities.len(), 0));
        }
        let mut seats = Vec::with_capacity(alloc, priorities.len())?;
        for priority in priorities {
            seats.push(Seat {
                priority: *priority,
                home: true,
            })?;
        }
        Ok(Scheduler { seats })
    }

    /// The stream at home with the least pair (priority, first number) among those that have an
    /// unprocessed number and no pending wait of the first.
    ///
    /// With all streams at home it answers `None` only where no stream has an unprocessed number,
    /// since the stream with the least number of all waits for nothing.
    pub fn pick(&self, core: &SyncCore) -> Option<u32>
        requires streams { length core.now.streams ≡ length self.now }
        ensures choice { result ≡ least_runnable self.now core.now }
        ensures least { IfSome result (λ s. IsChoice self.now core.now s) }
        ensures none { IsNone result ↔ NoneCanRun self.now core.now }
        ensures idle { (h : List SyncEvent) → StandsFor core.now h → AreHome self.now
            → (IsNone result ↔ NothingLeft core.now) }
    {
        let mut least = None;
        for (i, seat) in self.seats.iter().enumerate() {
            least = lesser(least, candidate(*seat, core, i as u32 + 1));
        }
        match least {
            Some(runner) => Some(runner.stream),
            None => None,
        }
    }

    /// Stream s leaves home.
    pub fn take(&mut self, s: u32)
        requires { (seat_of self.old s).home ≡ true }
        ensures seats { self.new ≡ with_home self.old s false }
        ensures count { length self.new ≡ length self.old }
    {
        self.seats[s as usize - 1].home = false;
    }

    /// Stream s comes back home.
    pub fn give_back(&mut self, s: u32)
        requires { IsAway self.old s }
        ensures seats { self.new ≡ with_home self.old s true }
        ensures count { length self.new ≡ length self.old }
    {
        self.seats[s as usize - 1].home = true;
    }
}
