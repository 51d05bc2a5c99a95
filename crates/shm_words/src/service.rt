ghost use Rattle.std.specs.Prelude.{◌≡◌, ◌+◌, ◌<◌, ◌≤◌, ◌^◌, max, [], ◌∷◌, ◌++◌};
ghost use Rattle.gpu_cmd.specs.Lawful.{places_of};
ghost use Rattle.gpu_plan.specs.MayHold.{MayHold};
ghost use Rattle.shm_words.specs.Seen.{ServiceKeeps, service_reach, service_at};
ghost use Rattle.shm_words.specs.Views.{service_of, fresh_service};

use crate::note::Note;
use crate::plays::{Fetches, LoadsMark, Notes, StoresFinish, StoresToken};
use crate::view::View;
use crate::words::SharedWords;
use atomic_table::Seat;
use std::marker::Model;

/// What the service does with the words of one stream. No call of it waits or takes memory.
///
/// Seen as the words that it belongs to, the plan, the list of places fetched with their values, the flushes published as
/// finished, the greatest token published, and the mark of the latest flush met.
#[derive(Drop)]
pub struct ServicePass {
    finished: u64,
    greatest: u32,
    seat: Seat<(), View>,
}

impl Model for ServicePass {
    ghost use Rattle.shm_words.specs.Seen.{ServiceData, ServiceKeeps};
    ghost use Rattle.shm_words.specs.Views.{service_of};

    ghost Value = { ServiceData };

    ghost view = { λ p. record {
      table = p.seat.table_id;
      plan = (service_of p.seat.me.0).plan;
      fetched = (service_of p.seat.me.0).fetched;
      finished = p.finished;
      greatest = p.greatest;
      met = (service_of p.seat.me.0).met;
    } };

    ghost invariant = { λ p. ServiceKeeps p.finished p.greatest p.seat.table_id p.seat.me };
}

impl ServicePass {
    // A pass that has done nothing.
    pub(crate) fn of(seat: Seat<(), View>) -> ServicePass
        requires keeps { ServiceKeeps 0 0 seat.table_id seat.me }
        requires fresh { service_of seat.me.0 ≡ fresh_service (service_of seat.me.0).plan }
        ensures { result ≡ service_at seat.table_id (service_of seat.me.0).plan }
    {
        ServicePass {
            finished: 0,
            greatest: 0,
            seat,
        }
    }

    /// Meets the flush of a note. The flush, as each one met before, lies within the client's reach.
    pub fn meet(&mut self, words: &SharedWords, note: Note)
        requires table { words.now ≡ self.old.table }
        requires note { note.table ≡ self.old.table }

        ensures met { self.new ≡ record self.old { met = max self.old.met note.mark } }
        ensures bounded { self.new.met ≤ service_reach self.new }
    {
        let shared = &words.table.shared;
        let Note { seat } = note;
        shared.join_seat::<Notes>(&mut self.seat, seat);
        shared.load::<LoadsMark>(&mut self.seat, 0);
    }

    /// Fetches the word of a place, by one load. The client may have put it since the latest flush met, and within its
    /// reach.
    pub fn fetch(&mut self, words: &SharedWords, place: u32) -> u32
        requires table { words.now ≡ self.old.table }
        requires place { place < places_of self.old.plan.areas }

        ensures grows { self.new
            ≡ record self.old { fetched = self.old.fetched ++ (place, result) ∷ [] } }
        ensures may { MayHold self.old.plan.actions self.old.met
            (service_reach self.old) place result }
    {
        let shared = &words.table.shared;
        let found = shared.load::<Fetches>(&mut self.seat, 3 + place as usize);
        found as u32
    }

    /// Stores the greater of a token and the greatest published before.
    pub fn publish_token(&mut self, words: &SharedWords, token: u32)
        requires table { words.now ≡ self.old.table }
        ensures told { self.new ≡ record self.old { greatest = max self.old.greatest token } }
    {
        let shared = &words.table.shared;
        let greatest = self.greatest.max(token);
        shared.store::<StoresToken>(&mut self.seat, 2, u64::from(greatest));
        self.greatest = greatest;
    }

    /// Stores that one more flush is finished.
    pub fn publish_finish(&mut self, words: &SharedWords)
        requires table { words.now ≡ self.old.table }
        requires room { self.old.finished + 1 < 2 ^ 64 }
        ensures finished { self.new ≡ record self.old { finished = self.old.finished + 1 } }
    {
        let shared = &words.table.shared;
        let next = self.finished + 1;
        shared.store::<StoresFinish>(&mut self.seat, 1, next);
        self.finished = next;
    }
}
