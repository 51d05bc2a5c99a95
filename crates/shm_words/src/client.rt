ghost use Rattle.std.specs.Prelude.{◌≡◌, ℕ, ◌+◌, nat_le, Some, if◌then◌else◌};
ghost use Rattle.gpu_plan.specs.declared.plan.Action.TheVariants.{Put, Token};
ghost use Rattle.shm_words.specs.declared.client.Acted.TheVariants.{AtFlush, Passed, NotYet};
ghost use Rattle.shm_words.specs.Seen.{ClientKeeps, client_at, next_action, flushes_before};
ghost use Rattle.shm_words.specs.Acts.{Acts, IsAtAwait, IsAtFlush, awaits_token, with_load};
ghost use Rattle.shm_words.specs.Views.{client_of, fresh_client};

use crate::note::Note;
use crate::plays::{Blanks, LoadsFinish, LoadsToken, Notes, StoresData, StoresMark};
use crate::view::View;
use crate::words::SharedWords;
use atomic_table::Seat;
use gpu_plan::{Action, Plan};
use std::marker::Model;

/// How the next action of a client went.
#[derive(Clone, Copy)]
pub enum Acted {
    /// It was a put, and its value is stored.
    Stored,
    /// It was an await, and a word that was loaded satisfies it.
    Passed,
    /// It is an await, and no word that was loaded satisfies it.
    NotYet,
    /// It is a flush.
    AtFlush,
    /// It is the close of the stream, which is never passed.
    AtClose,
    /// No action is left.
    End,
}

impl Acted {
    // How an await went.
    fn awaited(passes: bool) -> Acted
        ensures { result ≡ (if passes then Passed else NotYet) }
    {
        if passes { Acted::Passed } else { Acted::NotYet }
    }
}

/// What the client does with the words of its stream. No call of it waits or takes memory.
///
/// Seen as the words that it belongs to, the plan, the number of actions done, and the list of words loaded with their
/// values.
#[derive(Drop)]
pub struct ClientPass {
    plan: Plan,
    done: usize,
    flushes: u64,
    seat: Seat<(), View>,
}

impl Model for ClientPass {
    ghost use Rattle.shm_words.specs.Seen.{ClientData, ClientKeeps};
    ghost use Rattle.shm_words.specs.Views.{client_of};

    ghost Value = { ClientData };

    ghost view = { λ c. record {
      table = c.seat.table_id;
      plan = c.plan;
      done = c.done;
      loads = (client_of c.seat.me.0).loads;
    } };

    ghost invariant = { λ c. ClientKeeps c.plan c.done c.flushes c.seat.table_id c.seat.me };
}

impl ClientPass {
    // A pass that has done nothing.
    pub(crate) fn of(plan: Plan, seat: Seat<(), View>) -> ClientPass
        requires keeps { ClientKeeps plan 0 0 seat.table_id seat.me }
        requires fresh { client_of seat.me.0 ≡ fresh_client plan }
        ensures { result ≡ client_at seat.table_id plan }
    {
        ClientPass {
            plan,
            done: 0,
            flushes: 0,
            seat,
        }
    }

    // Stores the value of a put.
    fn put(&mut self, words: &SharedWords, place: u32, value: u32)
        requires table { words.now ≡ self.old.table }
        requires next { next_action self.old ≡ Some (Put place value) }
        ensures { self.new ≡ record self.old { done = self.old.done + 1 } }
    {
        let shared = &words.table.shared;
        shared.store::<StoresData>(&mut self.seat, 3 + place as usize, u64::from(value));
        self.done += 1;
    }

    // Loads the finish word, and says whether it satisfies the await.
    fn load_finish(&mut self, words: &SharedWords) -> bool
        requires table { words.now ≡ self.old.table }
        requires next { IsAtAwait self.old }
        ensures { (finished : ℕ) × (result ≡ nat_le (flushes_before self.old) finished)
            × (self.new ≡ with_load result 1 finished self.old) }
    {
        let shared = &words.table.shared;
        let finished = shared.load::<LoadsFinish>(&mut self.seat, 1);
        let passes = self.flushes <= finished;
        if passes {
            self.done += 1;
        }
        passes
    }

    // Loads the token word, and says whether it satisfies the await.
    fn load_token(&mut self, words: &SharedWords, token: u32) -> bool
        requires table { words.now ≡ self.old.table }
        requires next { next_action self.old ≡ Some (Token token) }
        ensures { (greatest : ℕ) × (result ≡ nat_le token greatest)
            × (self.new ≡ with_load result 2 greatest self.old) }
    {
        let shared = &words.table.shared;
        let greatest = shared.load::<LoadsToken>(&mut self.seat, 2);
        let passes = u64::from(token) <= greatest;
        if passes {
            self.done += 1;
        }
        passes
    }

    // Loads the token word, and where it does not satisfy the await, the finish word.
    fn await_token(&mut self, words: &SharedWords, token: u32) -> Acted
        requires table { words.now ≡ self.old.table }
        requires next { next_action self.old ≡ Some (Token token) }
        ensures { Acts self.old self.new result }
    {
        if self.load_token(words, token) {
            return Acted::Passed;
        }
        Acted::awaited(self.load_finish(words))
    }

    // Loads the finish word.
    fn await_finish(&mut self, words: &SharedWords) -> Acted
        requires table { words.now ≡ self.old.table }
        requires next { next_action self.old ≡ Some Action.Finish }
        ensures { Acts self.old self.new result }
    {
        Acted::awaited(self.load_finish(words))
    }

    /// Whether the next action awaits a token, and not a finish alone.
    pub fn awaits_token(&self) -> bool
        ensures { result ≡ awaits_token (next_action self.now) }
    {
        matches!(
            self.plan.actions().get(self.done),
            Some(Action::Token { .. })
        )
    }

    /// Does the next action where it is a put or an await that passes, by one store or by its loads.
    pub fn act(&mut self, words: &SharedWords) -> Acted
        requires table { words.now ≡ self.old.table }

        ensures acted { Acts self.old self.new result }
        ensures table { self.new.table ≡ self.old.table }
        ensures plan { self.new.plan ≡ self.old.plan }
        ensures flush { result ≡ AtFlush → IsAtFlush self.new }
    {
        match self.plan.actions().get(self.done) {
            None => Acted::End,
            Some(Action::Put { place, value }) => {
                let (place, value) = (place.get(), *value);
                self.put(words, place, value);
                Acted::Stored
            }
            Some(Action::Flush { .. }) => Acted::AtFlush,
            Some(Action::Finish) => self.await_finish(words),
            Some(Action::Token { token }) => {
                let token = *token;
                self.await_token(words, token)
            }
            Some(Action::Close) => Acted::AtClose,
        }
    }

    /// Stores the mark of the next action, a flush, and gives a note of it.
    pub fn flush(&mut self, words: &SharedWords) -> Note
        requires table { words.now ≡ self.old.table }
        requires next { IsAtFlush self.old }

        ensures done { self.new ≡ record self.old { done = self.old.done + 1 } }
        ensures note { result ≡ record { table = self.old.table; mark = self.old.done + 1 } }
    {
        let shared = &words.table.shared;
        let mark = self.done as u64 + 1;
        shared.store::<StoresMark>(&mut self.seat, 0, mark);
        self.done += 1;
        self.flushes += 1;
        Note {
            seat: shared.split_seat::<Notes>(&mut self.seat),
        }
    }

    /// A note of no flush, by which others learn which words these are.
    pub fn blank(&mut self, words: &SharedWords) -> Note
        requires table { words.now ≡ self.old.table }

        ensures same { self.new ≡ self.old }
        ensures note { result ≡ record { table = self.old.table; mark = 0 } }
    {
        let shared = &words.table.shared;
        Note {
            seat: shared.split_seat::<Blanks>(&mut self.seat),
        }
    }
}
