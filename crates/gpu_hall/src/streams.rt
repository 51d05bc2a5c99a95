//! The ends of streams.
ghost use Rattle.std.specs.Prelude.{◌≡◌, ◌↔◌, [], ◌∷◌, length, true, false};
ghost use Rattle.gpu_plan.specs.Plans.{plan_of, is_closed};
ghost use Rattle.sync_core.specs.Standing.{IsKnown, is_open};
ghost use Rattle.gpu_word.specs.Results.{Settles};
ghost use Rattle.gpu_journal.specs.Written.{written};
ghost use Rattle.gpu_journal.specs.declared.event.Event.TheVariants.{Lost, Close};
ghost use Rattle.gpu_journal.specs.declared.event.Why.TheVariants as why;
ghost use Rattle.gpu_journal.specs.Waits.{standing_of};
ghost use Rattle.gpu_journal.specs.Legal.{MayClose};
ghost use Rattle.gpu_house.specs.Names.{table_at};
ghost use Rattle.gpu_hall.specs.Words.{AreWordsAt};

use crate::hall::Hall;
use gpu_house::{Closing, Naming};
use gpu_word::Memory;
use result_words::{ResultReader, ResultWords};
use shm_words::SharedWords;
use wait_hooks::Hook;

impl<N: Naming, H: Hook> Hall<N, H> {
    /// Loses a stream as out of memory, where it is neither lost nor closed. It takes the refusal, and no memory.
    pub fn lose_client(&mut self, stream: u32, refusal: Memory)
        requires known { IsKnown (length N.plans.plans) stream }
        ensures event { is_open (standing_of N.plans self.old.past stream) ≡ true
            → self.new.past ≡ Lost stream why.Memory [] ∷ self.old.past }
        ensures over { is_open (standing_of N.plans self.old.past stream) ≡ false
            → self.new.past ≡ self.old.past }
        ensures outs { self.new.outs ≡ self.old.outs }
        ensures view { self.new.view ≡ self.old.view }
    {
        self.house.lose_client(stream, refusal);
    }

    /// Closes a stream whose plan has a Close, once its client has come to it with each flush ordered. It takes no memory.
    pub fn close(&mut self, stream: u32) -> Closing
        requires known { IsKnown (length N.plans.plans) stream }
        requires closes { is_closed (plan_of N.plans stream).actions ≡ true }
        ensures lost { (result ≡ Closing.Lost)
            ↔ ((standing_of N.plans self.old.past stream).lost ≡ true) }
        ensures early { (result ≡ Closing.Early)
            ↔ ((is_open (standing_of N.plans self.old.past stream) ≡ true)
            × (MayClose N.plans self.old.past stream → ⊥)) }
        ensures event { result ≡ Closing.Closed
            → is_open (standing_of N.plans self.old.past stream) ≡ true
            → self.new.past ≡ Close stream ∷ self.old.past }
        ensures same { (result ≡ Closing.Closed
            → is_open (standing_of N.plans self.old.past stream) ≡ true → ⊥)
            → self.new.past ≡ self.old.past }
        ensures outs { self.new.outs ≡ self.old.outs }
        ensures view { self.new.view ≡ self.old.view }
    {
        self.house.close(stream)
    }

    /// Takes the reader of a stream's results back, and shows that each value it was given is one that was written by then. The
    /// journal stays.
    pub fn settle(&mut self, stream: u32, words: &(SharedWords, ResultWords), reader: ResultReader)
        requires known { IsKnown (length N.plans.plans) stream }
        requires words { AreWordsAt N.words N.result_words stream words.now }
        requires reader { reader.table ≡ table_at N.result_words stream }
        ensures settled { Settles (written N.plans self.old.past stream) reader.reads }
        ensures same { self.new ≡ self.old }
    {
        self.house.shows_laws();
        self.house.settle(stream, words, reader);
    }
}
