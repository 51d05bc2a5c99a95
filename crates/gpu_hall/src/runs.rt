//! Runs leave the hall, and what they have fetched comes back.
ghost use Rattle.std.specs.Prelude.{◌≡◌, [], ◌∷◌, drop, true, false, option_map, IfSome, IfNone};
ghost use Rattle.sync_core.specs.Standing.{is_open};
ghost use Rattle.gpu_journal.specs.declared.event.Event.TheVariants.{Finish, Lost};
ghost use Rattle.gpu_journal.specs.declared.event.Why.TheVariants as why;
ghost use Rattle.gpu_journal.specs.Waits.{standing_of};
ghost use Rattle.serial_laws.specs.Choosing.{choice_at_home};
ghost use Rattle.house_core.specs.Core.{IsRunOf, is_home, with_out};
ghost use Rattle.house_core.specs.Desks.{at_home};
ghost use Rattle.shm_words.specs.Seen.{NoteData};
ghost use Rattle.gpu_house.specs.House.{OutData};
ghost use Rattle.gpu_hall.specs.Ready.{IsReadyRun};
ghost use Rattle.gpu_hall.specs.Words.{AreWordsAt};
ghost use Rattle.gpu_house.specs.Batches.{member_words, batch_words, AreChained};
ghost use Rattle.gpu_hall.specs.Commits.{WentOn, WentHome};

use crate::full_pass::FullPass;
use crate::hall::Hall;
use crate::noting::{make_room, note_all};
use gpu_house::{Batch, Naming, Next, Run};
use gpu_word::Memory;
use result_words::ResultWords;
use shm_words::SharedWords;
use wait_hooks::Hook;

impl<N: Naming, H: Hook> Hall<N, H> {
    /// A run of the stream that the scheduler chooses among those at home, which may go on; `None` where none of them can run.
    pub fn take(&mut self) -> Option<Run<N, FullPass>>
        ensures choice { option_map (λ (out : OutData FullPass NoteData). out.run.stream) result
            ≡ choice_at_home N.plans self.old.past (is_home self.old.outs) }
        ensures none { IfNone result (self.new ≡ self.old) }
        ensures past { self.new.past ≡ self.old.past }
        ensures view { self.new.view ≡ self.old.view }
        ensures run { IfSome result (λ out. IsRunOf N.plans self.old.past out.run) }
        ensures ready { IfSome result (IsReadyRun N.plans N.words N.books) }
        ensures outs { IfSome result
            (λ out. self.new.outs
            ≡ with_out self.old.outs out.run.stream
            record { order = out.run.order; paused = false }) }
    {
        let run = self.house.take()?;
        run.shows_fit();
        Some(run)
    }

    /// Commits a batch that a run has fetched: steps the run on its members in order, and does under the same lock what is then to be
    /// done. What was drawn is noted in the view.
    ///
    /// - the flush has more commands: the run is returned
    /// - it is at its end: the run is finished
    /// - a wait was kept, a command is invalid, or the stream was over: the run is at home
    /// - out of memory, for a step or for the view: the stream is lost after the steps made
    pub fn commit(
        &mut self,
        run: Run<N, FullPass>,
        words: &(SharedWords, ResultWords),
        batch: Batch,
    ) -> Option<Run<N, FullPass>>
        requires going { run.run.paused ≡ false }
        requires chained { AreChained run.run.facts batch }
        requires list { drop run.run.facts.fetched run.side.pass.fetched ≡ batch_words batch }
        requires words { AreWordsAt N.words N.result_words run.run.stream words.now }
        ensures ready { IfSome result (IsReadyRun N.plans N.words N.books) }
        ensures more { IfSome result
            (λ on. WentOn N.plans self.old self.new run.run (member_words batch) on.run) }
        ensures home { IfNone result
            (WentHome N.plans self.old self.new run.run (member_words batch)) }
    {
        let mut run = run;
        if let Err(memory) = make_room(&mut self.view, batch.count()) {
            self.house.lose(run, memory);
            return None;
        }
        let mut drawn = Vec::new(*self.takers.allocator());
        run.shows_fit();
        self.house.shows_laws();
        let answer = self.house.step_batch(&mut run, words, batch, &mut drawn);
        note_all(&mut self.view, drawn);
        let next = match answer {
            Ok(next) => next,
            Err(memory) => {
                self.house.lose(run, memory);
                return None;
            }
        };
        match next {
            Next::More => {
                run.shows_fit();
                Some(run)
            }
            Next::FlushEnd => {
                self.house.finish(run, words);
                None
            }
            _ => {
                self.house.back(run);
                None
            }
        }
    }

    /// Finishes the order of a run that is at its end, where its stream is neither lost nor closed. It takes no memory.
    pub fn finish(&mut self, run: Run<N, FullPass>, words: &(SharedWords, ResultWords))
        requires end { run.run.facts.get ≡ run.run.facts.put }
        requires going { run.run.paused ≡ false }
        requires words { AreWordsAt N.words N.result_words run.run.stream words.now }
        ensures event { is_open (standing_of N.plans self.old.past run.run.stream) ≡ true
            → self.new.past ≡ Finish run.run.stream run.run.order ∷ self.old.past }
        ensures over { is_open (standing_of N.plans self.old.past run.run.stream) ≡ false
            → self.new.past ≡ self.old.past }
        ensures back { self.new.outs ≡ with_out self.old.outs run.run.stream at_home }
        ensures view { self.new.view ≡ self.old.view }
    {
        run.shows_fit();
        self.house.shows_laws();
        self.house.finish(run, words);
    }

    /// Loses the stream of a run as out of memory, where it is neither lost nor closed. It takes the refusal, and no memory.
    pub fn lose(&mut self, run: Run<N, FullPass>, refusal: Memory)
        ensures event { is_open (standing_of N.plans self.old.past run.run.stream) ≡ true
            → self.new.past ≡ Lost run.run.stream why.Memory [] ∷ self.old.past }
        ensures over { is_open (standing_of N.plans self.old.past run.run.stream) ≡ false
            → self.new.past ≡ self.old.past }
        ensures back { self.new.outs ≡ with_out self.old.outs run.run.stream at_home }
        ensures view { self.new.view ≡ self.old.view }
    {
        self.house.lose(run, refusal);
    }
}
