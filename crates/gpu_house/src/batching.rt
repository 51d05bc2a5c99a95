//! Batches of runs that are out, under the lock.
ghost use Rattle.std.specs.Prelude.{◌≡◌, ◌≢◌, ◌<◌, ◌++◌, true, length, option_to_list, vec_len, vec_capacity, IfOk, IfErr, IfSome, IfNone};
ghost use Rattle.sync_core.specs.Standing.{IsKnown, is_open};
ghost use Rattle.gpu_journal.specs.World.{replay};
ghost use Rattle.gpu_journal.specs.Waits.{standing_of};
ghost use Rattle.gpu_house.specs.Batches.{member_words};
ghost use Rattle.gpu_house.specs.Stepping.{MayCommit, KeepsBeside};
ghost use Rattle.gpu_house.specs.Committing.{TellsDrawn, IsOverBy, Commits, GoneInPart, is_executed};

use crate::answers::Next;
use crate::batch::Batch;
use crate::house::House;
use crate::naming::Naming;
use crate::run::Run;
use gpu_fetch::ServiceSide;
use gpu_store::Op;
use gpu_word::Memory;
use wait_hooks::Hook;

// Adds an operation after all others, where there is one, in room that was made before.
fn add(drawn: &mut Vec<Op>, op: Option<Op>)
    requires { vec_len drawn.old < vec_capacity drawn.old }
    ensures { drawn.new.items ≡ drawn.old.items ++ option_to_list op }
{
    match op {
        Some(op) => drawn.push_reserved(op),
        None => {}
    }
}

impl<N: Naming, P: ServiceSide, H: Hook> House<N, P, H> {
    // How a step of a stream is answered where that is over.
    fn over(&self, stream: u32) -> Option<Next>
        requires { IsKnown (length N.plans.plans) stream }
        ensures none { IfNone result
            (is_open (standing_of N.plans self.now.core.past stream) ≡ true) }
        ensures over { IfSome result (λ next. IsOverBy N.plans self.now.core.past stream next) }
    {
        if self.core.is_lost(stream) {
            return Some(Next::Lost);
        }
        if self.core.is_closed(stream) {
            return Some(Next::Closed);
        }
        None
    }

    /// The steps of a run on the batch that was fetched for it, in order, as `step` makes them:
    /// - they go up to its end, or up to the first member that is no valid command any more, which loses the stream
    /// - the answer is that of the last member treated
    /// - the operations that were drawn are reported in order, after those in the list
    /// - where the stream is lost or closed already, nothing changes
    ///
    /// # Errors
    ///
    /// `Memory`: the steps of the first members were made, and what they drew is reported. The run can then only be
    /// lost.
    pub fn step_batch(
        &mut self,
        run: &mut Run<N, P>,
        words: &P::Words,
        batch: Batch,
        drawn: &mut Vec<Op>,
    ) -> Result<Next, Memory>
        requires { MayCommit P.side P.belongs P.note_belongs P.results_belong words.now self.old
            run.old batch }
        ensures commits { IfOk result (Commits P.side P.mark N.plans
            (record { house = self.old; out = run.old; drawn = drawn.old.items })
            (record { house = self.new; out = run.new; drawn = drawn.new.items })
            (member_words batch)) }
        ensures end { IfOk result
            (λ next. (next ≡ Next.FlushEnd → run.new.run.facts.get ≡ run.new.run.facts.put)
            × (next ≡ Next.More → run.new.run.facts.get ≢ run.new.run.facts.put)) }
        ensures ready { IfOk result (λ next. is_executed next ≡ true
            → length (P.side run.new.side).fetched ≡ run.new.run.facts.fetched) }
        ensures draws { TellsDrawn (replay N.plans self.old.core.past)
            (replay N.plans self.new.core.past)
            drawn.old.items drawn.new.items }
        ensures keeps { KeepsBeside P.side P.belongs P.note_belongs P.results_belong words.now
            self.old self.new run.old run.new }
        ensures err { IfErr result (λ _. GoneInPart P.side P.mark N.plans
            (record { house = self.old; out = run.old; drawn = drawn.old.items })
            (record { house = self.new; out = run.new; drawn = drawn.new.items })
            (member_words batch)) }
    {
        run.shows_fit();
        if let Some(over) = self.over(run.stream()) {
            return Ok(over);
        }
        let mut from = 0;
        for index in 0..batch.count() {
            let member = batch.member(index, from);
            from += member.words().len();
            drawn.reserve(1)?;
            let progress = self.step(run, words, &member)?;
            add(drawn, progress.drawn);
            match progress.next {
                Next::More => {}
                next => return Ok(next),
            }
        }
        Ok(Next::More)
    }
}
