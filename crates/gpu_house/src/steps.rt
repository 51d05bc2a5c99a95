//! Steps of runs that are out, under the lock.
ghost use Rattle.std.specs.Prelude.{◌≡◌, ℕ, IsTrue, IfOk, OnErr};
ghost use Rattle.std.specs.List.{All};
ghost use Rattle.atomic_table.specs.Seated.{TableId};
ghost use Rattle.gpu_word.specs.Results.{writes_listed};
ghost use Rattle.gpu_fetch.specs.Side.{StillBelongs, told_more};
ghost use Rattle.stream_state.specs.Told.{writes_told};
ghost use Rattle.gpu_house.specs.Changes.{Same};
ghost use Rattle.gpu_house.specs.Steps.{next_of, told_side};
ghost use Rattle.gpu_house.specs.Drawing.{drawn_of};
ghost use Rattle.gpu_house.specs.Stepping.{MayStep, TookStep, KeepsBeside};

use crate::answers::{Next, Progress};
use crate::house::House;
use crate::marking::{follow, take_room};
use crate::meeting::meet;
use crate::naming::Naming;
use crate::run::Run;
use gpu_fetch::{Fetched, ServiceSide};
use gpu_store::{Answer, Op};
use gpu_word::Memory;
use house_core::Stepped;
use step_parts::Acted;
use stream_state::Effect;
use wait_hooks::Hook;

// Tells the client of a step what it must hear: its token, or its results.
fn tell<P: ServiceSide>(side: &mut P, results: &mut P::Results, words: &P::Words, acted: &Acted)
    requires belongs { P.belongs side.old words.now }
    requires results { P.results_belong words.now results.old }
    requires takes { All (λ write. IsTrue (P.takes results.old write.0))
        (writes_told acted.now.effect) }
    ensures side { P.side side.new ≡ told_side acted.now.effect (P.side side.old) }
    ensures still { StillBelongs P.belongs P.note_belongs words.now side.old side.new }
    ensures table { P.table side.new ≡ P.table side.old }
    ensures written { P.written results.new
        ≡ told_more (P.written results.old) (writes_listed (writes_told acted.now.effect)) }
    ensures takes { (place : ℕ) → P.takes results.new place ≡ P.takes results.old place }
    ensures named { (t : TableId) → P.results_of results.old t → P.results_of results.new t }
    ensures belong { P.results_belong words.now results.new }
{
    match &acted.effect {
        Effect::Token(token) => side.publish_token(words, *token),
        Effect::Results(writes) => P::publish_results(results, words, writes.as_slice()),
        _ => {}
    }
}

impl<N: Naming, P: ServiceSide, H: Hook> House<N, P, H> {
    /// The step of a run on the next command that was fetched for it:
    /// - a valid command is executed, the client hears of its token or its results, and an operation that was drawn is reported
    /// - else the stream is lost by an error
    /// - where it is lost or closed already, nothing changes
    ///
    /// # Errors
    ///
    /// `Memory`: nothing has changed.
    pub fn step(
        &mut self,
        run: &mut Run<N, P>,
        words: &P::Words,
        fetched: &Fetched<'_>,
    ) -> Result<Progress, Memory>
        requires { MayStep P.side P.belongs P.note_belongs P.results_belong words.now self.old
            run.old fetched.now }
        ensures steps { IfOk result
            (TookStep P.side P.mark N.plans self.old self.new run.old run.new
            fetched.now.words) }
        ensures keeps { KeepsBeside P.side P.belongs P.note_belongs P.results_belong words.now
            self.old self.new run.old run.new }
        ensures err { OnErr result (Same self.old self.new) }
        ensures same { OnErr result (run.new ≡ run.old) }
    {
        let House {
            core,
            hooks,
            results,
            ..
        } = self;
        take_room(hooks, core.waiting(), 1)?;
        let Run {
            carried,
            side,
            note,
            ..
        } = run;
        let acted = match core.step(carried, fetched)? {
            Stepped::Lost => return Ok(Progress::without_step(Next::Lost)),
            Stepped::Closed => return Ok(Progress::without_step(Next::Closed)),
            Stepped::Invalid(error) => {
                meet(side, note, words);
                core.shows_core();
                follow(core, hooks);
                return Ok(Progress::without_step(Next::Invalid(error)));
            }
            Stepped::Done(acted) => acted,
        };
        meet(side, note, words);
        core.shows_core();
        follow(core, hooks);
        let stream = carried.stream();
        tell(side, &mut results[stream as usize - 1], words, &acted);
        Ok(Progress {
            next: next_of(acted.kept, carried.at_end()),
            drawn: drawn_of(acted),
        })
    }
}

// The image operation of a step, where it was answered Done.
fn drawn_of(acted: Acted) -> Option<Op>
    ensures { result ≡ drawn_of acted.effect acted.answer }
{
    match acted {
        Acted {
            effect: Effect::Pixels(op),
            answer: Answer::Done,
            ..
        } => Some(op),
        _ => None,
    }
}

// What a run goes on with after a step.
fn next_of(kept: bool, at_end: bool) -> Next
    ensures { result ≡ next_of kept at_end }
{
    if kept {
        Next::Paused
    } else if at_end {
        Next::FlushEnd
    } else {
        Next::More
    }
}
