//! A house of one stream, which is driven from one thread.
ghost use Rattle.std.specs.Prelude.{◌≡◌, ◌<◌, length, IfOk, IfSome, OnOk};
ghost use Rattle.gpu_plan.specs.Plans.{plan_of};
ghost use Rattle.gpu_plan.specs.Passes.{flushes};
ghost use Rattle.gpu_plan.specs.Places.{mark_of};
ghost use Rattle.gpu_house.specs.Names.{table_at};
ghost use Rattle.gpu_house.specs.Slots.{slot_at};
ghost use Rattle.service_tests.specs.Alone.{ordered, IsHome, IsOutAlone};

use gpu_fetch::{Fetched, ServiceSide};
use gpu_house::{House, Naming, Next, Run};
use gpu_store::Op;
use gpu_word::Memory;
use std::alloc::Global;
use std::snapshot::Snapshot;
use std::test::Fail;
use wait_hooks::Hook;

/// A flush of these tests has fewer commands.
const MOST_TURNS: u32 = 2;

// A flush of the one stream is ordered, with its note.
pub(super) fn order<N: Naming, P: ServiceSide, H: Hook>(
    house: &mut House<N, P, H>,
    words: &P::Words,
    note: P::Note,
) -> Result<(), Fail>
    requires one { length N.plans.plans ≡ 1 }
    requires home { IsHome P.belongs P.note_belongs P.results_belong words.now house.old }
    requires next { ordered N.plans house.old.core.past < flushes (plan_of N.plans 1).actions }
    requires mark { P.mark note
        ≡ mark_of (plan_of N.plans 1) (ordered N.plans house.old.core.past) }
    requires belongs { IfSome (slot_at house.old.slots 1).side
        (λ side. P.note_belongs side words.now note) }
    requires table { P.note_of note (table_at N.words 1) }
    ensures { OnOk result
        (IsHome P.belongs P.note_belongs P.results_belong words.now house.new) }
{
    let _ = words;
    match house.order(1, note) {
        Ok(_) => Ok(()),
        Err(_) => Err("memory is ample".into()),
    }
}

// A run takes one command of its flush, or finishes it. It is given back where it goes on.
fn turn<N: Naming, P: ServiceSide, H: Hook>(
    house: &mut House<N, P, H>,
    words: &P::Words,
    mut run: Run<N, P>,
    list: &mut Vec<(u32, u32)>,
) -> Result<Option<Run<N, P>>, Memory>
    requires { IsOutAlone P.belongs P.note_belongs P.results_belong P.side words.now house.old run }
    ensures { IfOk result (λ left. IfSome left
        (IsOutAlone P.belongs P.note_belongs P.results_belong P.side words.now house.new)) }
{
    if run.at_end() {
        house.finish(run, words);
        return Ok(None);
    }
    let facts = Snapshot::of(run.facts());
    let verdict = match run.fetch(words, list) {
        Ok(verdict) => verdict,
        Err(memory) => return Err(run.give_up(memory)),
    };
    let fetched = Fetched::of(list, &verdict, &facts);
    let progress = match house.step(&mut run, words, &fetched) {
        Ok(progress) => progress,
        Err(memory) => return Err(run.give_up(memory)),
    };
    match progress.into_next() {
        Next::More => Ok(Some(run)),
        Next::FlushEnd => Ok(Some(run)),
        _ => {
            house.back(run);
            Ok(None)
        }
    }
}

// A run takes a batch of its flush, or finishes it. It is given back where it goes on. This is proved and not run: workers
// take batches over words that a caller knows by name, and this takes them over words of any kind.
fn turn_batch<N: Naming, P: ServiceSide, H: Hook>(
    house: &mut House<N, P, H>,
    words: &P::Words,
    mut run: Run<N, P>,
    drawn: &mut Vec<Op>,
) -> Result<Option<Run<N, P>>, Memory>
    requires { IsOutAlone P.belongs P.note_belongs P.results_belong P.side words.now house.old run }
    ensures { IfOk result (λ left. IfSome left
        (IsOutAlone P.belongs P.note_belongs P.results_belong P.side words.now house.new)) }
{
    if run.at_end() {
        house.finish(run, words);
        return Ok(None);
    }
    let batch = match run.fetch_batch(words) {
        Ok(batch) => batch,
        Err(memory) => return Err(run.give_up(memory)),
    };
    let next = match house.step_batch(&mut run, words, batch, drawn) {
        Ok(next) => next,
        Err(memory) => return Err(run.give_up(memory)),
    };
    match next {
        Next::More => Ok(Some(run)),
        Next::FlushEnd => Ok(Some(run)),
        _ => {
            house.lose(run, Memory::of_too_many(*drawn.allocator(), usize::MAX, 1));
            Ok(None)
        }
    }
}

// A run goes on until it is at home again.
fn run_out<N: Naming, P: ServiceSide, H: Hook>(
    alloc: Global,
    house: &mut House<N, P, H>,
    words: &P::Words,
    run: Run<N, P>,
) -> Result<(), Fail>
    requires { IsOutAlone P.belongs P.note_belongs P.results_belong P.side words.now house.old run }
{
    let mut list = Vec::new(alloc);
    let mut out = run;
    for _turn in 0..MOST_TURNS {
        match turn(house, words, out, &mut list)? {
            Some(on) => out = on,
            None => return Ok(()),
        }
    }
    house.lose(out, Memory::of_too_many(alloc, usize::MAX, 1));
    Err("a short flush".into())
}

// The one stream runs a flush, where it has one that can run.
#[tactic(auto, using(crate::proofs::Belonging::taken))]
pub(super) fn run<N: Naming, P: ServiceSide, H: Hook>(
    alloc: Global,
    house: &mut House<N, P, H>,
    words: &P::Words,
) -> Result<bool, Fail>
    requires { IsHome P.belongs P.note_belongs P.results_belong words.now house.old }
{
    let run = match house.take() {
        Some(run) => run,
        None => return Ok(false),
    };
    if run.stream() != 1 {
        house.lose(run, Memory::of_too_many(alloc, usize::MAX, 1));
        return Err("one stream".into());
    }
    run_out(alloc, house, words, run)?;
    Ok(true)
}
