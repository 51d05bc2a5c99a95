//! What runs of one stream are made of.
ghost use Rattle.std.specs.Prelude.{◌≡◌, ◌<◌, [], ◌∷◌, length, replicate, IfOk, OnOk};
ghost use Rattle.gpu_plan.specs.Plans.{plan_of};
ghost use Rattle.gpu_plan.specs.Passes.{flushes};
ghost use Rattle.gpu_plan.specs.Places.{mark_of};
ghost use Rattle.gpu_fetch.specs.Side.{fresh_side};
ghost use Rattle.house_core.specs.Core.{IsFresh};
ghost use Rattle.house_core.specs.Desks.{at_home};
ghost use Rattle.gpu_house.specs.Names.{table_at};
ghost use Rattle.gpu_house.specs.Making.{fresh_slots, AreFreshResults};

use super::drive::{order, run};
use gpu_books::{Book, Half};
use gpu_fetch::ServiceSide;
use gpu_house::{House, Naming, Report};
use gpu_plan::{Plan, Plans, parse};
use journal_text::journal_text;
use std::alloc::Global;
use std::test::Fail;
use wait_hooks::Marker;

// The plans of a script.
pub(super) fn plans_of(alloc: Global, script: &str) -> Result<Plans, Fail> {
    if script.len() > 16_777_216 {
        return Err("a script".into());
    }
    Ok(parse(alloc, script.as_bytes()).ok().ok_or("a script")?)
}

// The plan of a script of one stream.
#[tactic(auto, using(crate::proofs::Beginning::first_plan))]
pub(super) fn only_plan(plans: &Plans) -> Result<&Plan, Fail>
    ensures one { OnOk result (length plans.now.plans ≡ 1) }
    ensures plan { IfOk result (λ plan. plan.now ≡ plan_of plans.now 1) }
{
    if plans.count() != 1 {
        return Err("one stream".into());
    }
    Ok(plans.plan(1))
}

// A list of one thing.
pub(super) fn one<T: Drop>(alloc: Global, thing: T) -> Result<Vec<T>, Fail>
    ensures { IfOk result (λ list. list.items ≡ thing ∷ []) }
{
    let mut list = Vec::new(alloc);
    list.push(thing)?;
    Ok(list)
}

// A house of one stream.
pub(super) fn house_over<N: Naming, P: ServiceSide>(
    alloc: Global,
    plans: Plans,
    book: (Book, Half, Half),
    side: P,
    results: P::Results,
) -> Result<House<N, P, Marker>, Fail>
    requires plans { plans ≡ N.plans }
    requires one { length plans.plans ≡ 1 }
    requires base { N.base ≡ 0 }
    requires table { N.words ≡ P.table side ∷ [] }
    requires book { (N.books ≡ book.0 ∷ []) × IsFresh book }
    requires side { P.side side ≡ fresh_side (plan_of plans 1) }
    requires fresh { AreFreshResults P.takes P.written P.results_of (table_at N.result_words)
        1 plans.plans (results ∷ []) }
    ensures past { IfOk result (λ house. house.core.past ≡ []) }
    ensures outs { IfOk result
        (λ house. house.core.outs ≡ replicate (length N.plans.plans) at_home) }
    ensures slots { IfOk result (λ house. house.slots ≡ fresh_slots (side ∷ [])) }
    ensures results { IfOk result (λ house. house.results ≡ results ∷ []) }
{
    let sides = one(alloc, side)?;
    let results = one(alloc, results)?;
    let books = one(alloc, book)?;
    Ok(House::make(alloc, plans, Marker::make(0), sides, results, books)?)
}

// What a house leaves over the side of one client that has made its first flush.
pub(super) fn drive<N: Naming, P: ServiceSide>(
    alloc: Global,
    plans: Plans,
    book: (Book, Half, Half),
    words: &P::Words,
    side: P,
    results: P::Results,
    note: P::Note,
) -> Result<Report, Fail>
    requires plans { plans ≡ N.plans }
    requires one { length plans.plans ≡ 1 }
    requires base { N.base ≡ 0 }
    requires table { N.words ≡ P.table side ∷ [] }
    requires book { (N.books ≡ book.0 ∷ []) × IsFresh book }
    requires side { P.side side ≡ fresh_side (plan_of plans 1) }
    requires fresh { AreFreshResults P.takes P.written P.results_of (table_at N.result_words)
        1 plans.plans (results ∷ []) }
    requires results { P.results_belong words.now results }
    requires belongs { P.belongs side words.now }
    requires note { P.note_belongs side words.now note }
    requires flush { 0 < flushes (plan_of plans 1).actions }
    requires first { P.mark note ≡ mark_of (plan_of plans 1) 0 }
    requires named { P.note_of note (P.table side) }
{
    let mut house = house_over::<N, P>(alloc, plans, book, side, results)?;
    order(&mut house, words, note)?;
    if !run(alloc, &mut house, words)? {
        return Err("a flush to run".into());
    }
    Ok(house.report())
}

// The lines of a report's journal.
pub(super) fn lines_of(alloc: Global, report: &Report) -> Result<Vec<u8>, Fail> {
    Ok(journal_text(alloc, report.journal())?)
}
