//! What a core is made of: where the flushes of each stream stand, and how streams are ranked.
ghost use Rattle.std.specs.Prelude.{◌≡◌, ◌≤◌, [], length, map, IfOk};
ghost use Rattle.std.specs.List.{All};
ghost use Rattle.gpu_plan.specs.Plans.{PlanData};
ghost use Rattle.gpu_journal.specs.Serial.{rank};
ghost use Rattle.seq_sched.specs.Seats.{all_home};
ghost use Rattle.house_core.specs.Core.{names_of, IsFresh};
ghost use Rattle.house_core.specs.Making.{desks_of};

use crate::desk::Desk;
use gpu_books::{Book, Half};
use gpu_cmd::Priority;
use gpu_journal::Journal;
use gpu_plan::{Plans, flush_places};
use gpu_word::Memory;
use seq_sched::Scheduler;
use std::alloc::Global;

// High before Normal before Low.
fn rank(priority: Priority) -> u32
    ensures { result ≡ rank priority }
{
    match priority {
        Priority::High => 0,
        Priority::Normal => 1,
        Priority::Low => 2,
    }
}

/// For how many events room is made before the first: a quarter of the actions. As a rule a script has fewer events, since
/// each word of a command is put by an action of its own; a journal with more events grows.
pub(crate) fn usual_events(plans: &Plans) -> usize {
    let mut actions: usize = 0;
    for done in 0..plans.count() {
        actions = actions.saturating_add(plans.plan(done + 1).actions().len());
    }
    actions / 4
}

/// The rank of each stream, from stream 1 on.
pub(crate) fn ranks(alloc: Global, plans: &Plans) -> Result<Vec<u32>, Memory>
    ensures { IfOk result (λ ranks. ranks.items
        ≡ map (λ (plan : PlanData). rank plan.priority) plans.now.plans) }
{
    let count = plans.count();
    let mut ranks = Vec::with_capacity(alloc, count as usize)?;
    for done in 0..count {
        ranks.push(rank(plans.plan(done + 1).priority()))?;
    }
    Ok(ranks)
}

/// The scheduler of the streams, which are all at home.
pub(crate) fn scheduler(alloc: Global, plans: &Plans) -> Result<Scheduler, Memory>
    ensures { IfOk result (λ scheduler. scheduler
        ≡ all_home (map (λ (plan : PlanData). rank plan.priority) plans.now.plans)) }
{
    let ranks = ranks(alloc, plans)?;
    Scheduler::make(alloc, ranks.as_slice())
}

/// A journal of no event, with room for the usual ones and for the end of each stream.
pub(crate) fn journal(alloc: Global, plans: &Plans) -> Result<Journal, Memory>
    ensures events { IfOk result (λ journal. journal.events ≡ []) }
    ensures spare { IfOk result (λ journal. length plans.now.plans ≤ journal.spare) }
{
    let mut journal = Journal::make(alloc);
    let usual = usual_events(plans);
    journal.reserve(usual.max(plans.count() as usize))?;
    journal.reserve_words(usual.saturating_mul(4))?;
    Ok(journal)
}

/// The desk of each stream, from stream 1 on, with these books.
pub(crate) fn desks(
    alloc: Global,
    plans: &Plans,
    books: Vec<(Book, Half, Half)>,
) -> Result<Vec<Desk>, Memory>
    requires count { length books.items ≡ length plans.now.plans }
    requires fresh { All IsFresh books.items }
    ensures { IfOk result (λ desks. desks.items ≡ desks_of plans.now.plans (names_of books.items)) }
{
    let mut desks = Vec::with_capacity(alloc, plans.count() as usize)?;
    for (book, kept, home) in books {
        let plan = plans.plan(desks.len() as u32 + 1);
        let places = flush_places(alloc, plan.actions())?;
        desks.push(Desk::make(alloc, book, kept, home, places))?;
    }
    Ok(desks)
}
