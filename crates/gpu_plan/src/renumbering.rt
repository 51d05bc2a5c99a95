ghost use Rattle.std.specs.Prelude.{◌≡◌, ◌≤◌, length, map, slice_index, Some, IfOk};
ghost use Rattle.gpu_plan.specs.Named.{names_in, IsVersion, AreLawfulNames};
ghost use Rattle.gpu_plan.specs.Adding.{streams};
ghost use Rattle.gpu_plan.specs.Drafts.{shown};
ghost use Rattle.gpu_plan.specs.declared.acting.TheConstants.{MOST_ACTIONS};
ghost use Rattle.gpu_plan.specs.Renumbered.{numbers_of, renumbered_fence, renumbered_note, renumbered_action, renumbered_plan, renumbered};
ghost use Rattle.gpu_plan.specs.Fencing.{Rise, fences_in, fenced_from, noted_at};
ghost use Rattle.gpu_plan.specs.declared.adding.TheConstants.{MOST_STREAMS};

use crate::adding::streams;
use crate::draft::Draft;
use crate::fenced::{Fenced, noted_at};
use crate::fences::Fences;
use crate::plan::{Action, Plan, Plans, number_of};
use script_lines::Names;
use std::alloc::{AllocError, Global};

// The numbers of the streams that have these names, after 0 for no name.
fn numbers_of(alloc: Global, plans: &[Plan], mentioned: &Names) -> Result<Vec<u32>, AllocError>
    requires { length plans.now ≤ MOST_STREAMS }
    ensures { IfOk result (λ numbers. numbers.items ≡ numbers_of plans.now mentioned.now) }
{
    let names = mentioned.as_slice();
    let mut numbers = Vec::with_capacity(alloc, names.len() + 1)?;
    numbers.push(0)?;
    for name in names {
        numbers.push(number_of(plans, *name))?;
    }
    Ok(numbers)
}

// The number at a place, or 0 where there is none.
fn number_at(numbers: &[u32], at: u32) -> u32
    ensures { result ≡ slice_index numbers.now at }
{
    numbers.get(at as usize).copied().unwrap_or(0)
}

fn renumber_pairs(numbers: &[u32], pairs: &mut [(u32, u64)])
    ensures { pairs.new ≡ map (renumbered_fence numbers.now) pairs.old }
{
    for pair in pairs.iter_mut() {
        pair.0 = number_at(numbers, pair.0);
    }
}

impl Fenced {
    fn renumber(&mut self, numbers: &[u32])
        ensures { self.new ≡ renumbered_note numbers.now self.old }
    {
        renumber_pairs(numbers, &mut self.pairs);
    }
}

fn renumber_fenced(numbers: &[u32], fenced: &mut [Fenced])
    ensures { fenced.new ≡ map (renumbered_note numbers.now) fenced.old }
{
    for noted in fenced.iter_mut() {
        noted.renumber(numbers);
    }
}

impl Action {
    // Shows the fences that are noted of the action's place, which are renumbered. They take no memory in an action.
    fn renumber(&mut self, _numbers: &[u32], fenced: &[Fenced], place: u32)
        requires rise { Rise fenced.now }
        requires noted { noted_at place fenced.now
            ≡ map (renumbered_fence _numbers.now) (fences_in (Some self.old)) }
        ensures { self.new ≡ renumbered_action _numbers.now self.old }
    {
        let Action::Flush { put: _, fences } = self else {
            return;
        };
        if let Some(noted) = noted_at(fenced, place) {
            *fences = Fences::of(&noted.pairs);
        }
    }
}

fn renumber_actions(numbers: &[u32], fenced: &[Fenced], actions: &mut [Action])
    requires few { length actions.old ≤ MOST_ACTIONS }
    requires noted { fenced.now ≡ map (renumbered_note numbers.now) (fenced_from 0 actions.old) }
    ensures { actions.new ≡ map (renumbered_action numbers.now) actions.old }
{
    let mut place = 0;
    for action in actions.iter_mut() {
        action.renumber(numbers, fenced, place);
        place += 1;
    }
}

impl Plan {
    fn renumber(&mut self, numbers: &[u32])
        ensures { self.new ≡ renumbered_plan numbers.now self.old }
    {
        renumber_fenced(numbers, &mut self.fenced);
        renumber_actions(numbers, &self.fenced, &mut self.actions);
    }
}

fn renumber_plans(numbers: &[u32], plans: &mut [Plan])
    ensures { plans.new ≡ map (renumbered_plan numbers.now) plans.old }
{
    for plan in plans.iter_mut() {
        plan.renumber(numbers);
    }
}

/// The plans of a whole script. In version 2 their fences have the numbers of mentioned names so far, and now get those of
/// the streams, of which all are known.
pub(crate) fn whole(
    alloc: Global,
    version: u32,
    mentioned: &Names,
    draft: Draft,
) -> Result<Plans, AllocError>
    requires named { AreLawfulNames version (names_in (streams (shown draft))) }
    requires known { IsVersion version }
    ensures { IfOk result (λ plans. plans
        ≡ record {
          version = version;
          plans = renumbered version mentioned.now (streams (shown draft));
        }) }
{
    let mut plans = streams(draft)?;
    if version != 2 {
        return Ok(Plans::of(version, plans));
    }
    let numbers = numbers_of(alloc, &plans, mentioned)?;
    renumber_plans(&numbers, &mut plans);
    Ok(Plans::of(version, plans))
}
