// What the writer does with the two copies.
ghost use Rattle.std.specs.Prelude.{◌≡◌, ◌∷◌, ◌++◌, ◌<◌, [], fold, OnOk, MatchResult};
ghost use Rattle.std.specs.VecDeque.{deque_len, deque_capacity};
ghost use Rattle.live_view.specs.declared.step.Step.TheVariants.{Draw};
ghost use Rattle.live_view.specs.Copies.{published, steps_pending};
ghost use Rattle.live_view.specs.Rule.{IsLast, IsBegun};
ghost use Rattle.live_view.specs.Steps.{shown_after, ended_with, ops_of, op_in};

use crate::drawn::Drawn;
use crate::rule::{Copies, Publishes};
use crate::step::{Mark, Step};
use core::mem::replace_with;
use gpu_word::Memory;
use std::alloc::AllocError;
use std::collections::VecDeque;
use std::sync::Wait;

// Puts an operation that was refused back in front of the others.
fn put_back(waiting: &mut VecDeque<Drawn>, step: Step)
    requires room { deque_len waiting.old < deque_capacity waiting.old }
    requires one { step ≡ Draw (op_in step) }
    ensures { waiting.new.items ≡ op_in step ∷ waiting.old.items }
{
    match step {
        Step::Draw(drawn) => waiting.push_front_reserved(drawn),
        Step::End(_) => unreachable!(),
    }
}

/// Hands the operations that wait on to the copies, in their order.
pub(crate) fn hand_over(copies: &mut Copies, waiting: &mut VecDeque<Drawn>) -> Result<(), Memory>
    ensures published { published copies.new ≡ published copies.old }
    ensures noted { ops_of (steps_pending copies.new) ++ waiting.new.items
        ≡ ops_of (steps_pending copies.old) ++ waiting.old.items }
    ensures all { OnOk result (waiting.new.items ≡ []) }
{
    while let Some(drawn) = waiting.pop_front() {
        if let Err(step) = copies.append(Step::Draw(drawn)) {
            put_back(waiting, step);
            return Err(Memory::from(AllocError));
        }
    }
    Ok(())
}

// Shows viewers what the steps that are pending lead to.
fn show<R: Wait>(copies: Copies, rt: &R) -> (Copies, Result<(), AllocError>)
    requires last { IsLast (fold shown_after (published copies) (steps_pending copies)).version
        (fold shown_after (published copies) (steps_pending copies)).front.versions }
    requires begun { IsBegun (published copies).front
        (fold shown_after (published copies) (steps_pending copies)).front }
    ensures published { MatchResult result.1
        (λ _. published result.0 ≡ fold shown_after (published copies) (steps_pending copies))
        (λ _. published result.0 ≡ published copies) }
    ensures pending { MatchResult result.1 (λ _. steps_pending result.0 ≡ [])
        (λ _. steps_pending result.0 ≡ steps_pending copies) }
{
    copies.publish_as::<Publishes, R>(rt)
}

/// Ends the version that is pending, and shows it to viewers.
pub(crate) fn end_version<R: Wait>(copies: &mut Copies, rt: &R, mark: Mark) -> Result<(), Memory>
    requires last { IsLast (ended_with (published copies.old)
        (steps_pending copies.old) mark).version mark.front.versions }
    requires begun { IsBegun (published copies.old).front mark.front }
    ensures published { MatchResult result
        (λ _. published copies.new
        ≡ ended_with (published copies.old) (steps_pending copies.old) mark)
        (λ _. published copies.new ≡ published copies.old) }
    ensures pending { MatchResult result (λ _. ops_of (steps_pending copies.new) ≡ [])
        (λ _. ops_of (steps_pending copies.new) ≡ ops_of (steps_pending copies.old)) }
{
    if let Err(_end) = copies.append(Step::End(mark)) {
        return Err(Memory::from(AllocError));
    }
    match replace_with(copies, rt, show::<R>) {
        Ok(()) => Ok(()),
        Err(error) => Err(Memory::from(error)),
    }
}
