ghost use Rattle.std.specs.Prelude.{◌≡◌, ◌++◌, IfOk, OnOk};
ghost use Rattle.std.specs.List.{count_by};
ghost use Rattle.gpu_plan.specs.Plans.{is_flush, actions_in, flushes_in};
ghost use Rattle.script_answers.specs.Counts.{number_counted, check_text};

use gpu_plan::{Action, Plans};
use gpu_word::Memory;
use itoa::Buffer;
use std::alloc::Global;

// How many flushes there are among some actions.
fn flush_count(actions: &[Action]) -> usize
    ensures { result ≡ count_by is_flush actions.now }
{
    actions
        .iter()
        .filter(|action| matches!(action, Action::Flush { .. }))
        .count()
}

// How many actions all streams have.
fn action_total(plans: &Plans) -> usize
    ensures { result ≡ actions_in plans.now.plans }
{
    let count = plans.count();
    let mut total = 0;
    for stream in 0..count {
        total += plans.plan(stream + 1).actions().len();
    }
    total
}

// How many flushes all streams have.
fn flush_total(plans: &Plans) -> usize
    ensures { result ≡ flushes_in plans.now.plans }
{
    let count = plans.count();
    let mut total = 0;
    for stream in 0..count {
        total += flush_count(plans.plan(stream + 1).actions());
    }
    total
}

// Appends what is counted, and its number in decimal digits.
fn push_count(out: &mut Vec<u8>, what: &[u8], number: usize) -> Result<(), Memory>
    ensures { OnOk result (out.new.items ≡ out.old.items ++ number_counted what.now number) }
{
    let mut buffer = Buffer::new();
    out.extend_from_slice(what)?;
    out.extend_from_slice(buffer.format(number as u64).as_bytes())?;
    Ok(())
}

/// The line of a script: how many streams, actions and flushes it has.
pub(crate) fn check_text(alloc: Global, plans: &Plans) -> Result<Vec<u8>, Memory>
    ensures { IfOk result (λ text. text.items ≡ check_text plans.now) }
{
    let mut text = Vec::new(alloc);
    push_count(&mut text, b"ok streams ", plans.count() as usize)?;
    push_count(&mut text, b" actions ", action_total(plans))?;
    push_count(&mut text, b" flushes ", flush_total(plans))?;
    text.push(b'\n')?;
    Ok(text)
}
