ghost use Rattle.std.specs.Prelude.{◌<◌, ◌^◌, length, reverse, IfOk, OnOk};
ghost use Rattle.journal_verify.specs.Followed.{NotesSum};
ghost use Rattle.journal_verify.specs.Ruled.{Rules};

use crate::followed::Followed;
use gpu_journal::Journal;
use gpu_plan::Plans;
use gpu_word::Memory;
use serial_laws::plans_are_lawful;
use std::alloc::Global;

/// The verdict on a list of events, with what they leave.
#[derive(Drop)]
pub enum Ruling {
    /// They are a legal and complete history, which leaves this.
    Whole(Followed),
    /// The event of this number, counted from 1, is the first that breaks a rule, and this is the least rule that it breaks.
    No { event: u32, rule: u32 },
    /// They are a legal history that is not complete.
    NotComplete,
}

// The wishes for later sums than that after this number of events, where they rise.
fn later(wishes: &[u32], events: u32) -> &[u32] {
    let mut left = wishes;
    while let Some((wish, more)) = left.split_first() {
        if *wish > events {
            return left;
        }
        left = more;
    }
    left
}

// Notes the sum after this number of events where it is the first that is wished for.
fn note_wished(followed: &mut Followed, wishes: &[u32], events: u32) -> Result<(), Memory>
    ensures { OnOk result (NotesSum events followed.old followed.new) }
{
    match wishes.first() {
        Some(wish) if *wish == events => followed.note(events),
        _ => Ok(()),
    }
}

/// Whether events, the oldest first, are a legal and complete history of these plans, as `verify` says, and all that they
/// leave. The sums of all texels after the wished numbers of events are noted, where the wishes rise.
pub fn follow(
    alloc: Global,
    plans: &Plans,
    journal: &Journal,
    wishes: &[u32],
) -> Result<Ruling, Memory>
    requires { length journal.now.events < 2 ^ 32 }
    ensures { IfOk result (λ ruling. Rules plans.now (reverse journal.now.events) ruling) }
{
    plans_are_lawful(plans);
    let mut followed = Followed::make(alloc, plans)?;
    note_wished(&mut followed, wishes, 0)?;
    let mut left = later(wishes, 0);
    for index in 0..journal.count() {
        let number = index as u32 + 1;
        if let Some(rule) = followed.take(plans, &journal.event(index))? {
            let event = number;
            return Ok(Ruling::No { event, rule });
        }
        note_wished(&mut followed, left, number)?;
        left = later(left, number);
    }
    if followed.is_complete(plans) {
        return Ok(Ruling::Whole(followed));
    }
    Ok(Ruling::NotComplete)
}
