ghost use Rattle.std.specs.Prelude.{◌≡◌, ℕ, ◌+◌, ◌<◌, ◌==◌, if◌then◌else◌, map, length, slice_index_or, IfOk};
ghost use Rattle.std.specs.List.{range_with_len};
ghost use Rattle.gpu_journal.specs.declared.end.End.TheVariants.{Done};
ghost use Rattle.gpu_journal.specs.Ended.{end_of};
ghost use Rattle.journal_verify.specs.Ends.{end_after};

use gpu_journal::{End, Event, Journal};
use gpu_word::Memory;
use std::alloc::Global;

// Writes down how a stream ended, where it is one of these, counted from 1.
#[tactic(auto)]
fn set_end(ends: &mut [End], stream: u32, end: End)
    ensures len { length ends.new ≡ length ends.old }
    ensures each { (k : ℕ) → k < length ends.old
        → slice_index_or ends.new k Done
        ≡ (if stream == k + 1 then end else slice_index_or ends.old k Done) }
{
    let place = stream as usize;
    if place == 0 || place > ends.len() {
        return;
    }
    ends[place - 1] = end;
}

// Writes down how an event ends its stream, where it does.
fn note(ends: &mut [End], event: &Event<'_>)
    ensures len { length ends.new ≡ length ends.old }
    ensures each { (k : ℕ) → k < length ends.old
        → slice_index_or ends.new k Done
        ≡ end_after event.now (k + 1) (slice_index_or ends.old k Done) }
{
    match event {
        Event::Lost { stream, why, .. } => set_end(ends, *stream, End::Lost(*why)),
        Event::Close { stream } => set_end(ends, *stream, End::Closed),
        Event::Order { .. } | Event::Step { .. } | Event::Finish { .. } => {}
    }
}

/// How each of a given number of streams ended, in one walk over the events from the oldest on.
#[tactic(auto)]
pub fn ends_of(alloc: Global, count: u32, journal: &Journal) -> Result<Vec<End>, Memory>
    ensures { IfOk result (λ ends. ends.items
        ≡ map (end_of journal.now.events) (range_with_len 1 count)) }
{
    let mut ends = vec![in alloc; End::Done; count as usize]?;
    for index in 0..journal.count() {
        note(&mut ends, &journal.event(index));
    }
    Ok(ends)
}
