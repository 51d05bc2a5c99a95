ghost use Rattle.std.specs.Prelude.{◌≡◌, reverse};
ghost use Rattle.std.specs.List.{count_by};
ghost use Rattle.script_laws.specs.Trials.{is_loss};

use gpu_journal::{Event, Journal};

// Whether an event is a loss.
fn is_loss(event: &Event<'_>) -> bool
    ensures { result ≡ is_loss event.now }
{
    matches!(event, Event::Lost { .. })
}

/// How many of the events are losses.
pub(crate) fn loss_count(journal: &Journal) -> usize
    ensures { result ≡ count_by is_loss (reverse journal.now.events) }
{
    let mut count = 0;
    for index in 0..journal.count() {
        if is_loss(&journal.event(index)) {
            count += 1;
        }
    }
    count
}
