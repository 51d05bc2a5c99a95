ghost use Rattle.std.specs.Prelude.{◌≡◌, map, reverse};
ghost use Rattle.std.specs.List.{All};
ghost use Rattle.journal_text.specs.Text.{event_text};
ghost use Rattle.run_output.specs.Parts.{LineHasRoom};

use crate::outcome::Outcome;
use gpu_journal::Journal;
use journal_text::{Lines, Sheet};

/// The journal: a line for each event, in their order.
#[derive(Drop)]
pub(crate) struct EventLines<'a> {
    pub(crate) journal: &'a Journal,
    ghost room: { All LineHasRoom (reverse journal.now.events) },
}

impl<'a> EventLines<'a> {
    /// The lines of a run's events.
    pub(crate) fn of(run: &'a Outcome) -> EventLines<'a>
        ensures { result.journal.now.events ≡ run.now.report.past }
    {
        EventLines {
            journal: run.report().journal(),
        }
    }
}

impl<'a> Lines for EventLines<'a> {
    ghost lines = { λ e. map event_text (reverse e.journal.now.events) };

    fn count(&self) -> usize {
        self.journal.count()
    }

    fn make(&self, index: usize, sheet: &mut Sheet) {
        sheet.put_event(&self.journal.event(index));
    }
}
