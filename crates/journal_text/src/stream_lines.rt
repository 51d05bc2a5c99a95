ghost use Rattle.std.specs.Prelude.{◌≡◌, ◌≤◌, length};
ghost use Rattle.journal_text.specs.Parts.{lines_of_streams};
ghost use Rattle.gpu_plan.specs.declared.adding.TheConstants.{MOST_STREAMS};

use crate::ended::Ended;
use crate::lines::Lines;
use crate::sheet::Sheet;

/// A line for each stream: how it ended, and what it counted.
#[derive(Drop)]
pub struct StreamLines<'a, E: Ended> {
    pub run: &'a E,
    pub count: u32,
    ghost counted: { count ≡ length (E.plans run.now).plans },
    ghost few: { count ≤ MOST_STREAMS },
}

impl<'a, E: Ended> StreamLines<'a, E> {
    /// The lines of a run's streams.
    pub fn of(run: &'a E) -> StreamLines<'a, E>
        ensures { result.run.now ≡ run.now }
    {
        StreamLines {
            run,
            count: run.plans().count(),
        }
    }
}

impl<'a, E: Ended> Lines for StreamLines<'a, E> {
    ghost lines = { λ s. lines_of_streams (E.plans s.run.now) (E.past s.run.now) };

    ghost fits = { λ s. E.fits s.run.now };

    fn count(&self) -> usize {
        self.count as usize
    }

    fn make(&self, index: usize, sheet: &mut Sheet) {
        let stream = index as u32 + 1;
        sheet.put_stream(stream, self.run.stream(stream), self.run.ends()[index]);
    }
}
