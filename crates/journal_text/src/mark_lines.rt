ghost use Rattle.std.specs.Prelude.{◌≡◌, length};
ghost use Rattle.gpu_journal.specs.Waits.{endings_in};
ghost use Rattle.journal_text.specs.Parts.{lines_of_marks};

use crate::ended::Ended;
use crate::lines::Lines;
use crate::sheet::Sheet;

/// A line for each wait that has ended, with its mark.
#[derive(Drop)]
pub struct MarkLines<'a, E: Ended> {
    pub run: &'a E,
    pub count: usize,
    ghost counted: { count ≡ length (endings_in (E.plans run.now) (E.past run.now)) },
}

impl<'a, E: Ended> MarkLines<'a, E> {
    /// The lines of a run's marks.
    pub fn of(run: &'a E) -> MarkLines<'a, E>
        requires { E.fits run.now }
        ensures { result.run.now ≡ run.now }
    {
        MarkLines {
            run,
            count: run.endings().len(),
        }
    }
}

impl<'a, E: Ended> Lines for MarkLines<'a, E> {
    ghost lines = { λ m. lines_of_marks (E.plans m.run.now) (E.base m.run.now) (E.past m.run.now) };

    ghost fits = { λ m. E.fits m.run.now };

    fn count(&self) -> usize {
        self.count
    }

    fn make(&self, index: usize, sheet: &mut Sheet) {
        sheet.put_mark(&self.run.endings()[index], self.run.mark(index));
    }
}
