ghost use Rattle.std.specs.Prelude.{map};
ghost use Rattle.run_output.specs.Parts.{look_text};

use journal_text::{Lines, Sheet};
use live_view::Look;

/// A line for each look of a viewer: its number of events, and its sum.
#[derive(Drop)]
pub(crate) struct LookLines<'a> {
    pub(crate) viewer: u32,
    pub(crate) looks: &'a [Look],
}

impl<'a> Lines for LookLines<'a> {
    ghost lines = { λ l. map (look_text l.viewer) l.looks.now };

    fn count(&self) -> usize {
        self.looks.len()
    }

    fn make(&self, index: usize, sheet: &mut Sheet) {
        let look = self.looks[index];
        sheet.put_view(self.viewer, look.events, look.sum);
    }
}
