ghost use Rattle.std.specs.Prelude.{map};
ghost use Rattle.run_output.specs.Parts.{dump_read_text};

use journal_text::{Lines, Sheet};

/// A line for each dump of a stream that its client has read: action place, result place and value.
#[derive(Drop)]
pub(crate) struct DumpLines<'a> {
    pub(crate) stream: u32,
    pub(crate) dumps: &'a [(u32, u32, u32)],
}

impl<'a> Lines for DumpLines<'a> {
    ghost lines = { λ d. map (dump_read_text d.stream) d.dumps.now };

    fn count(&self) -> usize {
        self.dumps.len()
    }

    fn make(&self, index: usize, sheet: &mut Sheet) {
        let (place, found, value) = self.dumps[index];
        sheet.put_dump(self.stream, place, found, value);
    }
}
