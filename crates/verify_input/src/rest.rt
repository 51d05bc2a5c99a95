ghost use Rattle.std.specs.Prelude.{◌≡◌, ◌≢◌, ◌+◌, ◌≤◌, List, ◌∷◌, [], length, OnOk, OnErr, IfErr};
ghost use Rattle.std.specs.List.{All};

use crate::cut::behind_line;
use crate::what::What;
use gpu_word::Memory;
use journal_text::{Lines, Sheet};

/// The most bytes of an input with a whole output.
pub const MOST_WHOLE_BYTES: usize = 67_108_864;

/// Why an output is not judged to be right.
#[derive(Drop)]
pub(crate) enum Bad {
    /// This line is the first that is off.
    Off { line: u32, what: What },
    /// Out of memory.
    Memory(Memory),
}

impl From<Memory> for Bad {
    ghost use Rattle.verify_input.specs.declared.rest.Bad.TheVariants as bads;

    ghost from_gives = { λ memory e. e ≡ bads.Memory memory };

    fn from(memory: Memory) -> Bad {
        Bad::Memory(memory)
    }
}

/// What is left of an output, and the number of the line with which it begins.
#[derive(Clone, Copy)]
pub(crate) struct Rest<'a> {
    pub(crate) text: &'a [u8],
    pub(crate) line: u32,
    ghost short: { line + length text.now ≤ 67108865 },
}

impl Rest<'_> {
    ghost use Rattle.gpu_plan.specs.Plans.{PlansData};
    ghost use Rattle.gpu_journal.specs.declared.event.Event.{Event};
    ghost use Rattle.verify_input.specs.Cuts.{IsLine};
    ghost use Rattle.verify_input.specs.Due.{same_lines};
    ghost use Rattle.verify_input.specs.Taking.{Judges, off_of};

    /// What is off where this is due and the text goes on otherwise.
    pub(crate) fn off(&self, what: What) -> Bad
        ensures { result ≡ off_of self.now what }
    {
        let what = if self.text.is_empty() {
            What::Missing
        } else {
            what
        };
        Bad::Off {
            line: self.line,
            what,
        }
    }

    /// Takes the line that is due, with its line feed.
    pub(crate) fn take(&mut self, due: &[u8], what: What) -> Result<(), Bad>
        requires line { IsLine due.now }
        requires other { what ≢ What.More }
        ensures { (p : PlansData) (h : List Event)
            → Judges p h (same_lines what (due.now ∷ [])) self.old self.new result }
    {
        let Some(text) = behind_line(self.text, due) else {
            return Err(self.off(what));
        };
        self.text = text;
        self.line += 1;
        Ok(())
    }

    /// Takes lines that are due, one after the other. Each is made on the sheet alone.
    pub(crate) fn take_all<L: Lines>(
        &mut self,
        sheet: &mut Sheet,
        lines: &L,
        what: What,
    ) -> Result<(), Bad>
        requires fits { L.fits lines.now }
        requires each { All IsLine (L.lines lines.now) }
        requires other { what ≢ What.More }
        ensures { (p : PlansData) (h : List Event)
            → Judges p h (same_lines what (L.lines lines.now)) self.old self.new result }
    {
        for index in 0..lines.count() {
            sheet.clear();
            lines.make(index, sheet);
            self.take(sheet.bytes(), what)?;
        }
        Ok(())
    }

    /// Sees that nothing is left.
    pub(crate) fn end(&self) -> Result<(), Bad>
        ensures ok { OnOk result (self.now.text.now ≡ []) }
        ensures err { IfErr result (λ bad. bad ≡ Bad.Off self.now.line What.More) }
        ensures more { OnErr result (self.now.text.now ≡ [] → ⊥) }
    {
        if self.text.is_empty() {
            return Ok(());
        }
        Err(self.off(What::More))
    }
}
