ghost use Rattle.std.specs.Prelude.{◌≡◌, ◌≤◌, length};
ghost use Rattle.journal_text.specs.Parts.{heads};
ghost use Rattle.gpu_plan.specs.declared.adding.TheConstants.{MOST_STREAMS};

use crate::lines::Lines;
use crate::sheet::Sheet;
use gpu_plan::Plans;

/// The head line of a script of version 2, and the line of each stream's name.
#[derive(Drop)]
pub struct NameLines<'a> {
    pub plans: &'a Plans,
    pub count: u32,
    ghost counted: { count ≡ length plans.now.plans },
    ghost few: { count ≤ MOST_STREAMS },
}

impl<'a> NameLines<'a> {
    /// The lines of a script's streams.
    pub fn of(plans: &'a Plans) -> NameLines<'a>
        ensures { result.plans.now ≡ plans.now }
    {
        NameLines {
            plans,
            count: plans.count(),
        }
    }
}

impl<'a> Lines for NameLines<'a> {
    ghost lines = { λ n. heads n.plans.now };

    fn count(&self) -> usize {
        self.count as usize + 1
    }

    fn make(&self, index: usize, sheet: &mut Sheet) {
        if index == 0 {
            sheet.put_head();
        } else {
            let stream = index as u32;
            sheet.put_name(stream, self.plans.name(stream));
        }
    }
}
