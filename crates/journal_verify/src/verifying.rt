ghost use Rattle.std.specs.Prelude.{◌<◌, ◌^◌, length, reverse, IfOk};
ghost use Rattle.journal_verify.specs.Answers.{VerdictSays};

use crate::judge::Judge;
use crate::verdict::Verdict;
use gpu_journal::Journal;
use gpu_plan::Plans;
use gpu_word::Memory;
use serial_laws::plans_are_lawful;
use std::alloc::Global;

/// Whether events, the oldest first, are a legal and complete history of these plans.
///
/// No: exactly at the first event that breaks a rule, with the least rule that it breaks. NotComplete: exactly where all
/// events are legal and some stream is not done. Yes: else, with the images that the history leaves.
pub fn verify(alloc: Global, plans: &Plans, journal: &Journal) -> Result<Verdict, Memory>
    requires { length journal.now.events < 2 ^ 32 }
    ensures { IfOk result (λ verdict. VerdictSays plans.now (reverse journal.now.events) verdict) }
{
    plans_are_lawful(plans);
    let mut judge = Judge::make(alloc, plans)?;
    for index in 0..journal.count() {
        if let Some(rule) = judge.take(plans, &journal.event(index))? {
            let event = index as u32 + 1;
            return Ok(Verdict::No { event, rule });
        }
    }
    if judge.is_complete(plans) {
        return Ok(Verdict::Yes(judge.into_images()));
    }
    Ok(Verdict::NotComplete)
}
