ghost use Rattle.verify_input.specs.Reading.{RefusedIsNoJournal, JournalIsOne};
ghost use Rattle.verify_input.specs.Laws.{FindingIsOne, WholeFindingIsOne};

/// The law of findings: one alone is that of an input, so each answer comes exactly where its definition holds.
#[tactic(auto, using(crate::proofs::Onlys::finding_is_one))]
pub fn findings_exclude_one_another()
    ensures { FindingIsOne }
{}

/// The law of findings of whole outputs: one alone is that of an input with a whole output, so each answer comes exactly
/// where its definition holds.
#[tactic(auto, using(crate::proofs::OnlyWholes::whole_finding_is_one))]
pub fn whole_findings_exclude_one_another()
    ensures { WholeFindingIsOne }
{}

/// The law of reading: a text with a line that is no event's is no journal text, and a journal text is that of one list
/// of events alone.
#[tactic(auto, using(crate::proofs::Lines::refused_is_no_journal, crate::proofs::Lines::journal_is_one))]
pub fn journal_texts_are_told_apart()
    ensures refused { RefusedIsNoJournal }
    ensures one { JournalIsOne }
{}
