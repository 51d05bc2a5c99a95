ghost use Rattle.journal_verify.specs.Dumped.{LastHeldMayBeTold, ToldWasLastHeld};
ghost use Rattle.journal_verify.specs.Laws.{SixIsNeverFirst, WrongIsIllegal, RuleIsOne};

/// The laws of verdicts:
/// - rule 6 is never the first that an event breaks after a legal history, since the client of a stream with a number can
///   always have come to its flush
/// - a list of events with one that breaks a rule is no legal history
/// - one rule alone is the first that an event breaks
#[tactic(auto, using(crate::proofs::Firsts::six_is_never_first))]
pub fn verdicts_exclude_one_another()
    ensures six { SixIsNeverFirst }
    ensures wrong { WrongIsIllegal }
    ensures one { RuleIsOne }
{}

/// The law of dumps: a value may be told of one exactly where its place last had it after as many finishes as flushes stand
/// before the dump.
#[tactic(auto, using(crate::proofs::Dumping::last_held_may_be_told, crate::proofs::Dumping::told_was_last_held))]
pub fn dumps_tell_what_was_held()
    ensures may { LastHeldMayBeTold }
    ensures only { ToldWasLastHeld }
{}
