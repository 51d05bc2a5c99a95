ghost use Rattle.script_answers.specs.Laws.{SameViewedRunIsSameHistory, RunIsJudgedWhole, WholeYesIsYes, WordsAreFew};
ghost use Rattle.script_answers.specs.Limits.{LimitsHaveTheirValues};

/// The law of what runs on threads print: it tells their history, whatever was read and seen during the run.
pub fn viewed_runs_tell_histories()
    ensures { SameViewedRunIsSameHistory }
{}

/// The law of whole outputs: what `run` writes of a script, `verify --whole` finds to be right after that script.
pub fn runs_are_judged_whole()
    ensures { RunIsJudgedWhole }
{}

/// The law of both judgements: a yes of `verify --whole` is a yes of `verify` on the script and the journal in its input.
pub fn whole_yes_is_yes()
    ensures { WholeYesIsYes }
{}

/// The law of words: all events of a legal history have at most 17,891,328 together, so that 32 bits count them.
#[tactic(auto, using(crate::proofs::Words::words_are_few))]
pub fn legal_words_are_few()
    ensures { WordsAreFew }
{}

/// The law of limits: each constant of the code that a definition names is the number that the documents give.
#[tactic(auto, using(crate::proofs::Limits::limits_have_their_values))]
pub fn limits_have_their_values()
    ensures { LimitsHaveTheirValues }
{}
