ghost use Rattle.gpu_journal.specs.Folds.{StateIsFold, StateKeepsResults};

/// The law of a stream's history: its state is the fold of its steps, each with the answer of its image operation, and
/// keeps of each result place the last value that the history writes there.
#[tactic(auto, using(crate::proofs::Folding::state_is_fold, crate::proofs::Folding::state_keeps_results))]
pub fn states_are_folds_of_steps()
    ensures fold { StateIsFold }
    ensures results { StateKeepsResults }
{}
