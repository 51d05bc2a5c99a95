ghost use Rattle.gpu_hall.specs.Laws.{StepsGrow, ReturnsGrow};

/// The laws of a commit: the journal loses no event, and gets at most one for each command of the batch, and one more where the run
/// comes home.
pub fn commits_grow_the_journal()
    ensures steps { StepsGrow }
    ensures returns { ReturnsGrow }
{}
