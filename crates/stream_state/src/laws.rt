ghost use Rattle.stream_state.specs.Laws.{StepIsBounded, StepsMoveOn, StatesAreBounded, ResultsAreLastWritten, WritesRise, WritesAreThere};
ghost use Rattle.stream_state.specs.Told.{EffectsTell, ReleasesRise};
ghost use Rattle.stream_state.specs.Judged.{CopyRefuses, StateRefuses, CommandPasses, VerdictPassed, VerdictTaken};

/// The law of a stream's state: after any steps that were taken in turn, the state that they leave is within its bounds,
/// which each step keeps. Each step consumes an entry and fetches a word at least, so a stream has a last step.
pub fn states_are_bounded()
    ensures step { StepIsBounded }
    ensures moves { StepsMoveOn }
    ensures steps { StatesAreBounded }
{}

/// The law of results: a result place has the last value that was written to it, and a step writes each place once, in
/// rising order, within the stream's result memories.
pub fn results_are_the_last_written()
    ensures last { ResultsAreLastWritten }
    ensures rise { WritesRise }
    ensures there { WritesAreThere }
{}

/// The law of effects: what a step does to the token, the release count and the result places stands in its effect. The
/// token is the last one, and the release count never falls.
pub fn effects_tell_all()
    ensures tell { EffectsTell }
    ensures rise { ReleasesRise }
{}

/// The law of verdicts: checks 1 to 10 decide first, then checks 11 and 12 on the command; a verdict that is a command
/// lets a step take the words.
pub fn verdicts_follow_checks()
    ensures copy { CopyRefuses }
    ensures state { StateRefuses }
    ensures passes { CommandPasses }
    ensures passed { VerdictPassed }
    ensures taken { VerdictTaken }
{}
