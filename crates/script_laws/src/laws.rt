ghost use Rattle.script_laws.specs.Laws.{ScriptsAreLawful, ScriptsRunLegally, ScriptsRunToTheEnd, DumpsMayBeTold, LaterMayBeTold, NoneRunsWaiting, RunsAfterEndings, FinishedHaveEnded, NoneIsForgotten, NoneIsBoth, EndingsHaveCauses, CompleteWaitsForNone, SameOutputIsSameHistory, SameRunIsSameHistory, SameThreadedRunIsSameHistory, SerialIsShort, SixAlwaysHolds};

/// The law of scripts: the plans of each text that is a script are lawful, so its serial history is legal and complete.
#[tactic(auto, using(crate::proofs::Scripts::scripts_are_lawful, crate::proofs::Runs::scripts_run_legally, crate::proofs::Runs::scripts_run_to_the_end))]
pub fn scripts_are_lawful()
    ensures lawful { ScriptsAreLawful }
    ensures legal { ScriptsRunLegally }
    ensures complete { ScriptsRunToTheEnd }
{}

/// The law of dumps: the dump lines of a serial history say what a client may have found once its await had
/// passed; and what it would have found at any later moment may be told as well.
#[tactic(auto, using(crate::proofs::Dumps::dumps_may_be_told, crate::proofs::Dumps::later_may_be_told))]
pub fn dumps_may_be_told()
    ensures serial { DumpsMayBeTold }
    ensures later { LaterMayBeTold }
{}

/// The law of kept waits:
/// - no step, finish or loss by an error of a stream comes while a kept wait of its first number is pending
/// - when it comes, and ever after the finish, each kept wait of that number has exactly one ending
/// - while a number is unprocessed each of its kept waits is pending or has ended, and none is both
/// - each ending has the event that made it
/// - after a legal and complete history no wait is pending
#[tactic(auto, using(crate::proofs::Waits::none_runs_waiting, crate::proofs::Waits::runs_after_endings, crate::proofs::Waits::finished_have_ended, crate::proofs::Both::none_is_forgotten, crate::proofs::Both::none_is_both, crate::proofs::Waits::endings_have_causes, crate::proofs::Waits::complete_waits_for_none))]
pub fn kept_waits_are_followed()
    ensures waiting { NoneRunsWaiting }
    ensures ended { RunsAfterEndings }
    ensures finished { FinishedHaveEnded }
    ensures forgotten { NoneIsForgotten }
    ensures both { NoneIsBoth }
    ensures causes { EndingsHaveCauses }
    ensures complete { CompleteWaitsForNone }
{}

/// The law of the whole output: it tells its history, in either version, and with no look at the script. So does an output
/// with the lines of its dumps after it, which is what a run on one thread prints, or with those of any run on threads.
#[tactic(auto, using(crate::proofs::Outputs::same_output_is_same_history, crate::proofs::Outputs::same_run_is_same_history, crate::proofs::Outputs::same_threaded_run_is_same_history))]
pub fn outputs_tell_histories()
    ensures output { SameOutputIsSameHistory }
    ensures dumps { SameRunIsSameHistory }
    ensures threads { SameThreadedRunIsSameHistory }
{}

/// The law of the number of events: the serial history of a script has no more than any legal one may have.
#[tactic(auto, using(crate::proofs::Events::serial_is_short))]
pub fn serial_histories_are_short()
    ensures { SerialIsShort }
{}

/// The law of rule 6: after a legal history the client of a stream that can run has always come to the flush of its first
/// number, or can have.
#[tactic(auto, using(crate::proofs::Six::six_always_holds))]
pub fn rule_six_always_holds()
    ensures { SixAlwaysHolds }
{}
