ghost use Rattle.serial_laws.specs.Outs.{OtherGoesOn, OrderGoesOn, StepGoesOn, StepRuns, NeedsOfOne, DrawnFew, ClosedHasOrdered, ClosedIsKept, NextIsOpen, AllAtHome, NoneAtHome, SchedulerChooses};

/// The law of a run that is out, while its stream is open: its number stays the first, and no wait of it comes to pend
/// but by a step of its own, which pauses the run. After such a step its stream can run exactly where no wait was kept.
#[tactic(auto, using(crate::proofs::Going::other_goes_on, crate::proofs::Going::order_goes_on, crate::proofs::Going::step_goes_on, crate::proofs::Runs::step_runs))]
pub fn runs_go_on()
    ensures other { OtherGoesOn }
    ensures order { OrderGoesOn }
    ensures step { StepGoesOn }
    ensures runs { StepRuns }
{}

/// The law of the room that streams may still need: an event changes that of its own stream alone.
#[tactic(auto, using(crate::proofs::Needs::needs_event))]
pub fn needs_change_by_one_stream()
    ensures { NeedsOfOne }
{}

/// The law of order numbers: a legal history draws no more than 100,000, as a script has no more flushes.
#[tactic(auto, using(crate::proofs::Drawn::drawn_few))]
pub fn few_numbers_are_drawn()
    ensures { DrawnFew }
{}

/// The law of streams that have ended, after a legal history: a closed stream has ordered all its flushes and is not lost,
/// so that a stream with a flush to order is open unless it is lost.
#[tactic(auto, using(crate::proofs::Ended::closed_ordered, crate::proofs::Ended::closed_kept, crate::proofs::Ended::next_open))]
pub fn closed_streams_have_ordered_all()
    ensures ordered { ClosedHasOrdered }
    ensures kept { ClosedIsKept }
    ensures next { NextIsOpen }
{}

/// The law of the choice among the streams that are at home: with all at home it is that of the rule for one thread, it is
/// none exactly where none of them can run, and it is the scheduler's.
#[tactic(auto, using(crate::proofs::Choosing::all_home, crate::proofs::Choosing::none_at_home, crate::proofs::Choosing::scheduler_chooses))]
pub fn choices_agree()
    ensures all { AllAtHome }
    ensures none { NoneAtHome }
    ensures scheduler { SchedulerChooses }
{}
