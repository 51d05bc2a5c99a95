ghost use Rattle.serial_laws.specs.Laws.{PlayedIsLegal, PlayedWantsNoMemory, EndsWhereComplete, UnfinishedGoesOn, UnfinishedHasEvent, LegalCanBeFinished, LegalIsBounded, MostEventsAreFew, SerialIsPlayed, SerialIsAlone, SerialIsLegal, SerialIsComplete, SerialWantsNoMemory};

/// The law of the rule for one thread: each event that it gives after a history that it gave is legal there, and none is
/// a loss as out of memory.
#[tactic(auto, using(crate::proofs::Obeying::played_is_legal, crate::proofs::Choices::played_wants_no_memory))]
pub fn played_histories_are_legal()
    ensures legal { PlayedIsLegal }
    ensures memory { PlayedWantsNoMemory }
{}

/// The law of the end:
/// - after a legal history the rule for one thread gives no event exactly where the history is complete
/// - after a legal history that is not complete some event is legal that is no loss as out of memory
/// - where no number is left, an open stream has a flush to order that its client can come to, or it may close
#[tactic(auto, using(crate::proofs::Ends::ends_where_complete, crate::proofs::Ends::unfinished_goes_on, crate::proofs::Further::unfinished_has_event))]
pub fn histories_go_on_until_complete()
    ensures ends { EndsWhereComplete }
    ensures further { UnfinishedGoesOn }
    ensures event { UnfinishedHasEvent }
{}

/// The law that every legal history ends: of each stream it has at most an order and a finish for each flush, a step for
/// each entry of the ring and each flush, and one end. That is 409,800,016 at most. And each can be finished: later events
/// make it complete, none of them a loss as out of memory.
#[tactic(auto, using(crate::proofs::Bounded::legal_is_bounded, crate::proofs::Few::most_events_are_few, crate::proofs::Finished::legal_can_be_finished))]
pub fn legal_histories_end()
    ensures bounded { LegalIsBounded }
    ensures few { MostEventsAreFew }
    ensures finished { LegalCanBeFinished }
{}

/// The law that the rule for one thread has one history, the serial one.
#[tactic(auto, using(crate::proofs::Bounded::serial_is_played, crate::proofs::Bounded::serial_is_alone))]
pub fn one_history_is_serial()
    ensures there { SerialIsPlayed }
    ensures alone { SerialIsAlone }
{}

/// The law of the serial history: it is legal and complete, and it has no loss as out of memory.
#[tactic(auto, using(crate::proofs::Bounded::serial_is_legal, crate::proofs::Bounded::serial_is_complete, crate::proofs::Bounded::serial_wants_no_memory))]
pub fn serial_history_is_legal_and_complete()
    ensures legal { SerialIsLegal }
    ensures complete { SerialIsComplete }
    ensures memory { SerialWantsNoMemory }
{}
