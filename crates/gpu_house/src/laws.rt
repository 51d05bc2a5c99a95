ghost use Rattle.gpu_house.specs.Laws.{NoneIsTaken, LeastRuns, NoWayBack};

/// The law of a house with all streams at home: none can be taken exactly where no stream has an unprocessed number.
#[tactic(auto, using(crate::proofs::Idle::none_is_taken))]
pub fn none_is_taken_where_no_number_is_left()
    ensures { NoneIsTaken }
{}

/// The law of the clause `targets`: the stream with the least unprocessed number can run.
#[tactic(auto, using(crate::proofs::Least::least_runs))]
pub fn the_least_number_can_run()
    ensures { LeastRuns }
{}

/// The law of the clause `no_cycle`: a wait never leads back to itself.
#[tactic(auto, using(crate::proofs::Least::no_way_back))]
pub fn no_wait_leads_back()
    ensures { NoWayBack }
{}
