ghost use Rattle.race_laws.specs.Laws.{StatesAreOwn, WorksAreFronts, WorksAgree, ConflictsDecide, OneResult, OneText, SerialShows, PremisesAgree, OverlapIsShared};

/// The law that the events of a stream alone say its state, but for how the images answered it.
#[tactic(auto, using(crate::proofs::Own::states_are_own))]
pub fn states_are_own()
    ensures { StatesAreOwn }
{}

/// The law that a settled stream does the same in every run:
/// - in all legal histories as far as they go
/// - in all legal and complete histories that lose no stream as out of memory, to the end
#[tactic(auto, using(crate::proofs::Agreeing::works_are_fronts, crate::proofs::Ending::works_agree))]
pub fn works_agree()
    ensures fronts { WorksAreFronts }
    ensures whole { WorksAgree }
{}

/// The law that conflicts decide the images: where every stream does the same in two histories, all images that are made fit
/// together, and steps that conflict stand in the same order, both leave the same images and states.
#[tactic(auto, using(crate::proofs::Outcomes::conflicts_decide))]
pub fn conflicts_decide()
    ensures { ConflictsDecide }
{}

/// The law that streams without a race have one result. Where one whole history shows no race, all show none, and leave the
/// same images and states. Between the journal and the marks they print the same.
///
/// It shows none where every stream is settled in it, no two steps of different streams conflict, and all images that are
/// made fit together.
pub fn one_result()
    ensures premises { PremisesAgree }
    ensures result { OneResult }
    ensures text { OneText }
{}

/// The law that the serial history shows it: where that shows no race, which one run on one thread tells, the output of every
/// whole history has the images and the stream lines of that run. Only its journal and its marks are its own.
#[tactic(auto, using(crate::proofs::Texts::serial_shows))]
pub fn the_serial_history_shows_it()
    ensures { SerialShows }
{}

/// The law of overlaps: the test of two rectangles says whether a texel lies in both.
#[tactic(auto, using(crate::proofs::Clashes::overlap_is_shared))]
pub fn overlaps_are_shared()
    ensures { OverlapIsShared }
{}
