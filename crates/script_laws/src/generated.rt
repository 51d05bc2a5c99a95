ghost use Rattle.script_laws.specs.Generated.{GeneratedIsScript, GeneratedIsShort, LossesAreLostStreams};

/// The law that each generated script is one: no line of it is refused, and it has four streams, in version 1.
pub fn generated_is_script()
    ensures script { GeneratedIsScript }
{}

/// The law that each generated script is within the limit of a script, 16,777,216 bytes.
pub fn generated_is_short()
    ensures short { GeneratedIsShort }
{}

/// The law that a legal history has as many losses as lost streams, so the line of a trial tells how many these are.
#[tactic(auto, using(crate::proofs::Losses::losses_are_lost_streams))]
pub fn losses_are_lost_streams()
    ensures { LossesAreLostStreams }
{}
