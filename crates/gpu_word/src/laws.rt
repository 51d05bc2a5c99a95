ghost use Rattle.gpu_word.specs.Header.{SplitsJoined, JoinsSplit};

/// The law of headers: what was joined splits into the same parts, and what was split joins again.
pub fn header_round_trip()
    ensures splits { SplitsJoined }
    ensures joins { JoinsSplit }
{}
