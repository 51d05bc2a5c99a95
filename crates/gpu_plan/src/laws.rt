ghost use Rattle.gpu_plan.specs.Laws.{ValueOneFurther, FlushesOneFurther, FlushesWithin, BoundOneFurther, PassesOn, PassesOnByGreatest, BoundGrows, BoundGrowsByToken, BoundGrowsByGreatest, BoundByGreatest, PassesBelowBound, StopsAtBound, BoundWithin, BoundIsFirst, NamesAreLawful, MayHoldBetween, MayHoldBehindFlush, MayHoldFits};

/// The laws of one action further: what it changes of a place's value, of the flushes done and of how far a client is.
pub fn one_further()
    ensures value { ValueOneFurther }
    ensures flushes { FlushesOneFurther }
    ensures within { FlushesWithin }
    ensures bound { BoundOneFurther }
{}

/// The law that what passes goes on passing, so that the bound of a client never falls, and that of a list of tokens
/// only the greatest counts for it.
pub fn bound_never_falls()
    ensures passes { PassesOn }
    ensures passes_greatest { PassesOnByGreatest }
    ensures grows { BoundGrows }
    ensures token { BoundGrowsByToken }
    ensures greatest { BoundGrowsByGreatest }
    ensures one { BoundByGreatest }
{}

/// The law that the bound of a client is the first position whose action does not pass.
pub fn bound_is_first()
    ensures below { PassesBelowBound }
    ensures at { StopsAtBound }
    ensures within { BoundWithin }
    ensures only { BoundIsFirst }
{}

/// The law that no two streams of a script have the same name, and that in version 1 stream S has the name (0, S).
pub fn names_are_lawful()
    ensures names { NamesAreLawful }
{}

/// The laws of what a client may have put: ends that are further apart shut out no value, a flush puts none, and each
/// value has 32 bits.
pub fn held_values()
    ensures wider { MayHoldBetween }
    ensures behind { MayHoldBehindFlush }
    ensures fits { MayHoldFits }
{}
