//! What follows from the definition of breaches, for every history: each law is a function whose contract states it.
ghost use Rattle.log_judge.specs.Laws.{NoBreachIsSafe, PartsHaveNone, NoBreachHasPast, RefusalsAreExplained, AnyPastSaysTheSame, FreeIsFreeFrom};
ghost use Rattle.log_judge.specs.Refused.{RefusalsAreBorneOut, EarliestAfterAmber, EarliestAfterRedAmber, EarliestEnd, EarliestStart, EarliestCleared};
ghost use Rattle.log_judge.specs.Earliest.{EarliestFree};

/// A history from an all-red second 0 on has no breach exactly where it is safe.
pub fn no_breach_is_safe()
    ensures { NoBreachIsSafe }
{}

/// No part of a safe history has a breach.
pub fn parts_have_none()
    ensures { PartsHaveNone }
{}

/// A part of a log without a breach has a past with which it is safe.
pub fn no_breach_has_past()
    ensures { NoBreachHasPast }
{}

/// The pictures of a run of the guard and its tables bear out each turn that it refuses.
pub fn refusals_are_borne_out()
    ensures { RefusalsAreBorneOut }
{}

/// Without further turns an end is too early before the second of the least green, and not from it on.
pub fn earliest_end()
    ensures { EarliestEnd }
{}

/// So is a start before the second of the least red.
pub fn earliest_start()
    ensures { EarliestStart }
{}

/// And a start before the second from which its green keeps the intergreen.
pub fn earliest_cleared()
    ensures { EarliestCleared }
{}

/// A start is kept back by some intergreen before the second of what is lacking most, and by none from it on.
pub fn earliest_free()
    ensures { EarliestFree }
{}

/// What a judge tells of a log of the guard's run, from its beginning on: each turn that the guard refuses is called borne out.
pub fn refusals_are_explained()
    ensures { RefusalsAreExplained }
{}

/// What a judge tells of a refused turn from a part of a log is so whatever was before it.
pub fn any_past_says_the_same()
    ensures { AnyPastSaysTheSame }
{}

/// The second that is told as the first free one of a refused start is the one before which some intergreen stands in the way.
pub fn free_is_free_from()
    ensures { FreeIsFreeFrom }
{}

/// Without further turns the sequence stands in the way of an end, or a start, up to the second in which red-amber, or amber, is
/// over, and not behind it.
pub fn earliest_in_sequence()
    ensures of_ends { EarliestAfterRedAmber }
    ensures of_starts { EarliestAfterAmber }
{}
