//! How soon the guard shows what is wished of the groups, whatever has been.
//!
//! `specs/Onward` has the history that the guard makes second by second, `specs/Bounds` the seconds that a site's numbers give,
//! and `specs/Laws` what is proved of both. Functions without a body state a law by their contracts; `shown_within` and
//! `worst_case` compute the bound of a site.
#![tactic(auto)]

mod bound;
mod worst;

ghost use Rattle.sig_response.specs.Refusals.{NeverBlocksWithoutNeed, OnAsWished, ShownAtOnce};
ghost use Rattle.sig_response.specs.Fastest.{NotRedSooner, NotGreenSooner, NotFreeSooner, BoundIsReached};
ghost use Rattle.sig_response.specs.Laws.{TurnsRed, TurnsGreen, ShowsWhatIsWished, GuardsRespond, FirstStays};
ghost use Rattle.sig_response.specs.Rest.{ShowsSoonerAtRest, ComesToRest};

pub use worst::{Cause, WorstCase, shown_within, worst_case};

/// A group of which red is wished turns red in time, and stays red.
pub fn wished_red_turns_red()
    ensures { TurnsRed }
{}

/// A group of which green is wished, and red of the groups in conflict with it, turns green in time, and stays green.
pub fn wished_green_turns_green()
    ensures { TurnsGreen }
{}

/// Where the same is wished in each second, and green of no two groups in conflict, all of it is shown in time, and stays.
pub fn what_is_wished_is_shown()
    ensures histories { ShowsWhatIsWished }
    ensures guards { GuardsRespond }
{}

/// Where every group rests, and no minimum green, minimum red or intergreen holds it back, it is shown sooner. A history comes to
/// such a rest in time.
pub fn what_is_wished_is_shown_sooner_at_rest()
    ensures sooner { ShowsSoonerAtRest }
    ensures rest { ComesToRest }
{}

/// Of two groups in conflict that are both wished green for ever the one that has started stays, and the other one never starts.
pub fn the_first_of_two_in_conflict_stays()
    ensures { FirstStays }
{}

/// No controller that keeps the rules is faster, and at every site there is a case in which the bound is reached.
pub fn no_controller_is_faster()
    ensures red { NotRedSooner }
    ensures green { NotGreenSooner }
    ensures free { NotFreeSooner }
    ensures reached { BoundIsReached }
{}

/// Each wished turn is made in its second, or refused by a rule that it would break: the guard never blocks without need.
pub fn nothing_is_blocked_without_need()
    ensures { NeverBlocksWithoutNeed }
{}

/// After a second in which no turn is refused each group shows what is wished of it once its red-amber or its amber is over.
pub fn what_is_not_refused_is_shown()
    ensures at_once { OnAsWished }
    ensures in_the_end { ShownAtOnce }
{}
