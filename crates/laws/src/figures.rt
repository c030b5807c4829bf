//! What two forms of `log_report`, and two parts of a log, tell of the same seconds.
ghost use Rattle.laws.specs.LongestRuns.{LongestRunsAgree};
ghost use Rattle.laws.specs.NeighbouringParts.{NeighboursAddUp};

/// The longest run of a refusal is one number, whether `sums` tells it or `refusals`.
pub fn longest_runs_agree()
    ensures { LongestRunsAgree }
{}

/// The sums and the counts of neighbouring parts add up to those of both.
pub fn neighbours_add_up()
    ensures { NeighboursAddUp }
{}
