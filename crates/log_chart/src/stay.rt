// The spans of a run at its stages and in its interstages: its stays.
ghost use Rattle.std.specs.Prelude.{◌≡◌, ◌+◌, ◌≤◌, ℕ, OnOk, OnErr};
ghost use Rattle.sig_types.specs.declared.numbers.StagePlace.{StagePlace};
ghost use Rattle.log_chart.specs.Spans.{AreSpans};
ghost use Rattle.log_chart.specs.Stays.{without_second};

use crate::{Span, show};
use sig_types::{Memory, Second, StagePlace};

/// The stage, or the interstage in its second 0.
pub fn without_second(place: StagePlace) -> StagePlace
    ensures { result ≡ without_second place }
{
    match place {
        StagePlace::NoPlan => StagePlace::NoPlan,
        StagePlace::Stage(stage) => StagePlace::Stage(stage),
        StagePlace::Inter { from, to, t: _ } => StagePlace::Inter { from, to, t: 0 },
    }
}

/// Puts the place of one second more to the stays: these are then the stays up to that second.
///
/// It answers `Memory` where there is no room for one more, and the stays are as before.
pub fn add_stay(
    stays: &mut Vec<Span<StagePlace>>,
    second: Second,
    place: StagePlace,
) -> Result<(), Memory>
    ensures stayed { OnOk result ((a : ℕ → StagePlace) (from : ℕ) → from ≤ second.0 → a second.0 ≡ without_second place →
        AreSpans a from second.0 stays.old.items → AreSpans a from (second.0 + 1) stays.new.items) }
    ensures stays { OnErr result (stays.new.items ≡ stays.old.items) }
{
    show(stays, second, without_second(place))
}
