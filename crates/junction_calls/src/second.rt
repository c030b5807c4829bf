// A second of what a handle holds.
ghost use Rattle.std.specs.Prelude.{◌≡◌, Some, None};
ghost use Rattle.std.specs.Option.{MatchOption};
ghost use Rattle.controller.specs.Controls.{StandsFor};
ghost use Rattle.controller.specs.Past.{Past};
ghost use Rattle.controller.specs.declared.controller.Controller.{Controller as ControllerOf};
ghost use Rattle.junction_calls.specs.Numbers.{IsPlaying};
ghost use Rattle.junction_calls.specs.Seconds.{IsSecond};

use crate::counts::{DetectorCounts, frame_of};
use crate::handle::{Junction, keep, take};
use crate::told::{Told, told_of};
use controller::Controller;
use std::alloc::Global;

// One second with these counts, if they are taken.
fn step(controller: &mut Controller, counts: &DetectorCounts, told: &mut Told) -> bool
    requires { (past : Past) × StandsFor controller.old past }
    ensures second { (past : Past) → StandsFor controller.old past → IsSecond counts.now controller.old past result controller.new told.old told.new }
    ensures playing { (past : Past) × StandsFor controller.new past }
{
    let frame = frame_of(counts);
    let taken = controller.takes(&frame);
    if taken {
        controller.second(&frame);
        *told = told_of(controller.last());
    }
    taken
}

/// Makes a second of what a handle holds, with these counts. It takes no memory.
///
/// It answers whether the counts were taken. They are not where a rear comes before its front, where there are too many fronts,
/// and once a week is over; then nothing has changed. `None` is for a handle that holds nothing.
pub fn make_second(
    handle: &mut Junction,
    alloc: Global,
    counts: &DetectorCounts,
    told: &mut Told,
) -> Option<bool>
    requires { IsPlaying handle.old.value }
    ensures second { MatchOption result ((handle.old.value ≡ None) × (handle.new.value ≡ None) × (told.new ≡ told.old))
        (λ taken. (c : ControllerOf) × (d : ControllerOf) × (handle.old.value ≡ Some c) × (handle.new.value ≡ Some d)
        × ((past : Past) → StandsFor c past → IsSecond counts.now c past taken d told.old told.new)) }
    ensures playing { IsPlaying handle.new.value }
{
    match take(handle, alloc) {
        None => None,
        Some(mut controller) => {
            let taken = step(&mut controller, counts, told);
            *handle = keep(controller);
            Some(taken)
        }
    }
}
