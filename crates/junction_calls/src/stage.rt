// The stage commands that the last second refused.
ghost use Rattle.std.specs.Prelude.{◌≡◌};
ghost use Rattle.junction_calls.specs.Named.{IsStageTold};

use crate::handle::{Junction, keep, take};
use std::alloc::Global;

/// A refused stage command.
#[repr(C)]
#[derive(Clone, Copy)]
pub struct RefusedStage {
    pub from: u8,
    pub to: u8,
    pub rule: u8,
}

/// Tells the refused stage command of the last second at that place. 0: it is told; 4: there is none, or the handle holds
/// nothing.
pub fn refused_stage(
    handle: &mut Junction,
    alloc: Global,
    place: usize,
    told: &mut RefusedStage,
) -> u32
    ensures same { handle.new.value ≡ handle.old.value }
    ensures told { IsStageTold handle.old.value place result told.old told.new }
{
    match take(handle, alloc) {
        None => 4,
        Some(controller) => {
            let stages = &controller.last().stages;
            let there = place < stages.len();
            if there {
                let refusal = stages.get(place);
                *told = RefusedStage {
                    from: refusal.from.0,
                    to: refusal.to.0,
                    rule: refusal.rule.number(),
                };
            }
            *handle = keep(controller);
            if there { 0 } else { 4 }
        }
    }
}
