// Stages that have the same groups green.
ghost use Rattle.std.specs.Prelude.{◌≡◌, ◌<◌, ◌≤◌, ◌+◌, ◌++◌, filter_map, length, OnOk};
ghost use Rattle.pua_model.specs.Plan.{HasStage, groups_in};
ghost use Rattle.sig_types.specs.Words.{tabulate};
ghost use Rattle.plan_check.specs.Warnings as listed;

use crate::warnings::PlanWarning;
use pua_model::Plan;
use sig_types::{GroupNo, StageNo};
use std::alloc::AllocError;

// Whether the group is green in one of the two stages alone.
fn is_green_in_one(plan: &Plan, a: StageNo, b: StageNo, group: GroupNo) -> bool
    requires first { HasStage plan.now a.0 }
    requires second { HasStage plan.now b.0 }
    requires group { group.0 < groups_in plan.now }
    ensures { result ≡ listed.is_green_in_one plan.now a.0 b.0 group.0 }
{
    if plan.in_stage(a, group) {
        !plan.in_stage(b, group)
    } else {
        plan.in_stage(b, group)
    }
}

// Whether a group is green in one of the two stages alone.
#[tactic(auto, unfolding(crate::specs::Warnings::differ), using(crate::proofs::Listed::any_none, crate::proofs::Listed::any_more))]
fn differ(plan: &Plan, a: StageNo, b: StageNo) -> bool
    requires first { HasStage plan.now a.0 }
    requires second { HasStage plan.now b.0 }
    ensures { result ≡ listed.differ plan.now a.0 b.0 }
{
    let mut any = false;
    for g in 0..plan.groups() {
        let here = is_green_in_one(plan, a, b, GroupNo(g));
        any = any || here;
    }
    any
}

// The warning of two stages that have the same groups green.
fn same(plan: &Plan, a: StageNo, b: StageNo) -> Option<PlanWarning>
    requires first { HasStage plan.now a.0 }
    requires second { HasStage plan.now b.0 }
    ensures { result ≡ listed.same_warning plan.now a.0 b.0 }
{
    if differ(plan, a, b) {
        None
    } else {
        Some(PlanWarning::SameGreens(a, b))
    }
}

// Warns of the stages before stage b that have the same groups green.
#[tactic(auto, unfolding(crate::specs::Warnings::same_before), using(crate::proofs::Listed::steps))]
fn warn_of_greens_with(
    plan: &Plan,
    b: StageNo,
    warnings: &mut Vec<PlanWarning>,
) -> Result<(), AllocError>
    requires { HasStage plan.now b.0 }
    ensures { OnOk result (warnings.new.items ≡ warnings.old.items ++ listed.same_before plan.now b.0) }
{
    for s in 0..b.0 - 1 {
        if let Some(warning) = same(plan, StageNo(s + 1), b) {
            warnings.push(warning)?;
        }
    }
    Ok(())
}

/// Warns of the stages that have the same groups green as one before them.
#[tactic(auto, unfolding(crate::specs::Warnings::same_greens))]
pub(crate) fn warn_of_greens(plan: &Plan, warnings: &mut Vec<PlanWarning>) -> Result<(), AllocError>
    ensures { OnOk result (warnings.new.items ≡ warnings.old.items ++ listed.same_greens plan.now) }
{
    for s in 0..plan.stages() {
        warn_of_greens_with(plan, StageNo(s + 1), warnings)?;
    }
    Ok(())
}
