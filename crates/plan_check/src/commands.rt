// Stages that the plan's interstages leave and reach, and no command of a program does.
ghost use Rattle.std.specs.Prelude.{◌≡◌, ◌+◌, ◌++◌, filter_map, length, OnOk};
ghost use Rattle.std.specs.List.{list_any};
ghost use Rattle.sig_types.specs.Words.{tabulate};
ghost use Rattle.plan_check.specs.Commands as commands;
ghost use Rattle.plan_check.specs.Warnings as listed;

use crate::warnings::PlanWarning;
use crate::ways::{is_left, is_reached};
use pua_model::Plan;
use sig_types::StageNo;
use std::alloc::AllocError;

// Whether a command leads from the stage.
fn leads_from(ways: &[(i32, i32)], stage: StageNo) -> bool
    ensures { result ≡ commands.leads_from ways.now stage.0 }
{
    ways.iter().any(|way| way.0 == i32::from(stage.0))
}

// Whether a command leads to the stage.
fn leads_to(ways: &[(i32, i32)], stage: StageNo) -> bool
    ensures { result ≡ commands.leads_to ways.now stage.0 }
{
    ways.iter().any(|way| way.1 == i32::from(stage.0))
}

// Whether an interstage leads to the stage, no command does, and the run does not start in it.
fn is_never_reached(plan: &Plan, ways: &[(i32, i32)], stage: StageNo) -> bool
    ensures { result ≡ listed.is_never_reached plan.now ways.now stage.0 }
{
    is_reached(plan, stage) && !leads_to(ways, stage) && stage != plan.start()
}

// Whether an interstage leads from the stage, and no command does.
fn is_never_left(plan: &Plan, ways: &[(i32, i32)], stage: StageNo) -> bool
    ensures { result ≡ listed.is_never_left plan.now ways.now stage.0 }
{
    is_left(plan, stage) && !leads_from(ways, stage)
}

// The warning of a stage that no command reaches or, where one does, that none leaves.
fn unused(plan: &Plan, ways: &[(i32, i32)], stage: StageNo) -> Option<PlanWarning>
    ensures { result ≡ listed.command_warning plan.now ways.now stage.0 }
{
    if is_never_reached(plan, ways, stage) {
        Some(PlanWarning::StageNeverReached(stage))
    } else if is_never_left(plan, ways, stage) {
        Some(PlanWarning::StageNeverLeft(stage))
    } else {
        None
    }
}

// Whether a command names a stage that the plan doesn't have.
fn is_strange(plan: &Plan, from: i32, to: i32) -> bool
    ensures { result ≡ listed.is_strange plan.now (from, to) }
{
    !(plan.find_stage(from).is_some() && plan.find_stage(to).is_some())
}

fn are_strange(plan: &Plan, ways: &[(i32, i32)]) -> bool
    ensures { result ≡ list_any (listed.is_strange plan.now) ways.now }
{
    ways.iter().any(|way| is_strange(plan, way.0, way.1))
}

// Warns of the stages that none of these commands reaches or leaves.
#[tactic(auto, using(crate::proofs::Listed::steps))]
fn warn_of_stages(
    plan: &Plan,
    ways: &[(i32, i32)],
    warnings: &mut Vec<PlanWarning>,
) -> Result<(), AllocError>
    ensures { OnOk result (warnings.new.items ≡ warnings.old.items
        ++ filter_map (listed.command_warning plan.now ways.now) (tabulate (λ k. k + 1) (length plan.now.stages))) }
{
    for s in 0..plan.stages() {
        if let Some(warning) = unused(plan, ways, StageNo(s + 1)) {
            warnings.push(warning)?;
        }
    }
    Ok(())
}

/// Warns of the stages that no command reaches or leaves, where all commands name stages of the plan.
#[tactic(auto, unfolding(crate::specs::Warnings::command_warnings))]
pub(crate) fn warn_of_commands(
    plan: &Plan,
    ways: &[(i32, i32)],
    warnings: &mut Vec<PlanWarning>,
) -> Result<(), AllocError>
    ensures { OnOk result (warnings.new.items ≡ warnings.old.items ++ listed.command_warnings plan.now ways.now) }
{
    if are_strange(plan, ways) {
        return Ok(());
    }
    warn_of_stages(plan, ways, warnings)
}
