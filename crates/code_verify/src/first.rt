// The first broken check, and the lowest place that breaks it.

ghost use Rattle.std.specs.Prelude.{◌≡◌, ◌+◌, ◌≤◌, IfOk, IfErr};
ghost use Rattle.vap_code.specs.Codes.{code_in};
ghost use Rattle.vap_code.specs.Valid.{Valid, Passed, HasShape, check_rank};
ghost use Rattle.code_verify.specs.First.{RefusedBy};
ghost use Rattle.code_verify.specs.declared.first.VerifyRefusal.TheVariants.{Memory};
ghost use Rattle.code_verify.specs.Tables.{IsTables};

use crate::checks::{fits, jump_inside, jumps_back_to_tick};
use crate::shape::has_shape;
use crate::tables::Tables;
use crate::verified::Verified;
use std::alloc::Global;
use thiserror::Error;
use vap_code::{Code, VerifyWhy};

/// Why a code was not accepted.
#[derive(Clone, Copy, Debug, Error)]
pub enum VerifyRefusal {
    /// Memory was wanted and could not be had.
    #[error("out of memory")]
    Memory,
    /// The first check that the code breaks, and the lowest place (counted from 0) that breaks it; 0 for the shape.
    #[error("the code is not valid")]
    At { place: u32, why: VerifyWhy },
}

/// Accepts exactly the valid codes. Any other is handed back, with the first check that it breaks: its shape
/// first, then the checks 1 to 8 in order, then the commands, and the lowest place that breaks it.
pub fn verify(alloc: Global, code: Code) -> Result<Verified, (Code, VerifyRefusal)>
    ensures accepted { IfOk result (λ v. v ≡ code_in code) }
    ensures valid { IfOk result (λ v. Valid (code_in code)) }
    ensures back { IfErr result (λ e. e.0 ≡ code) }
    ensures only { Valid (code_in code) → IfErr result (λ e. e.1 ≡ Memory) }
    ensures refused { IfErr result (λ e. RefusedBy (code_in code) e.1) }
{
    match judge(alloc, &code) {
        Ok(()) => Ok(Verified::of(code)),
        Err(refusal) => Err((code, refusal)),
    }
}

fn judge(alloc: Global, code: &Code) -> Result<(), VerifyRefusal>
    ensures ok { IfOk result (λ _. Valid (code_in code.now)) }
    ensures err { IfErr result (λ e. RefusedBy (code_in code.now) e) }
{
    check_shape(code)?;
    check_targets(code)?;
    check_jumps_back(code)?;
    let tables = Tables::of(alloc, code).map_err(|_| VerifyRefusal::Memory)?;
    check(code, &tables, VerifyWhy::Height)?;
    check(code, &tables, VerifyWhy::Slot)?;
    check(code, &tables, VerifyWhy::CallOrder)?;
    check(code, &tables, VerifyWhy::EdgeToNoTick)?;
    check(code, &tables, VerifyWhy::FallsOff)?;
    check(code, &tables, VerifyWhy::Stretch)?;
    check(code, &tables, VerifyWhy::Commands)
}

fn check_shape(code: &Code) -> Result<(), VerifyRefusal>
    ensures shape { IfOk result (λ _. HasShape (code_in code.now)) }
    ensures ok { IfOk result (λ _. Passed 1 (code_in code.now)) }
    ensures err { IfErr result (λ e. RefusedBy (code_in code.now) e) }
{
    if has_shape(code) {
        Ok(())
    } else {
        Err(VerifyRefusal::At {
            place: 0,
            why: VerifyWhy::Shape,
        })
    }
}

fn check_targets(code: &Code) -> Result<(), VerifyRefusal>
    requires shape { HasShape (code_in code.now) }
    requires passed { Passed 1 (code_in code.now) }
    ensures ok { IfOk result (λ _. Passed 2 (code_in code.now)) }
    ensures err { IfErr result (λ e. RefusedBy (code_in code.now) e) }
{
    for p in 0..code.instrs.len() {
        if !jump_inside(code, p) {
            return Err(VerifyRefusal::At {
                place: p as u32,
                why: VerifyWhy::JumpOut,
            });
        }
    }
    Ok(())
}

fn check_jumps_back(code: &Code) -> Result<(), VerifyRefusal>
    requires shape { HasShape (code_in code.now) }
    requires passed { Passed 2 (code_in code.now) }
    ensures ok { IfOk result (λ _. Passed 3 (code_in code.now)) }
    ensures err { IfErr result (λ e. RefusedBy (code_in code.now) e) }
{
    for p in 0..code.instrs.len() {
        if !jumps_back_to_tick(code, p) {
            return Err(VerifyRefusal::At {
                place: p as u32,
                why: VerifyWhy::BackToNoTick,
            });
        }
    }
    Ok(())
}

// One of the checks that are made with the tables, over all places.
fn check(code: &Code, tables: &Tables, why: VerifyWhy) -> Result<(), VerifyRefusal>
    requires shape { HasShape (code_in code.now) }
    requires tables { IsTables (code_in code.now) tables.now }
    requires later { 3 ≤ check_rank why }
    requires passed { Passed (check_rank why) (code_in code.now) }
    ensures ok { IfOk result (λ _. Passed (check_rank why + 1) (code_in code.now)) }
    ensures err { IfErr result (λ e. RefusedBy (code_in code.now) e) }
{
    for p in 0..code.instrs.len() {
        if !fits(code, tables, why, p) {
            return Err(VerifyRefusal::At {
                place: p as u32,
                why,
            });
        }
    }
    Ok(())
}
