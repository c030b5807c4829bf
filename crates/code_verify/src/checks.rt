// The checks of one place.

ghost use Rattle.std.specs.Prelude.{◌≡◌, ℕ, ◌+◌, ◌<◌, ◌≤◌, ◌^◌, ◌↔◌, length, slice_index, slice_index_or, IsTrue, IfSome};
ghost use Rattle.sig_types.specs.Limits.{most_instrs};
ghost use Rattle.vap_code.specs.Codes.{code_in};
ghost use Rattle.vap_code.specs.Valid.{heights as heights_of, FitsCheck, HasShape, HeightFits, SlotFits, CallFits, EdgeFits, Passed, check_rank};
ghost use Rattle.code_verify.specs.Tables.{IsTables};
ghost use Rattle.vap_code.specs.declared.VerifyWhy.TheVariants.{JumpOut, BackToNoTick, Height, Slot, CallOrder, EdgeToNoTick, FallsOff, Stretch, Commands};

use crate::instrs::{goes_on, is_call, is_ret, is_tick, leaves, stands_clear, target};
use crate::places::{begins, has_next, routine_of};
use crate::tables::Tables;
use vap_code::{Code, Instr, Operand, VerifyWhy, effect_of, operand_of};

/// Whether a place fits one of the checks that are made with the tables.
pub fn fits(code: &Code, tables: &Tables, why: VerifyWhy, p: usize) -> bool
    requires place { p < length code.now.instrs.items }
    requires shape { HasShape (code_in code.now) }
    requires tables { IsTables (code_in code.now) tables.now }
    requires later { 3 ≤ check_rank why }
    requires passed { Passed (check_rank why) (code_in code.now) }
    ensures { IsTrue result ↔ FitsCheck (code_in code.now) why p }
{
    let instr = code.instrs[p];
    match why {
        VerifyWhy::Height => height_fits(code, &tables.heights, p),
        VerifyWhy::Slot => slot_fits(code, instr),
        VerifyWhy::CallOrder => call_fits(&code.starts, p, instr),
        VerifyWhy::EdgeToNoTick => edge_fits(code, p),
        VerifyWhy::FallsOff => !goes_on(instr) || has_next(&code.starts, code.instrs.len(), p),
        VerifyWhy::Stretch => is_within(&tables.stretches, p, 1022),
        VerifyWhy::Commands => is_within(&tables.command_counts, p, 1),
        VerifyWhy::Shape | VerifyWhy::JumpOut | VerifyWhy::BackToNoTick => unreachable!(),
    }
}

// Whether a place's number in a table is within a limit.
fn is_within(table: &[usize], p: usize, most: usize) -> bool
    requires { p < length table.now }
    ensures { IsTrue result ↔ (slice_index_or table.now p 0 ≤ most) }
{
    table[p] <= most
}

/// Whether a jump stays in its routine.
pub fn jump_inside(code: &Code, p: usize) -> bool
    requires { p < length code.now.instrs.items }
    ensures { IsTrue result ↔ FitsCheck (code_in code.now) JumpOut p }
{
    match target(code.instrs[p]) {
        Some(t) => t < code.instrs.len()
            && routine_of(&code.starts, t) == routine_of(&code.starts, p),
        None => true,
    }
}

/// Whether a jump back leads to a tick.
pub fn jumps_back_to_tick(code: &Code, p: usize) -> bool
    requires place { p < length code.now.instrs.items }
    requires inside { FitsCheck (code_in code.now) JumpOut p }
    ensures { IsTrue result ↔ FitsCheck (code_in code.now) BackToNoTick p }
{
    match target(code.instrs[p]) {
        Some(t) => t > p || is_tick(code.instrs[t]),
        None => true,
    }
}

// Whether the operands that stand at a place are enough, and those that it leaves stand where it leads.
fn height_fits(code: &Code, heights: &[usize], p: usize) -> bool
    requires place { p < length code.now.instrs.items }
    requires at_most { length code.now.instrs.items ≤ most_instrs }
    requires table { heights.now ≡ heights_of (code_in code.now) }
    requires low { (k : ℕ) → k < length heights.now → slice_index heights.now k ≤ k }
    requires whole { length heights.now ≡ length code.now.instrs.items }
    requires inside { FitsCheck (code_in code.now) JumpOut p }
    requires starts { (k : ℕ) → k < length code.now.starts.items →
        slice_index code.now.starts.items k < length code.now.instrs.items }
    ensures { IsTrue result ↔ HeightFits (code_in code.now) p }
{
    let instr = code.instrs[p];
    let height = heights[p];
    let left = leaves(height, instr);
    effect_of(instr).takes <= height
        && left <= 256
        && (!stands_clear(instr) || height == 0)
        && stands_at(heights, target(instr), left)
        && (!goes_on(instr)
            || !has_next(&code.starts, code.instrs.len(), p)
            || stands_at(heights, Some(p + 1), left))
}

// Whether `height` operands stand at a place, if there is one.
fn stands_at(heights: &[usize], place: Option<usize>, height: usize) -> bool
    requires { IfSome place (λ p. p < length heights.now) }
    ensures { IsTrue result ↔ IfSome place (λ p. slice_index heights.now p ≡ height) }
{
    match place {
        Some(p) => heights[p] == height,
        None => true,
    }
}

// Whether the variable, array or timer of an instruction is there.
fn slot_fits(code: &Code, instr: Instr) -> bool
    ensures { IsTrue result ↔ SlotFits (code_in code.now) instr }
{
    match operand_of(instr) {
        Operand::Variable(x) => x < code.vars,
        Operand::Array(a) => (a as usize) < code.arrays.len(),
        Operand::Timer(t) => t < code.timers,
        Operand::Nothing | Operand::Line(_) | Operand::Value(_) | Operand::Place(_) => true,
        Operand::Routine(_) | Operand::Reading(_) | Operand::Command(_) => true,
    }
}

// Whether the called routine stands above.
fn call_fits(starts: &[u16], p: usize, instr: Instr) -> bool
    ensures { IsTrue result ↔ CallFits starts.now p instr }
{
    match operand_of(instr) {
        Operand::Routine(r) => (r as usize) < routine_of(starts, p),
        Operand::Nothing | Operand::Line(_) | Operand::Value(_) | Operand::Place(_) => true,
        Operand::Variable(_) | Operand::Array(_) | Operand::Timer(_) => true,
        Operand::Reading(_) | Operand::Command(_) => true,
    }
}

// Whether a tick stands after a call, and where a routine begins that isn't empty.
fn edge_fits(code: &Code, p: usize) -> bool
    requires place { p < length code.now.instrs.items }
    requires starts { (k : ℕ) → k < length code.now.starts.items →
        slice_index code.now.starts.items k < length code.now.instrs.items }
    ensures { IsTrue result ↔ EdgeFits (code_in code.now) p }
{
    let instr = code.instrs[p];
    (!is_call(instr)
        || !has_next(&code.starts, code.instrs.len(), p)
        || is_tick(code.instrs[p + 1]))
        && (!begins(&code.starts, p) || is_ret(instr) || is_tick(instr))
}
