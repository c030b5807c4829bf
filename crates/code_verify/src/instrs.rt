// What the checks ask of one instruction.

ghost use Rattle.std.specs.Prelude.{◌≡◌, ◌≤◌, ◌<◌, ◌^◌, ◌+◌};
ghost use Rattle.vap_code.specs.Valid.{target as target_of, leaves as leaves_of, goes_on as goes_on_of, stands_clear as stands_clear_of, is_tick as is_tick_of, is_call as is_call_of, is_ret as is_ret_of};

use vap_code::{Instr, Operand, effect_of, operand_of};

/// How many operands an instruction leaves of `height`.
pub fn leaves(height: usize, i: Instr) -> usize
    requires { height < 2 ^ 32 }
    ensures { result ≡ leaves_of height i }
{
    let effect = effect_of(i);
    height.saturating_sub(effect.takes) + effect.puts
}

/// Where an instruction may jump to.
pub fn target(i: Instr) -> Option<usize>
    ensures { result ≡ target_of i }
{
    match operand_of(i) {
        Operand::Place(place) => Some(place as usize),
        Operand::Nothing | Operand::Line(_) | Operand::Value(_) => None,
        Operand::Variable(_) | Operand::Array(_) | Operand::Timer(_) => None,
        Operand::Routine(_) | Operand::Reading(_) | Operand::Command(_) => None,
    }
}

/// Whether the next place may follow.
pub fn goes_on(i: Instr) -> bool
    ensures { result ≡ goes_on_of i }
{
    !matches!(i, Instr::Jump(_) | Instr::Ret)
}

/// Whether no operand may stand at an instruction.
pub fn stands_clear(i: Instr) -> bool
    ensures { result ≡ stands_clear_of i }
{
    matches!(i, Instr::Tick(_) | Instr::Call(_) | Instr::Ret)
}

/// Whether an instruction spends a unit.
pub fn is_tick(i: Instr) -> bool
    ensures { result ≡ is_tick_of i }
{
    matches!(i, Instr::Tick(_))
}

/// Whether an instruction calls a routine.
pub fn is_call(i: Instr) -> bool
    ensures { result ≡ is_call_of i }
{
    matches!(i, Instr::Call(_))
}

/// Whether an instruction ends a routine.
pub fn is_ret(i: Instr) -> bool
    ensures { result ≡ is_ret_of i }
{
    matches!(i, Instr::Ret)
}
