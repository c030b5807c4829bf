// The numbers of a code in memory are those of their types.
ghost use Rattle.std.specs.Prelude.{◌≡◌, ◌<◌, ◌≤◌, ℕ, Ok, length, get_or, map, pos, true};
ghost use Rattle.std.specs.List.{All, list_all};
ghost use Rattle.sig_types.specs.Number.{fits};
ghost use Rattle.vap_code.specs.Codes.{code_in};
ghost use Rattle.vap_code.specs.Valid.{instr_at};
ghost use Rattle.code_file.specs.Text.{HasText, code_text};
ghost use Rattle.code_file.specs.Reading.{code_of};
ghost use Rattle.code_file.specs.Shape.{OperandTyped, IsTyped, HasRanges};

use code_verify::Verified;
use vap_code::{Code, Instr, Operand, operand_of};

/// A verified code has a text, which is read again as this code and is within the limit of a code file. A call
/// changes nothing; its contract is that fact, which rests on the ranges of the numbers in memory.
pub fn code_has_text(code: &Verified)
    ensures text { HasText code.now }
    ensures read { code_of (code_text code.now) ≡ Ok code.now }
    ensures short { length (code_text code.now) ≤ 2097152 }
{
    code_ranges(code.code());
}

// The numbers of a code in memory are those of their types.
fn code_ranges(code: &Code)
    ensures { HasRanges (code_in code.now) }
{
    instr_ranges(&code.instrs);
    array_ranges(&code.arrays);
}

// The numbers of all instructions.
fn instr_ranges(instrs: &[Instr])
    ensures { (p : ℕ) → p < length instrs.now → IsTyped (instr_at instrs.now p) }
{
    for instr in instrs {
        instr_range(*instr);
    }
}

// The numbers of an instruction.
fn instr_range(instr: Instr)
    ensures { IsTyped instr }
{
    operand_range(operand_of(instr));
}

// The number of an operand.
fn operand_range(operand: Operand)
    ensures { OperandTyped operand }
{
    match operand {
        Operand::Nothing | Operand::Line(_) | Operand::Value(_) | Operand::Place(_) => {}
        Operand::Variable(_) | Operand::Array(_) | Operand::Timer(_) => {}
        Operand::Routine(_) | Operand::Reading(_) | Operand::Command(_) => {}
    }
}

// The numbers of all arrays.
fn array_ranges(arrays: &[Vec<i32>])
    ensures { All (λ a. list_all fits a ≡ true) (map (λ a. a.items) arrays.now) }
{
    for array in arrays {
        value_ranges(array);
    }
}

// The numbers of an array.
fn value_ranges(values: &[i32])
    ensures { list_all fits values.now ≡ true }
{
    for i in 0..values.len() {
        value_range(values, i);
    }
}

// The number at a place, whose type settles its range.
fn value_range(values: &[i32], i: usize)
    requires { i < length values.now }
    ensures { fits (get_or values.now i (pos 0)) ≡ true }
{
    number_range(values[i]);
}

// A number of 32 bits.
fn number_range(value: i32)
    ensures { fits value ≡ true }
{
    let _ = value;
}
