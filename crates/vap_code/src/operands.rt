// What stands in an instruction beside its word.
ghost use Rattle.std.specs.Prelude.{◌≡◌};
ghost use Rattle.vap_code.specs.Operands.{operand_of};

use crate::Instr;
use sig_types::{CommandKind, ReadingKind};

/// What stands in an instruction beside its word.
#[derive(Clone, Copy)]
pub enum Operand {
    /// Nothing.
    Nothing,
    /// The line of a statement.
    Line(u32),
    /// A number.
    Value(i32),
    /// A variable, counted from 0.
    Variable(u16),
    /// An array, counted from 0.
    Array(u16),
    /// A timer, counted from 0.
    Timer(u16),
    /// The place to which it may jump, counted from 0.
    Place(u16),
    /// The routine that it calls, counted from 0.
    Routine(u16),
    /// A reading.
    Reading(ReadingKind),
    /// A command.
    Command(CommandKind),
}

/// What stands in an instruction.
pub fn operand_of(instr: Instr) -> Operand
    ensures { result ≡ operand_of instr }
{
    match instr {
        Instr::Tick(line) => Operand::Line(line),
        Instr::Push(value) => Operand::Value(value),
        Instr::Load(x) | Instr::Store(x) => Operand::Variable(x),
        Instr::Cell(a) | Instr::SetCell(a) => Operand::Array(a),
        Instr::Timer(t) | Instr::Start(t) | Instr::Stop(t) | Instr::Reset(t) => Operand::Timer(t),
        Instr::Jump(place) | Instr::JumpZero(place) => Operand::Place(place),
        Instr::Call(r) => Operand::Routine(r),
        Instr::Read(kind) => Operand::Reading(kind),
        Instr::Do(kind) => Operand::Command(kind),
        Instr::Neg
        | Instr::Not
        | Instr::Add
        | Instr::Sub
        | Instr::Mul
        | Instr::Div
        | Instr::Eq
        | Instr::Ne
        | Instr::Lt
        | Instr::Le
        | Instr::Gt
        | Instr::Ge
        | Instr::And
        | Instr::Or
        | Instr::Ret => Operand::Nothing,
    }
}
