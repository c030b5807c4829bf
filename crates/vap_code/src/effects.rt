// What an instruction takes from the stack, and what it puts there.
ghost use Rattle.std.specs.Prelude.{◌≡◌};
ghost use Rattle.vap_code.specs.Operands.{effect_of};

use crate::Instr;

/// How many numbers an instruction takes from the stack, and how many it then puts there.
#[derive(Clone, Copy)]
pub struct Effect {
    pub takes: usize,
    pub puts: usize,
}

/// How many numbers an instruction takes from the stack, and how many it puts there.
pub fn effect_of(instr: Instr) -> Effect
    ensures { result ≡ effect_of instr }
{
    let (takes, puts) = match instr {
        Instr::Tick(_) | Instr::Start(_) | Instr::Stop(_) | Instr::Reset(_) => (0, 0),
        Instr::Jump(_) | Instr::Call(_) | Instr::Ret => (0, 0),
        Instr::Push(_) | Instr::Load(_) | Instr::Timer(_) => (0, 1),
        Instr::Store(_) | Instr::JumpZero(_) => (1, 0),
        Instr::Cell(_) | Instr::Neg | Instr::Not => (1, 1),
        Instr::SetCell(_) => (2, 0),
        Instr::Add | Instr::Sub | Instr::Mul | Instr::Div | Instr::And | Instr::Or => (2, 1),
        Instr::Eq | Instr::Ne | Instr::Lt | Instr::Le | Instr::Gt | Instr::Ge => (2, 1),
        Instr::Read(kind) => (kind.arity(), 1),
        Instr::Do(kind) => (kind.arity(), 0),
    };
    Effect { takes, puts }
}
