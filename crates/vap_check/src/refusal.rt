// Why a program is refused.
ghost use Rattle.std.specs.Prelude.{◌≡◌};
ghost use Rattle.vap_check.specs.declared.refusal.CheckRefusal.TheVariants.{Memory as RefusedMemory};

use sig_types::Memory;
use thiserror::Error;

/// What a program has too many of, in the order in which the limits are looked at.
#[derive(Clone, Copy, Debug)]
pub enum Which {
    /// More than 256 variables.
    Variables,
    /// More than 64 timers.
    Timers,
    /// More than 32 arrays.
    Arrays,
    /// More than 4,096 cells in all arrays.
    Cells,
    /// More than 64 subroutines.
    Subroutines,
    /// More than 4,096 labels in all routines.
    Labels,
}

/// Why a program is refused. Within one line the reason with the lowest number stands.
#[derive(Clone, Copy, Debug)]
pub enum CheckWhy {
    /// 1: a constant is declared again.
    ConstTwice,
    /// 2: a name is used or declared as another kind than its own, an array is declared again, or a name with an index is
    /// no array.
    NameKind,
    /// 3: a label stands again in its routine.
    LabelTwice,
    /// 4: a `GOTO` names no label of its routine.
    NoLabel,
    /// 5: a subroutine is declared again.
    SubTwice,
    /// 6: a `GOSUB` names no subroutine that is declared above its routine.
    NoSub,
    /// 7: an array's size isn't 1 to 1,024, or isn't the number of its values.
    ArraySize,
    /// 8: a constant is assigned.
    AssignConst,
    /// 9: a reading or a command has another number of arguments than its word takes.
    Arity,
    /// 10: the program has too many of something: more than 256 variables, 64 timers, 32 arrays, 4,096 cells, 64
    /// subroutines or 4,096 labels.
    Limit(Which),
    /// 11: a statement without its branches takes more than 900 instructions.
    StatementTooLong,
    /// 12: the program takes more than 65,535 instructions.
    ProgramTooLong,
}

/// Why a program isn't checked.
#[derive(Clone, Copy, Debug, Error)]
pub enum CheckRefusal {
    /// Memory was wanted and could not be had.
    #[error("out of memory")]
    Memory,
    /// The first refusal, with its line; 0 for what no single line is to blame for.
    #[error("the program is refused")]
    At { line: u32, why: CheckWhy },
}

impl From<Memory> for CheckRefusal {
    ghost from_gives = { λ _ e. e ≡ RefusedMemory };

    fn from(_: Memory) -> Self {
        CheckRefusal::Memory
    }
}
