// Why a parser gives up.
ghost use Rattle.std.specs.Prelude.{◌≡◌};
ghost use Rattle.vap_parse.specs.declared.stop.Stop.TheVariants.{Memory};

use crate::kind::Reason;
use sig_types::Memory as OutOfMemory;
use std::alloc::{AllocError, AllocFailed};

/// Why a parser gives up: memory ran out, or the next token is refused.
#[derive(Drop)]
pub enum Stop {
    Memory,
    Refused(Reason),
}

impl From<OutOfMemory> for Stop {
    ghost from_gives = { λ _ e. e ≡ Memory };

    fn from(_error: OutOfMemory) -> Stop {
        Stop::Memory
    }
}

impl From<AllocError> for Stop {
    ghost from_gives = { λ _ e. e ≡ Memory };

    fn from(_error: AllocError) -> Stop {
        Stop::Memory
    }
}

impl<T: Drop> From<AllocFailed<T>> for Stop {
    ghost from_gives = { λ _ e. e ≡ Memory };

    fn from(_failed: AllocFailed<T>) -> Stop {
        Stop::Memory
    }
}
