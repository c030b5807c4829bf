// A refusal, with what is said of it.
ghost use Rattle.std.specs.Prelude.{◌≡◌};

use log_judge::{Asked, Reason};
use sig_types::{StagePlace, StageRefusal, TurnRefusal};

/// Whether pictures and tables bear out a refused turn.
#[derive(Clone, Copy)]
pub(crate) enum Said {
    /// They do, and this is the cause.
    Borne(Reason),
    /// What would tell it lies before the log.
    Unknown,
    /// They don't.
    Contradicted,
}

/// A stage command or a turn that was refused in a second, which is a place of the judge's history.
#[derive(Clone, Copy)]
pub(crate) enum Refusal {
    /// A stage command, and what ran or was active.
    Command {
        second: u32,
        refused: StageRefusal,
        place: StagePlace,
    },
    /// A turn, which was asked of its group.
    Turn {
        second: u32,
        turn: TurnRefusal,
        asked: Asked,
        said: Said,
    },
}
