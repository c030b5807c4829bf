// What happens in a pass, and the observer that keeps it.

use sig_types::{CommandKind, ReadingKind, TimerKind};

/// A variable, a timer, or a cell of an array at a place that is counted from 1.
#[derive(Clone, Copy)]
pub enum Slot {
    Variable(u16),
    Timer(u16),
    Cell(u16, i32),
}

/// What an instruction of a pass does that a reader of the program knows.
#[derive(Clone, Copy)]
pub enum Event {
    /// A statement of this line begins.
    Begins(u32),
    /// A subroutine goes back to its caller in this line, and spends a unit.
    Returns(u32),
    /// No unit is left for a statement of this line, or for the way back to it.
    Wants(u32),
    /// A subroutine is called.
    Calls(u16),
    /// A reading of these numbers.
    Reads {
        kind: ReadingKind,
        a: i32,
        b: i32,
    },
    /// A value is taken.
    Takes(Slot),
    /// The reading gave, or what was taken is, this value.
    Gives(i32),
    /// A test has this value.
    Tests(i32),
    /// A value is assigned; the one before is not there where there is no such cell.
    Sets {
        slot: Slot,
        before: Option<i32>,
        after: i32,
    },
    /// A timer is started, stopped or reset.
    Times {
        kind: TimerKind,
        timer: u16,
    },
    /// A command of these numbers.
    Commands {
        kind: CommandKind,
        a: i32,
        b: i32,
    },
}
