// What the lines of a record say, and why one is refused.

use sig_types::Picture;

/// What is shown from a time on.
#[derive(Drop)]
pub enum Shown {
    /// The groups show this.
    Picture(Picture),
    /// Nothing is known of any group.
    Unknown,
    /// The record ends.
    End,
}

/// What a line behind the header says.
#[derive(Drop)]
pub struct Entry {
    /// The time, in tenths of a second, at most 999,999,999.
    pub at: u32,
    /// What is shown from it on.
    pub shown: Shown,
}

/// Why a line is refused. The reasons are judged in this order.
#[derive(Clone, Copy)]
pub enum TenthWhy {
    /// The line has more than 262,144 bytes without its end.
    LineTooLong = 1,
    /// Line 1 isn't `VAPRECORD 1` with 1 to 64 different names, each after a space; or there is no line.
    Header = 2,
    /// The line stands behind the end.
    AfterEnd = 3,
    /// No time with one decimal stands before a bar.
    Time = 4,
    /// The time is not later than that of the line before.
    Order = 5,
    /// The time is more than a week after the first one.
    TooManySeconds = 6,
    /// Behind the bar stand neither a letter for each group nor `?` or `-` alone.
    Aspects = 7,
    /// The record ends without its end; told of the line after the last.
    MissingEnd = 8,
}

/// Why no entry is given.
#[derive(Clone, Copy)]
pub enum TenthStop {
    /// Memory was wanted and could not be had.
    Memory,
    /// The file could not be read.
    Fault,
    /// A line, counted from 1, is refused.
    At { line: u32, why: TenthWhy },
}
