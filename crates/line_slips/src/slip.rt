// The slips.

/// What the mistake in a line of a PUA file is likely to be.
#[derive(Clone, Copy, PartialEq, Eq)]
pub enum PlanSlip {
    /// A program in the place of the PUA file.
    ProgramAsPlan,
    /// A table in the place of the PUA file.
    TableAsPlan,
    /// A comment that doesn't begin with `$`.
    CommentSign,
    /// A decimal where seconds are whole.
    DecimalSeconds,
    /// A second `length`, `from` or `to` in an interstage, so that the `$INTERSTAGE` above is misspelt.
    SecondKey,
    /// A row of red groups that names a green one, or that follows no stage's row.
    RedRow,
    /// A group's row of an interstage with one number.
    OneNumber,
    /// A row that is a stage's name alone, so that the `$STARTING_STAGE` above is misspelt.
    LoneStage,
    /// A row with a name or a number twice, or with one that stands above.
    GroupAgain,
}

/// What the mistake in a record of a table is likely to be.
#[derive(Clone, Copy, PartialEq, Eq)]
pub enum TableSlip {
    /// Fields that are parted by `;`.
    Semicolons,
    /// A matrix in the place of a list of pairs.
    Matrix,
    /// The table of intergreens in the place of the table of times.
    PairsAsTimes,
    /// The table of times in the place of the table of intergreens.
    TimesAsPairs,
    /// Other words than those of the header.
    OtherWords,
    /// A blank in a record.
    BlankInRecord,
    /// The name of a group.
    NoSuchGroup,
    /// A minimum green that isn't 1 to 255.
    MinimumGreen,
    /// A red-amber that isn't 0 to 9.
    RedAmber,
    /// An amber that isn't 0 to 9.
    Amber,
    /// A minimum red that isn't 1 to 255.
    MinimumRed,
    /// An intergreen that isn't 0 to 99.
    Intergreen,
}

/// What a byte that begins no token is likely to be.
#[derive(Clone, Copy, PartialEq, Eq)]
pub enum ByteSlip {
    /// The PUA file in the place of the program.
    PlanAsProgram,
    /// `!=` for `<>`.
    NotEqual,
    /// A comment in braces.
    Braces,
    /// Quotes.
    Quotes,
    /// `&` or `|` for `AND` or `OR`.
    AndOr,
    /// A byte beyond ASCII.
    BeyondAscii,
    /// A control byte.
    ControlByte,
}

/// What the mistake in a line of a detector file is likely to be.
#[derive(Clone, Copy, PartialEq, Eq)]
pub enum EntrySlip {
    /// Entries that are parted by two blanks.
    TwoBlanks,
    /// A blank at the end of a line.
    BlankAtEnd,
    /// Commas in the place of colons.
    Commas,
    /// An entry of two numbers.
    TwoNumbers,
    /// A row of headings.
    Headings,
}
