// What the program answers.
ghost use Rattle.std.specs.Prelude.{◌≡◌};
ghost use Rattle.junction_run.specs.Statuses.{number_of};

/// What a call of the program answers.
#[derive(Clone, Copy, Debug, PartialEq, Eq)]
pub enum Status {
    /// All was done, and the whole text was written.
    Done,
    /// Memory was wanted and could not be had.
    Memory,
    /// The words are no form.
    Words,
    /// A file could not be read.
    ReadFault,
    /// The text could not be written.
    WriteFault,
    /// A file is not as it must be.
    RefusedFile,
    /// A line of the file that is read line by line is not as it must be.
    RefusedLine,
    /// A file has more bytes than its limit.
    TooLong,
}

/// The exit status of a program that answers so: 0 to 7, in the order of the variants.
pub fn exit_status(status: Status) -> u8
    ensures { result ≡ number_of status }
{
    match status {
        Status::Done => 0,
        Status::Memory => 1,
        Status::Words => 2,
        Status::ReadFault => 3,
        Status::WriteFault => 4,
        Status::RefusedFile => 5,
        Status::RefusedLine => 6,
        Status::TooLong => 7,
    }
}
