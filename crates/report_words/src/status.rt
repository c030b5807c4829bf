// How a call that judges a log ended.
ghost use Rattle.std.specs.Prelude.{◌≡◌};
ghost use Rattle.report_words.specs.Statuses.{exit_number, site_status, status_of};

use crate::stop::JudgeStop;
use site_load::SiteStop;

/// How a call ended.
#[derive(Clone, Copy, Debug, PartialEq, Eq)]
pub enum Status {
    /// All was done, and nothing is broken.
    Done,
    /// All was done, and there are breaches.
    Broken,
    /// Memory was wanted and could not be had.
    Memory,
    /// The words are no form of a call. Nothing was read.
    Words,
    /// A file could not be read.
    ReadFault,
    /// Standard output could not be written.
    WriteFault,
    /// The plan, a table or the log is not as it must be.
    Refused,
    /// The plan or a table has more bytes than its limit.
    TooLong,
}

/// The exit status: 0 where nothing is broken, 1 where there are breaches or memory was wanted, which a note tells, and else 2 to 5
/// and 7.
pub fn exit_status(status: Status) -> u8
    ensures { result ≡ exit_number status }
{
    match status {
        Status::Done => 0,
        Status::Broken => 1,
        Status::Memory => 1,
        Status::Words => 2,
        Status::ReadFault => 3,
        Status::WriteFault => 4,
        Status::Refused => 5,
        Status::TooLong => 7,
    }
}

// How a call ended that took no site.
fn site_status(stop: &SiteStop<'_>) -> Status
    ensures { result ≡ site_status stop.now }
{
    match stop {
        SiteStop::Memory => Status::Memory,
        SiteStop::ReadFault(_) => Status::ReadFault,
        SiteStop::Refused { .. } => Status::Refused,
        SiteStop::TooLong(_) => Status::TooLong,
    }
}

/// How a call ended that stopped.
pub fn status_of(stop: &JudgeStop<'_>) -> Status
    ensures { result ≡ status_of stop.now }
{
    match stop {
        JudgeStop::Words => Status::Words,
        JudgeStop::Memory => Status::Memory,
        JudgeStop::Site(stop) => site_status(stop),
        JudgeStop::ReadFault(_) => Status::ReadFault,
        JudgeStop::RefusedLine { .. } => Status::Refused,
        JudgeStop::WriteFault => Status::WriteFault,
    }
}
