// Why a call that judges a log stopped.

use log_read::LogWhy;
use site_load::SiteStop;

/// Why a call ended before all was done. A file goes by its word, and its lines count from 1.
#[derive(Drop)]
pub enum JudgeStop<'a> {
    /// The words are no form of a call.
    Words,
    /// Memory was wanted and could not be had.
    Memory,
    /// The plan or a table was not taken.
    Site(SiteStop<'a>),
    /// The log could not be read.
    ReadFault(&'a str),
    /// A line of the log is refused.
    RefusedLine {
        word: &'a str,
        line: u32,
        why: LogWhy,
    },
    /// Standard output could not be written.
    WriteFault,
}
