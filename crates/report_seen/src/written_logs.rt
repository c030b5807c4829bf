//! What follows from the definitions of the log that a run writes and of the log that is read: the law is a function whose
//! contract states it.
ghost use Rattle.report_seen.specs.WrittenLogs.{OnlyWrittenIsRead, WatcherIsBehindLog, WrittenIsRead};

/// What a run writes is read back, whole: no line of its log is refused, the header gives the names of the groups, and each
/// record that is read is the one that was written, in all six fields and in their order; and nothing else is read of it. From a
/// watcher's line behind it on nothing is read.
///
/// It is stated for 1 to 64 groups whose names differ in more than case, at most 604,801 seconds from second 1 on, and records
/// with values as those of a run: stages from 1 to 32, interstages of at most 126 seconds, counts of 32 bits, at most 10,000
/// refused stage commands and 64 refused turns, each with a rule of its kind, and faults at lines that a program can have.
pub fn a_written_log_is_read_whole()
    ensures whole { WrittenIsRead }
    ensures alone { OnlyWrittenIsRead }
    ensures watched { WatcherIsBehindLog }
{}
