//! What follows from the text of a log: each law is a function whose contract states it.
ghost use Rattle.signal_log.specs.Laws.{HeaderIsShort, LinesAreShort, LinesBegin, LinesHaveNoFeed, LogCounts, LogHasLines, LogSpells};

/// A log tells how many seconds it has and the frames of these seconds: no text is a log of two numbers of records, nor of
/// two lists of frames.
///
/// The second is stated for frames of 64 detectors whose counts are below 2^64, as those of a run are; nothing else is
/// asked of the records.
pub fn log_tells_frames()
    ensures seconds { LogCounts }
    ensures frames { LogSpells }
{}

/// What one finds who reads a log line by line: the header and then one line for each record, which begins with the second, a
/// place without a bar and the letters of the picture, each before a bar, and has at most 262,144 bytes. No line feed stands in a
/// line.
///
/// The length is stated for at most 64 groups, and for records with at most 10,000 refused stage commands, between stages
/// below 1,000, and at most 64 refused turns, as those of a run are; that of the header for at most 64 groups.
pub fn log_is_read_by_lines()
    ensures lines { LogHasLines }
    ensures begin { LinesBegin }
    ensures short { LinesAreShort }
    ensures header { HeaderIsShort }
    ensures feeds { LinesHaveNoFeed }
{}
