//! What follows from the definition of a detector file: each law is a function whose contract states it.
ghost use Rattle.det_stream.specs.Laws.{StreamsAreFrames};

/// Whatever a file holds, the lines before its first refused one give at most 604,800 frames of detectors 1 to 64, with counts of
/// at most 99, and after each of them no detector has more rears than fronts.
pub fn streams_are_frames()
    ensures { StreamsAreFrames }
{}
