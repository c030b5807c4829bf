//! What follows from the definitions of frames: each law is a function whose contract states it.
ghost use Rattle.sig_types.specs.Laws.{FrontsAreFrames, LastIsTaken};

/// The last of a detector file's frames can be taken after those before it, and the first frames of a file are frames of a file.
pub fn frames_can_be_taken()
    ensures last { LastIsTaken }
    ensures fronts { FrontsAreFrames }
{}
