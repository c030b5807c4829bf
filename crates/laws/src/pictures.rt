//! What follows from the definitions of a log's records and of its pictures, for every log.
ghost use Rattle.laws.specs.PicturesOfRecords.{FirstPicturesAgree, PicturesAgree, UnwatchedPicturesAgree};

/// The first lines of a log that are read as records are read as their pictures too.
pub fn first_pictures_agree()
    ensures { FirstPicturesAgree }
{}

/// The lines of a log that is read whole as records, those before a watcher's line, are read whole as their pictures; so is the log
/// itself where no line of it is a watcher's.
pub fn pictures_agree()
    ensures lines { PicturesAgree }
    ensures unwatched { UnwatchedPicturesAgree }
{}
