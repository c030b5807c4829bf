//! What follows from the contract of the call: each law is a function whose contract states it.
ghost use Rattle.report_seen.specs.CompareLaws.{AlikeIsTold};

/// Two logs are told as alike exactly where their groups have the same names in the same order and they have the same records.
pub fn alike_logs_are_told_so()
    ensures { AlikeIsTold }
{}
