//! What follows from the definitions of a run's answer and of the log that is read: the law is a function whose contract
//! states it.
ghost use Rattle.laws.specs.RunLogs.{LoadedRunsAreLogged, WrittenLogsAreReadWhole};
ghost use Rattle.laws.specs.LiveLogs.{LiveLogsAreReadWhole, LiveTextsAreReadWhole};

use vap_check::readings_keep_trees;

/// What `run` and `exec` write, up to the end of the detector file or its first refused line, is read back whole: no line of it
/// is refused, its header gives the names of the plan's groups, its lines say the records of the run, in all six fields and in
/// their order, and nothing else is read of it. For each run that the files give has records as a log tells them, over all
/// frames of at most 604,801 seconds whose counts have 32 bits.
pub fn run_logs_are_read_whole()
    ensures loaded { LoadedRunsAreLogged }
    ensures written { WrittenLogsAreReadWhole }
{
    readings_keep_trees();
}

/// What `live` writes with status 0 begins with a log that is read back whole in the same way, as the records of the run over
/// the frames that its seconds had. Behind it stands a line for each watcher; with these lines the text is read as that log.
pub fn live_logs_are_read_whole()
    ensures logs { LiveLogsAreReadWhole }
    ensures texts { LiveTextsAreReadWhole }
{
    readings_keep_trees();
}
