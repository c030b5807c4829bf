//! What `sample`, `net` and `live` write is of runs that the guard kept.
ghost use Rattle.laws.specs.GuardedOutputs.{LiveTextsAreJudgedSafe, NetLogsAreGuarded, SamplesAreGuarded};

use crate::logs::live_logs_are_read_whole;
use crate::pictures::pictures_agree;
use junction_run::laws::answers_are_right;

/// Each second of a sample is one of a guarded run of the file's program.
pub fn samples_are_guarded()
    ensures { SamplesAreGuarded }
{
    answers_are_right();
}

/// The log of each junction of `net` is one of a guarded run of what its own files give.
pub fn net_logs_are_guarded()
    ensures { NetLogsAreGuarded }
{
    answers_are_right();
}

/// What a live run writes with status 0 is read, up to its watchers' lines, as the pictures of its seconds, and judged safe.
pub fn live_texts_are_judged_safe()
    ensures { LiveTextsAreJudgedSafe }
{
    answers_are_right();
    live_logs_are_read_whole();
    pictures_agree();
}
