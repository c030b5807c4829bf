//! What follows from the definitions of breaches and of a verdict, for every history.
ghost use Rattle.laws.specs.AuditAndBreaches.{BothReadTheSame, RunsHaveNoBreach, SafeLogsHaveNoBreach};
ghost use Rattle.laws.specs.BreachesAndVerdicts.{FirstIsAudits, LeastIsAudits};

use junction_run::laws::logs_are_judged_safe;
use log_judge::laws::parts_have_none;
use log_read::laws::{a_part_from_one_is_a_log, a_record_begins_with_its_fields};

/// The first breach is that of the audit.
pub fn first_is_audits()
    ensures { FirstIsAudits }
{}

/// Of the breaches up to the second that the audit names, the least by rule, group and other is the one that it names.
pub fn least_is_audits()
    ensures { LeastIsAudits }
{}

/// A log that `audit` reads to its end is read by the form `breaches` as the same pictures, and where the audit calls them safe the
/// form tells no breach, whatever the tolerance. So it tells none of what `run` and `exec` write.
pub fn safe_logs_have_no_breach()
    ensures read { BothReadTheSame }
    ensures none { SafeLogsHaveNoBreach }
    ensures runs { RunsHaveNoBreach }
{
    a_record_begins_with_its_fields();
    a_part_from_one_is_a_log();
    parts_have_none();
    logs_are_judged_safe();
}
