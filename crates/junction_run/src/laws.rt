//! What follows from the definitions of what the files give and of an answer: each law is a clause of a call that does nothing.
ghost use Rattle.junction_run.specs.Laws.{LoadsOnce, ProgramsHaveOneAnswer, LogsHaveOneAnswer, LogsHaveOneAudit, EndsAsGiven, IsComplete, LoadedRunsAreGuarded, WritesOfTheFilesAreGuarded};
ghost use Rattle.junction_run.specs.SafeLogs.{AuditsSaySafe, LoadedRunsAreWithinLimits, WrittenLogsAreJudgedSafe};

use code_verify::one_check_is_first;
use vap_check::one_answer;
use vap_lex::one_answer as one_list;
use vap_parse::one_answer as one_tree;

/// Files give one thing, and each text of a program has one answer, and so has each log; what is judged of a log has one text. The
/// status is that of the answer to what the files give, but
/// for want of memory and faults, and but for want of memory alone where no count of faults rose. Each run of a program or a code
/// that the files give, at the site that they give, is guarded: its pictures are safe, and each refusal names the very rule that
/// would be broken; and over files that tell, what is written of a log is a front of that of such a run.
pub fn answers_are_right()
    ensures once { LoadsOnce }
    ensures programs { ProgramsHaveOneAnswer }
    ensures logs { LogsHaveOneAnswer }
    ensures audits { LogsHaveOneAudit }
    ensures ends { EndsAsGiven }
    ensures complete { IsComplete }
    ensures guarded { LoadedRunsAreGuarded }
    ensures files { WritesOfTheFilesAreGuarded }
{
    one_list();
    one_tree();
    one_answer();
    one_check_is_first();
}

/// What `run` and `exec` write, up to the end of the detector file or its first refused line, is read back, record by record, as the
/// pictures of the run, and these are judged safe, with the number of its seconds: each run that the files give is within the limits
/// of a log that can be read. And `audit` of a file that holds it, with the same plan and the same tables, answers `SAFE` and that
/// number.
pub fn logs_are_judged_safe()
    ensures loaded { LoadedRunsAreWithinLimits }
    ensures written { WrittenLogsAreJudgedSafe }
    ensures audited { AuditsSaySafe }
{}
