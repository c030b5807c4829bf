//! What the forms of `log_report` that judge a log answer is settled by their words and their files.
ghost use Rattle.laws.specs.OneJudgement.{BreachesHaveOneAnswer, ProtocolHasOneAnswer, RefusalsHaveOneAnswer};
ghost use Rattle.laws.specs.OneRecord.{RecordsHaveOneAnswer};

use log_read::laws::a_log_has_one_answer;

/// The words and the files settle status, text and note of `breaches`, `protocol` and `refusals`, where nothing fails and memory is
/// found: also of a file of the site or a line of the log that is refused.
pub fn judgements_are_one()
    ensures breaches { BreachesHaveOneAnswer }
    ensures protocol { ProtocolHasOneAnswer }
    ensures refusals { RefusalsHaveOneAnswer }
{
    a_log_has_one_answer();
}

/// So they do of `breaches` and `protocol` of a record in tenths of a second.
pub fn record_judgements_are_one()
    ensures { RecordsHaveOneAnswer }
{}
