//! What the forms of `log_report` that show a log answer is settled by their words and their files.
ghost use Rattle.laws.specs.OneShown.{ComparisonsHaveOneAnswer, DiagramsHaveOneAnswer, LostHasOneAnswer, SumsHaveOneAnswer};
ghost use Rattle.laws.specs.OneSiteDiagram.{SiteDiagramsHaveOneAnswer};

use log_read::laws::a_log_has_one_answer;

/// The words and the files settle status, text and note of `diagram`, also with a site, `text` and `sums --lost`, where nothing fails and memory is
/// found: also of a line of the log that is refused, and of a log that ends before the seconds asked for.
pub fn diagrams_are_one()
    ensures diagrams { DiagramsHaveOneAnswer }
    ensures lost { LostHasOneAnswer }
    ensures site { SiteDiagramsHaveOneAnswer }
{
    a_log_has_one_answer();
}

/// So they do of `sums` and of `compare`: the numbers of the seconds asked for or of each part of them, and the first difference of two
/// logs.
pub fn sums_are_one()
    ensures sums { SumsHaveOneAnswer }
    ensures comparisons { ComparisonsHaveOneAnswer }
{
    a_log_has_one_answer();
}
