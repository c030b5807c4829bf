//! How soon all is shown at the site of some files.
ghost use Rattle.laws.specs.WorstCases.{FilesGiveSites, WorstCaseIsShown};

use sig_response::what_is_wished_is_shown;

/// At the site that files give, what is wished of groups of which no two conflict is shown after the seconds of the worst case.
pub fn the_worst_case_is_shown()
    ensures sites { FilesGiveSites }
    ensures shown { WorstCaseIsShown }
{
    what_is_wished_is_shown();
}
