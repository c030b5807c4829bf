//! The laws.
ghost use Rattle.laws.specs.LinesCounted.{CountsTellLines};
ghost use Rattle.laws.specs.LinesSeen.{LinesAreSeen};
ghost use Rattle.laws.specs.SourceLines.{LinesAgree, SourceTellsLines};
ghost use Rattle.laws.specs.UnitsSpent.{BudgetIsSpent, FewerUnitsSuffice, UnitsAreFew, UnitsTellLines};

/// With k units a run ends with the fault Budget at the line at which it spends unit k, from 0, where it has enough.
pub fn units_tell_lines()
    ensures { UnitsTellLines }
{}

/// As many units as a run spends do for it, and a run that ends for want of units has spent them all; none spends more.
pub fn units_are_spent()
    ensures few { FewerUnitsSuffice }
    ensures all { BudgetIsSpent }
    ensures within { UnitsAreFew }
{}

/// The line at which a pass of a compiled program spends unit k, from 0, is that at which the program itself would end for want
/// of units if it had k.
pub fn source_tells_lines()
    ensures { SourceTellsLines }
{}

/// The lines that run in a pass, by the program's own meaning, are those at which its code spends units.
pub fn lines_agree()
    ensures { LinesAgree }
{}

/// A line is seen where its statement is done, said of the source: a statement that is seen to begin in a pass is of a line
/// that runs in the pass by the program's own meaning, and each line that runs so has a statement that is seen to begin.
pub fn lines_are_seen()
    ensures { LinesAreSeen }
{}

/// What `trace_watch::Counts` counted of the passes of a compiled program tells the lines that run in one of them, by the
/// program's own meaning: those of which a statement was counted.
pub fn counts_tell_lines()
    ensures { CountsTellLines }
{}
