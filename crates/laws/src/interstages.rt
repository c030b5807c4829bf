//! What becomes of an interstage that its trial calls clean.
ghost use Rattle.laws.specs.TrialsSettle.{BoundOfTables, SettlesExactly};
ghost use Rattle.laws.specs.CleanInterstages.{CleanEndsInItsStage};

/// A clean interstage ends in its to-stage after exactly its length: in the next second each group of the stage has started and each
/// other one has ended, and once their red-ambers and ambers are over the picture is the stage's.
pub fn clean_interstages_end_in_their_stage()
    ensures { CleanEndsInItsStage }
{}

/// The 600 seconds for which a trial wishes the from-stage are enough at every site: the stage settles exactly where no two groups that
/// are green in it conflict.
pub fn stages_settle_where_they_can()
    ensures bound { BoundOfTables }
    ensures settles { SettlesExactly }
{}
