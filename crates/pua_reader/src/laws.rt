// What holds of accepted files. A call does nothing: its contract is the law.
ghost use Rattle.pua_reader.specs.SectionRows.{PlanSaysItsRows};
ghost use Rattle.pua_reader.specs.InterstageRows.{InterstagesAreTheirSections};
ghost use Rattle.pua_reader.specs.Laws.{PlansAreWhole};

/// An accepted file's plan says what the rows of its sections say: its groups are those of the rows of the section of groups,
/// by rising number; stage k is that of the k-th stage row, with its green groups; and the run starts in the stage that the
/// only row of the starting stage names.
pub fn plan_says_its_rows()
    ensures { PlanSaysItsRows }
{}

/// An accepted file's interstages are those of its sections of interstages, in their order: each has the length and the stages
/// that its section's rows give, and for each group the red end and the green end of the row that names it.
pub fn interstages_are_their_sections()
    ensures { InterstagesAreTheirSections }
{}

/// An accepted file's plan keeps all limits of a plan: 1 to 64 groups, at most 32 stages and 256 interstages, each name a name that
/// stands once, and each interstage of two stages that there are.
pub fn plans_are_whole()
    ensures { PlansAreWhole }
{}
