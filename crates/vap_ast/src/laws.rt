// Laws of what programs mean, and of their stores.
ghost use Rattle.std.specs.Prelude.{ℕ, List};
ghost use Rattle.vap_ast.specs.Given.{ProgramsGiveFew, ProgramsGiveTheWorlds};
ghost use Rattle.vap_ast.specs.Mean.{OneMeaning};
ghost use Rattle.vap_ast.specs.Passes.{FitsProgram, first_store};
ghost use Rattle.vap_ast.specs.Syntax.{Array};

/// What a program means doesn't depend on how deep its definition recurs, where that is at least as deep as there are
/// units.
pub fn one_meaning()
    ensures depth_is_free { OneMeaning }
{}

/// The first store of a program fits it.
pub fn first_store_fits()
    ensures fits { (variable_count timer_count : ℕ) (declared : List Array) →
        FitsProgram variable_count timer_count declared (first_store variable_count timer_count declared) }
{}

/// A pass of a program gives at most 10,000 commands, since each costs a unit, and no command but those that its world has for
/// numbers.
pub fn programs_give_few_commands()
    ensures few { ProgramsGiveFew }
    ensures of_the_world { ProgramsGiveTheWorlds }
{}
