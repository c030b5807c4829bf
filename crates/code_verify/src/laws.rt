//! What follows for the commands of a pass: each law is a function whose contract states it.
ghost use Rattle.code_verify.specs.Given.{CodesGiveTheWorlds, ValidCodesGiveFew};

/// A pass of a valid code gives at most 10,000 commands, and a pass of any code no command but those that its world has for
/// numbers.
pub fn valid_code_gives_few_commands()
    ensures few { ValidCodesGiveFew }
    ensures of_the_world { CodesGiveTheWorlds }
{}
