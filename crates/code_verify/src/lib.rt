//! A verifier of code: it tells which codes are valid, and for all others it names the first broken check and the lowest
//! place that breaks it. A pass of valid code always comes to an end, and never gets stuck.
#![tactic(auto)]

ghost use Rattle.code_verify.specs.Ends.{ValidCodeEnds, ValidCodeRunsWell};
ghost use Rattle.code_verify.specs.First.{SomeIsFirst, OneIsFirst, ValidBreaksNone};

mod checks;
mod first;
mod instrs;
mod laws;
mod places;
mod shape;
mod tables;
mod verified;

pub use first::{VerifyRefusal, verify};
pub use laws::valid_code_gives_few_commands;
pub use vap_code::VerifyWhy;
pub use verified::Verified;

/// A pass of a valid code is done or ends in a fault, within 10,241,024 instructions and with at most 10,000
/// commands. A call does nothing; its contract is that law.
pub fn valid_code_ends()
    ensures { ValidCodeEnds }
{}

/// What a machine needs to know of a pass of valid code: each state on the way finds room, and a pass that is
/// done leaves a store that fits the code, in which no timer counts more than before. A call does nothing; its
/// contract is that law.
pub fn valid_code_runs_well()
    ensures { ValidCodeRunsWell }
{}

/// A code is valid or has a first broken check and place, at most one, and a valid code has none: so the answer of `verify`
/// is settled by the code. A call does nothing; its contract is that law.
pub fn one_check_is_first()
    ensures some { SomeIsFirst }
    ensures one { OneIsFirst }
    ensures none { ValidBreaksNone }
{}
