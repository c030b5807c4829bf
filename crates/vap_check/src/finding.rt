// What is found wrong with a program, and what of it stands first.
ghost use Rattle.std.specs.Prelude.{◌≡◌};
ghost use Rattle.vap_check.specs.FirstFinding.{order, is_sooner, sooner, first_of_all, when};

use crate::refusal::{CheckWhy, Which};

/// Something that is wrong, with the line that it stands in.
#[derive(Clone, Copy)]
pub struct Finding {
    pub line: u32,
    pub why: CheckWhy,
}

// The place of a reason among all reasons, of which only the order counts: up to 9 it is the reason's number, and the
// parts of the limits stand one after another.
fn order(why: CheckWhy) -> u8
    ensures { result ≡ order why }
{
    match why {
        CheckWhy::ConstTwice => 1,
        CheckWhy::NameKind => 2,
        CheckWhy::LabelTwice => 3,
        CheckWhy::NoLabel => 4,
        CheckWhy::SubTwice => 5,
        CheckWhy::NoSub => 6,
        CheckWhy::ArraySize => 7,
        CheckWhy::AssignConst => 8,
        CheckWhy::Arity => 9,
        CheckWhy::Limit(Which::Variables) => 10,
        CheckWhy::Limit(Which::Timers) => 11,
        CheckWhy::Limit(Which::Arrays) => 12,
        CheckWhy::Limit(Which::Cells) => 13,
        CheckWhy::Limit(Which::Subroutines) => 14,
        CheckWhy::Limit(Which::Labels) => 15,
        CheckWhy::StatementTooLong => 16,
        CheckWhy::ProgramTooLong => 17,
    }
}

fn is_sooner(a: Finding, b: Finding) -> bool
    ensures { result ≡ is_sooner a b }
{
    a.line < b.line || (a.line == b.line && order(a.why) < order(b.why))
}

/// `first` becomes the earlier of itself and a finding for `why` in this line.
pub fn note_finding(first: &mut Option<Finding>, line: u32, why: CheckWhy)
    ensures { first.new ≡ sooner first.old record { line = line; why = why } }
{
    let finding = Finding { line, why };
    match *first {
        Some(old) => {
            if is_sooner(finding, old) {
                *first = Some(finding);
            }
        }
        None => *first = Some(finding),
    }
}

/// `first` becomes the earlier of itself and a finding for `why` in this line, if `is_wrong`.
pub fn note_finding_if(first: &mut Option<Finding>, is_wrong: bool, line: u32, why: CheckWhy)
    ensures { first.new ≡ first_of_all first.old (when is_wrong line why) }
{
    if is_wrong {
        note_finding(first, line, why);
    }
}
