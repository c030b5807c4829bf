// Why a file of a site is refused, as a note tells it.
ghost use Rattle.std.specs.Prelude.{◌≡◌, ◌≤◌, ◌++◌, codes, length};
ghost use Rattle.pua_model.specs.Plan.{name_of};
ghost use Rattle.site_load.specs.Reasons.{plan_reason, reason_text, table_reason, told_text};

use crate::stop::Reason;
use itoa::Buffer;
use pua_model::Plan;
use pua_reader::PuaWhy;
use sig_tables::TableWhy;
use sig_types::GroupNo;

/// The pieces of a reason: its name, and up to two things that it speaks of, each after a blank.
#[derive(Clone, Copy)]
pub struct ReasonText<'a> {
    pub name: &'a [u8],
    pub blank: &'a [u8],
    pub first: &'a [u8],
    pub gap: &'a [u8],
    pub second: &'a [u8],
}

/// A reason that is only a name.
pub fn name_alone<'x>(name: &'x [u8]) -> ReasonText<'x>
    ensures { told_text result ≡ name.now }
{
    ReasonText {
        name,
        blank: b"",
        first: b"",
        gap: b"",
        second: b"",
    }
}

/// A reason that speaks of one thing.
pub fn with_one<'x>(name: &'x [u8], first: &'x [u8]) -> ReasonText<'x>
    ensures { told_text result ≡ name.now ++ codes " " ++ first.now }
{
    ReasonText {
        name,
        blank: b" ",
        first,
        gap: b"",
        second: b"",
    }
}

// A reason that speaks of two.
fn with_two<'x>(name: &'x [u8], first: &'x [u8], second: &'x [u8]) -> ReasonText<'x>
    ensures { told_text result ≡ name.now ++ codes " " ++ first.now ++ codes " " ++ second.now }
{
    ReasonText {
        name,
        blank: b" ",
        first,
        gap: b" ",
        second,
    }
}

fn plan_reason<'x>(why: &'x PuaWhy, digits: &'x mut Buffer) -> ReasonText<'x>
    ensures { told_text result ≡ plan_reason why.now }
{
    match why {
        PuaWhy::NotText => name_alone(b"NotText"),
        PuaWhy::Section => name_alone(b"Section"),
        PuaWhy::Row => name_alone(b"Row"),
        PuaWhy::NameTwice => name_alone(b"NameTwice"),
        PuaWhy::UnknownName => name_alone(b"UnknownName"),
        PuaWhy::Range => name_alone(b"Range"),
        PuaWhy::NoStart => name_alone(b"NoStart"),
        PuaWhy::PairTwice => name_alone(b"PairTwice"),
        PuaWhy::Inconsistent { inter, name, .. } => with_two(
            b"Inconsistent",
            digits.format(*inter).as_bytes(),
            name.bytes(),
        ),
        PuaWhy::Limit => name_alone(b"Limit"),
    }
}

/// The name of a group; no bytes where the plan has no such group.
pub fn name_of(plan: &Plan, group: GroupNo) -> &[u8]
    ensures name { result.now ≡ name_of plan.now.names group }
    ensures short { length result.now ≤ 32 }
{
    if group.0 < plan.groups() {
        plan.group_name(group).as_bytes()
    } else {
        b""
    }
}

fn table_reason<'x>(why: TableWhy, plan: &'x Plan) -> ReasonText<'x>
    ensures { told_text result ≡ table_reason plan.now.names why }
{
    match why {
        TableWhy::Header => name_alone(b"Header"),
        TableWhy::Fields => name_alone(b"Fields"),
        TableWhy::Number => name_alone(b"Number"),
        TableWhy::UnknownName => name_alone(b"UnknownName"),
        TableWhy::Twice => name_alone(b"Twice"),
        TableWhy::Missing(group) => with_one(b"Missing", name_of(plan, group)),
        TableWhy::OneWay(from, to) => with_two(b"OneWay", name_of(plan, from), name_of(plan, to)),
        TableWhy::SelfConflict => name_alone(b"SelfConflict"),
    }
}

/// Why a file of a site is refused: the name of the reason, and what it speaks of. The buffer takes a number that stands in it.
pub fn reason_told<'x>(reason: &'x Reason, digits: &'x mut Buffer) -> ReasonText<'x>
    ensures { told_text result ≡ reason_text reason.now }
{
    match reason {
        Reason::Pua(why) => plan_reason(why, digits),
        Reason::Table(why, plan) => table_reason(*why, plan),
    }
}
