// Times and intergreens in tenths of a second.
ghost use Rattle.std.specs.Prelude.{◌≡◌, ◌≤◌, ◌<◌, ◌+◌, ◌*◌, length};
ghost use Rattle.tenth_tables.specs.Times.{AreTimes};
ghost use Rattle.tenth_tables.specs.Intergreens.{ArePairs};

use sig_tables::{Limits, TimesRow};
use sig_types::GroupNo;
use std::marker::Model;

/// The times of 1 to 64 groups in tenths of a second, in rising order of group numbers. Contracts see them as the list of
/// their rows.
#[derive(Drop)]
pub struct TenthTimes {
    rows: Vec<TimesRow>,
}

impl Model for TenthTimes {
    ghost use Rattle.std.specs.Prelude.{List};
    ghost use Rattle.sig_tables.specs.declared.times.TimesRow.{TimesRow};
    ghost use Rattle.tenth_tables.specs.Times.{AreTimes};

    ghost Value = { List TimesRow };

    ghost view = { λ t. t.rows.items };

    ghost invariant = { λ t. AreTimes t.rows.items };
}

impl TenthTimes {
    // The times of these rows.
    pub(crate) fn of(rows: Vec<TimesRow>) -> TenthTimes
        requires { AreTimes rows.items }
        ensures { result ≡ rows.items }
    {
        TenthTimes { rows }
    }

    // The rows.
    fn rows(&self) -> &[TimesRow]
        ensures rows { result.now ≡ self.now }
        ensures times { AreTimes self.now }
    {
        &self.rows
    }
}

/// The intergreens of 1 to 64 groups in tenths of a second. Contracts see them as the number of groups and, for two groups
/// that conflict, the intergreen from an end of the first to a green of the second.
#[derive(Drop)]
pub struct TenthIntergreens {
    groups: u8,
    cells: Vec<Option<u16>>,
}

impl Model for TenthIntergreens {
    ghost use Rattle.sig_tables.specs.Pairs.{Pairs};
    ghost use Rattle.tenth_tables.specs.Intergreens.{ArePairs};

    ghost Value = { Pairs };

    ghost view = { λ p. record { count = p.groups; cells = p.cells.items } };

    ghost invariant = { λ p. ArePairs (record { count = p.groups; cells = p.cells.items }) };
}

impl TenthIntergreens {
    // The intergreens of these cells.
    pub(crate) fn of(groups: u8, cells: Vec<Option<u16>>) -> TenthIntergreens
        requires { ArePairs (record { count = groups; cells = cells.items }) }
        ensures { result ≡ record { count = groups; cells = cells.items } }
    {
        TenthIntergreens { groups, cells }
    }

    // The number of groups.
    fn groups(&self) -> u8
        ensures count { result ≡ self.now.count }
        ensures pairs { ArePairs self.now }
    {
        self.groups
    }

    // The cells.
    fn cells(&self) -> &[Option<u16>]
        ensures cells { result.now ≡ self.now.cells }
        ensures pairs { ArePairs self.now }
    {
        &self.cells
    }
}

// The place of a pair in a square of 64 times 64 cells.
pub(crate) fn place_of(from: GroupNo, to: GroupNo) -> usize
    requires from { from.0 < 64 }
    requires to { to.0 < 64 }
    ensures place { result ≡ 64 * from.0 + to.0 }
    ensures inside { result < 4096 }
{
    64 * from.0 as usize + to.0 as usize
}

/// What both tables say, as a judge of pictures asks it, where a picture is a tenth of a second.
pub fn limits_of<'a>(times: &'a TenthTimes, intergreens: &'a TenthIntergreens) -> Limits<'a>
    requires { length times.now ≡ intergreens.now.count }
    ensures times { result.times ≡ times.now }
    ensures pairs { result.pairs ≡ intergreens.now }
{
    Limits::by(intergreens.groups(), times.rows(), intergreens.cells())
}
