// The intergreens between groups that conflict.
ghost use Rattle.std.specs.Prelude.{◌≡◌, ◌<◌, ◌≤◌, ◌+◌, ◌*◌, IfSome};
ghost use Rattle.sig_tables.specs.Pairs.{ArePairs, between};

use sig_types::GroupNo;
use std::marker::Model;

/// The intergreens of 1 to 64 groups. Contracts see them as the number of groups and, for two groups that conflict, the
/// intergreen in seconds from an end of the first to a green of the second. Pairs are listed both ways, and no group with
/// itself.
#[derive(Drop)]
pub struct Intergreens {
    groups: u8,
    cells: Vec<Option<u16>>,
}

impl Model for Intergreens {
    ghost use Rattle.sig_tables.specs.Pairs.{Pairs, ArePairs};

    ghost Value = { Pairs };

    ghost view = { λ p. record { count = p.groups; cells = p.cells.items } };

    ghost invariant = { λ p. ArePairs (record { count = p.groups; cells = p.cells.items }) };
}

// The place of a pair in a square of 64 times 64 cells.
pub(crate) fn place_of(from: GroupNo, to: GroupNo) -> usize
    requires from { from.0 < 64 }
    requires to { to.0 < 64 }
    ensures place { result ≡ 64 * from.0 + to.0 }
    ensures inside { result < 4096 }
{
    64 * from.0 as usize + to.0 as usize
}

// The seconds of a cell.
fn narrow(cell: Option<u16>) -> Option<u8>
    requires { IfSome cell (λ z. z ≤ 99) }
    ensures seconds { result ≡ cell }
    ensures at_most { IfSome result (λ z. z ≤ 99) }
{
    match cell {
        Some(seconds) => Some(seconds as u8),
        None => None,
    }
}

impl Intergreens {
    // The intergreens of these cells.
    pub(crate) fn of(groups: u8, cells: Vec<Option<u16>>) -> Intergreens
        requires { ArePairs (record { count = groups; cells = cells.items }) }
        ensures { result ≡ record { count = groups; cells = cells.items } }
    {
        Intergreens { groups, cells }
    }

    /// The number of groups of the plan against which the table was read, 1 to 64.
    pub fn groups(&self) -> u8
        ensures count { result ≡ self.now.count }
        ensures pairs { ArePairs self.now }
    {
        self.groups
    }

    // The cells.
    pub(crate) fn cells(&self) -> &[Option<u16>]
        ensures cells { result.now ≡ self.now.cells }
        ensures pairs { ArePairs self.now }
    {
        &self.cells
    }

    /// The intergreen from an end of the one group to a green of the other, 0 to 99 seconds; None exactly where the table
    /// doesn't list the pair, so that the two don't conflict.
    #[tactic(auto, unfolding(crate::specs::Pairs::cell_of))]
    pub fn between(&self, from: GroupNo, to: GroupNo) -> Option<u8>
        requires from { from.0 < self.now.count }
        requires to { to.0 < self.now.count }
        ensures seconds { result ≡ between self.now from.0 to.0 }
        ensures at_most { IfSome result (λ z. z ≤ 99) }
    {
        narrow(self.cells[place_of(from, to)])
    }
}
