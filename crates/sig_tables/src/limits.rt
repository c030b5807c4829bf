// The numbers that a judge of pictures asks.
ghost use Rattle.std.specs.Prelude.{◌≡◌, ◌<◌, ◌≤◌, IfSome, length};
ghost use Rattle.sig_tables.specs.TimesTable.{row_of};
ghost use Rattle.sig_tables.specs.Limits.{AreNumbers};
ghost use Rattle.sig_tables.specs.Pairs.{between};

use crate::intergreens::{Intergreens, place_of};
use crate::times::{Times, TimesRow};
use sig_types::GroupNo;
use std::marker::Model;

/// The times and the intergreens of 1 to 64 groups, counted in pictures. Contracts see both tables.
#[derive(Drop)]
pub struct Limits<'a> {
    groups: u8,
    rows: &'a [TimesRow],
    cells: &'a [Option<u16>],
}

impl<'a> Model for Limits<'a> {
    ghost use Rattle.sig_tables.specs.Limits.{Numbers, AreNumbers};

    ghost Value = { Numbers };

    ghost view = { λ l. record { times = l.rows.now; pairs = record { count = l.groups; cells = l.cells.now } } };

    ghost invariant = { λ l. AreNumbers (record { times = l.rows.now; pairs = record { count = l.groups; cells = l.cells.now } }) };
}

impl<'a> Limits<'a> {
    /// The number of groups.
    pub fn groups(&self) -> u8
        ensures count { result ≡ self.now.pairs.count }
        ensures rows { length self.now.times ≡ result }
    {
        self.groups
    }

    /// The minimum green of a group.
    pub fn min(&self, g: GroupNo) -> u32
        requires { g.0 < self.now.pairs.count }
        ensures min { result ≡ (row_of self.now.times g.0).min }
        ensures at_most { result ≤ 2550 }
    {
        u32::from(self.rows[g.0 as usize].min)
    }

    /// The red-amber of a group.
    pub fn red_amber(&self, g: GroupNo) -> u32
        requires { g.0 < self.now.pairs.count }
        ensures red_amber { result ≡ (row_of self.now.times g.0).red_amber }
        ensures at_most { result ≤ 2550 }
    {
        u32::from(self.rows[g.0 as usize].red_amber)
    }

    /// The amber of a group.
    pub fn amber(&self, g: GroupNo) -> u32
        requires { g.0 < self.now.pairs.count }
        ensures amber { result ≡ (row_of self.now.times g.0).amber }
        ensures at_most { result ≤ 2550 }
    {
        u32::from(self.rows[g.0 as usize].amber)
    }

    /// The minimum red of a group.
    pub fn min_red(&self, g: GroupNo) -> u32
        requires { g.0 < self.now.pairs.count }
        ensures min_red { result ≡ (row_of self.now.times g.0).min_red }
        ensures at_most { result ≤ 2550 }
    {
        u32::from(self.rows[g.0 as usize].min_red)
    }

    /// The intergreen from an end of the one group to a green of the other; None where the table doesn't list the pair.
    #[tactic(auto, unfolding(crate::specs::Pairs::cell_of))]
    pub fn between(&self, from: GroupNo, to: GroupNo) -> Option<u16>
        requires from { from.0 < self.now.pairs.count }
        requires to { to.0 < self.now.pairs.count }
        ensures seconds { result ≡ between self.now.pairs from.0 to.0 }
    {
        let cells = self.cells;
        cells[place_of(from, to)]
    }

    /// The numbers of tables of whole seconds.
    pub fn of(times: &'a Times, intergreens: &'a Intergreens) -> Limits<'a>
        requires { length times.now ≡ intergreens.now.count }
        ensures times { result.times ≡ times.now }
        ensures pairs { result.pairs ≡ intergreens.now }
    {
        Limits {
            groups: intergreens.groups(),
            rows: times.rows(),
            cells: intergreens.cells(),
        }
    }

    /// The numbers of these rows and cells: a row for each group, and the cell of a pair at 64 times its first group and its
    /// second.
    pub fn by(groups: u8, rows: &'a [TimesRow], cells: &'a [Option<u16>]) -> Limits<'a>
        requires { AreNumbers (record { times = rows.now; pairs = record { count = groups; cells = cells.now } }) }
        ensures { result ≡ record { times = rows.now; pairs = record { count = groups; cells = cells.now } } }
    {
        Limits {
            groups,
            rows,
            cells,
        }
    }
}
