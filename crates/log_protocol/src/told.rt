// What came, as a page or as the totals of several tells it.
ghost use Rattle.std.specs.Prelude.{◌≡◌, ◌<◌};
ghost use Rattle.log_protocol.specs.Told.{came_by};

use crate::page::Page;
use crate::together::Together;
use crate::totals::Totals;
use log_judge::{Extremes, Kind};
use sig_types::GroupNo;

/// What came.
#[derive(Clone, Copy)]
pub enum Told<'a> {
    /// In the pictures of one page.
    Page(&'a Page),
    /// In all parts of a record.
    Totals(&'a Totals),
}

impl Told<'_> {
    // What came of a group.
    pub(crate) fn runs(self, kind: Kind, g: GroupNo) -> Extremes
        requires { g.0 < 64 }
        ensures { result ≡ (came_by self.entry).runs kind g.0 }
    {
        match self {
            Told::Page(page) => page.runs(kind, g),
            Told::Totals(totals) => totals.runs(kind, g),
        }
    }

    // The changes to a group that turns green from one that ended.
    pub(crate) fn changes(self, to: GroupNo, from: GroupNo) -> Extremes
        requires to { to.0 < 64 }
        requires from { from.0 < 64 }
        ensures { result ≡ (came_by self.entry).changes to.0 from.0 }
    {
        match self {
            Told::Page(page) => page.changes(to, from),
            Told::Totals(totals) => totals.changes(to, from),
        }
    }

    // For how long two groups were green together.
    pub(crate) fn greens(self, one: GroupNo, other: GroupNo) -> Together
        requires one { one.0 < 64 }
        requires other { other.0 < 64 }
        ensures { result ≡ (came_by self.entry).greens one.0 other.0 }
    {
        match self {
            Told::Page(page) => page.greens(one, other),
            Told::Totals(totals) => totals.greens(one, other),
        }
    }
}
