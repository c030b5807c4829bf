// The parts of a plan.
ghost use Rattle.std.specs.Prelude.{◌≡◌, ◌<◌, ℕ, length, slice_index_or, None, false, pos};
ghost use Rattle.pua_model.specs.Wish.{wished_by};

use crate::wish::{is_green_in, wished};
use sig_types::{GroupNo, ShortName, StageNo, Wishes};
use std::marker::Model;

/// A signal group: its name, and its number from 1 to 255.
#[derive(Drop)]
pub struct Group {
    pub name: ShortName,
    pub number: u8,
}

/// A stage: its name, and for each group of the plan whether it is green in the stage.
#[derive(Drop)]
pub struct Stage {
    pub name: ShortName,
    pub greens: Wishes,
}

/// An interstage: its stages, its length in seconds, and the red end and the green end of each group that has a row.
#[derive(Drop)]
pub struct Interstage {
    from: StageNo,
    to: StageNo,
    length: u8,
    rows: Vec<Option<(i8, i8)>>,
}

impl Model for Interstage {
    ghost use Rattle.pua_model.specs.Plan.{InterstageOf};

    ghost Value = { InterstageOf };

    ghost view = { λ i. record { from = i.from.0; to = i.to.0; length = i.length; rows = i.rows.items } };
}

impl Interstage {
    /// The interstage of these parts; `rows` has a place for each group of the plan.
    pub fn of(from: StageNo, to: StageNo, length: u8, rows: Vec<Option<(i8, i8)>>) -> Interstage
        ensures { result ≡ record { from = from.0; to = to.0; length = length; rows = rows.items } }
    {
        Interstage {
            from,
            to,
            length,
            rows,
        }
    }

    /// The stage from which it leads.
    pub fn from_stage(&self) -> StageNo
        ensures { result.0 ≡ self.now.from }
    {
        self.from
    }

    /// The stage to which it leads.
    pub fn to_stage(&self) -> StageNo
        ensures { result.0 ≡ self.now.to }
    {
        self.to
    }

    /// Its length in seconds.
    pub fn seconds(&self) -> u8
        ensures { result ≡ self.now.length }
    {
        self.length
    }

    /// The red end and the green end of a group; None where it has no row.
    pub fn row(&self, g: GroupNo) -> Option<(i8, i8)>
        requires { g.0 < length self.now.rows }
        ensures { result ≡ slice_index_or self.now.rows g.0 None }
    {
        self.rows[g.0 as usize]
    }

    /// Whether a group is wished green in second `t`; `before` tells whether it is green in the from-stage.
    pub(crate) fn wish(&self, t: u8, g: GroupNo, before: bool) -> bool
        requires { g.0 < length self.now.rows }
        ensures { result ≡ wished_by (slice_index_or self.now.rows g.0 None) (pos t) before }
    {
        wished(self.row(g), i16::from(t), before)
    }

    /// Writes the wish in second `t` of each group that has a row. The others stay as they are in the from-stage.
    pub(crate) fn wish_rows(&self, t: u8, out: &mut Wishes)
        requires { length out.old ≡ length self.now.rows }
        ensures groups { length out.new ≡ length out.old }
        ensures wishes { (g : ℕ) → g < length out.old →
            slice_index_or out.new g false ≡ wished_by (slice_index_or self.now.rows g None) (pos t) (slice_index_or out.old g false) }
    {
        let rows: &[Option<(i8, i8)>] = &self.rows;
        for g in 0..out.len() {
            if let Some(row) = rows[g as usize] {
                out.set(g, is_green_in(row, t));
            }
        }
    }
}
