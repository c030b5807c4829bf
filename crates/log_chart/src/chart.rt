// The chart of a history, made picture by picture.
ghost use Rattle.std.specs.Prelude.{◌≡◌, ◌+◌, ◌<◌, ◌≤◌, ◌^◌, [], ℕ, length, slice_index_or, IfOk, OnOk, ◌-◌, map};
ghost use Rattle.sig_types.specs.Turns.{History};
ghost use Rattle.log_chart.specs.Spans.{IsChart};
ghost use Rattle.log_chart.specs.Charted.{AreEmpty};

use crate::{Span, show};
use sig_types::{Aspect, GroupNo, Memory, Picture, Second};
use std::alloc::Global;
use std::marker::Model;

/// The spans of all groups in the seconds from one second on. Contracts see it as a row of spans for each group, the first second,
/// and the one after the last.
#[derive(Drop)]
pub struct Chart {
    rows: Vec<Vec<Span<Aspect>>>,
    from: u32,
    past: u32,
}

impl Model for Chart {
    ghost use Rattle.std.specs.Prelude.{◌≤◌, length, map};
    ghost use Rattle.log_chart.specs.Charted.{Charted};

    ghost Value = { Charted };

    ghost view = { λ c. record { rows = map (λ v. v.items) c.rows.items; from = c.from; past = c.past } };

    ghost invariant = { λ c. (c.from ≤ c.past) × (length c.rows.items ≤ 64) };
}

// A row without spans for each group.
fn no_rows(alloc: Global, groups: u8) -> Result<Vec<Vec<Span<Aspect>>>, Memory>
    ensures { IfOk result (λ v. AreEmpty groups (map (λ r. r.items) v.items)) }
{
    let mut rows = Vec::new(alloc);
    for _group in 0..groups {
        match rows.push(Vec::new(alloc)) {
            Ok(()) => {}
            Err(_) => return Err(Memory),
        }
    }
    Ok(rows)
}

// Puts what each group shows in a picture to the group's row.
fn show_all(
    rows: &mut Vec<Vec<Span<Aspect>>>,
    second: Second,
    picture: &Picture,
) -> Result<(), Memory>
    requires { length picture.now ≡ length rows.old.items }
    ensures size { length rows.new.items ≡ length rows.old.items }
    ensures shown { OnOk result ((h : History) (from : ℕ) → from ≤ second.0 → slice_index_or h second.0 [] ≡ picture.now →
        IsChart h (length picture.now) from second.0 (map (λ v. v.items) rows.old.items) →
        IsChart h (length picture.now) from (second.0 + 1) (map (λ v. v.items) rows.new.items)) }
{
    for place in 0..picture.len() {
        let aspect = picture.get(place);
        let row = &mut rows[usize::from(place)];
        show(row, second, aspect)?;
    }
    Ok(())
}

impl Chart {
    /// The chart of no second, before second `from`.
    pub fn new(alloc: Global, groups: u8, from: Second) -> Result<Chart, Memory>
        requires { groups ≤ 64 }
        ensures from { IfOk result (λ c. (c.from ≡ from.0) × (c.past ≡ from.0)) }
        ensures charted { IfOk result (λ c. (h : History) → IsChart h groups from.0 from.0 c.rows) }
    {
        let rows = no_rows(alloc, groups)?;
        Ok(Chart {
            rows,
            from: from.0,
            past: from.0,
        })
    }

    /// Takes the picture of the next second. After `Memory` the chart is of no use.
    pub fn take(&mut self, picture: &Picture) -> Result<(), Memory>
        requires groups { length picture.now ≡ length self.old.rows }
        requires fits { self.old.past < 2 ^ 32 - 1 }
        ensures from { self.new.from ≡ self.old.from }
        ensures past { OnOk result (self.new.past ≡ self.old.past + 1) }
        ensures groups { length self.new.rows ≡ length self.old.rows }
        ensures charted { OnOk result ((h : History) → slice_index_or h self.old.past [] ≡ picture.now →
            IsChart h (length self.old.rows) self.old.from self.old.past self.old.rows →
            IsChart h (length self.old.rows) self.old.from (self.old.past + 1) self.new.rows) }
    {
        show_all(&mut self.rows, Second(self.past), picture)?;
        self.past += 1;
        Ok(())
    }

    /// The spans of a group.
    pub fn row(&self, group: GroupNo) -> &[Span<Aspect>]
        requires { group.0 < length self.now.rows }
        ensures { result.now ≡ slice_index_or self.now.rows group.0 [] }
    {
        self.rows[usize::from(group.0)].as_slice()
    }
}
