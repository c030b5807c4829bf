// The reader of the table of times.
ghost use Rattle.std.specs.Prelude.{◌≡◌, ◌+◌, ◌++◌, ◌∷◌, ◌<◌, ◌≤◌, [], None, Some, ℕ, List, length, replicate, drop, IfOk, IfErr, IfSome, Option, All};
ghost use Rattle.csv.specs.Records.{fields_of};
ghost use Rattle.pua_model.specs.Plan.{PlanOf, groups_in};
ghost use Rattle.sig_tables.specs.declared.header.Table.{Table};
ghost use Rattle.sig_tables.specs.Records.{Row, table_rows};
ghost use Rattle.sig_tables.specs.Refusals.{IsRefusal};
ghost use Rattle.sig_tables.specs.Groups.{group_at};
ghost use Rattle.sig_tables.specs.Held.{empties};
ghost use Rattle.tenth_tables.specs.Times.{IsRow, min_red_in, times_in, times_form, times_reason, missing_times, times_below, times_refused, times_refusal, times_of};
ghost use Rattle.tenth_tables.specs.Held.{HasHeader, HasTimes, HoldsTimes, ReadsTimes};

use crate::tables::TenthTimes;
use csv::ByteRecord;
use pua_model::Plan;
use sig_tables::{Records, Table, TableRefusal, TableWhy, TimesRow, amount, field, read_header};
use sig_types::GroupNo;
use std::alloc::{AllocError, Global};

// The minimum red of a record, where it is one in its range; one second where a record of four fields has none.
fn min_red_in(row: &ByteRecord) -> Option<u16>
    requires { 4 ≤ length (fields_of row.now) }
    ensures red { result ≡ min_red_in (fields_of row.now) }
    ensures range { IfSome result (λ n. (10 ≤ n) × (n ≤ 2550)) }
{
    if row.len() == 4 {
        Some(10)
    } else {
        amount(field(row, 4), 10, 2550)
    }
}

// The numbers of a record, where each is one in its range.
#[tactic(auto, unfolding(crate::specs::Times::times_in))]
fn times_in(row: &ByteRecord) -> Option<TimesRow>
    requires { 4 ≤ length (fields_of row.now) }
    ensures times { result ≡ times_in (fields_of row.now) }
    ensures range { IfSome result (λ t. IsRow t) }
{
    let min = amount(field(row, 1), 10, 2550)?;
    let red_amber = amount(field(row, 2), 0, 90)?;
    let amber = amount(field(row, 3), 0, 90)?;
    let min_red = min_red_in(row)?;
    Some(TimesRow {
        min,
        red_amber,
        amber,
        min_red,
    })
}

// The group of a record and its times, where it has so many fields.
#[tactic(auto, unfolding(crate::specs::Times::times_form))]
fn times_record(
    row: &ByteRecord,
    plan: &Plan,
    fields: usize,
) -> Result<(GroupNo, TimesRow), TableWhy>
    requires { 4 ≤ fields }
    ensures refused { IfErr result (λ why. times_form plan.now fields (fields_of row.now) ≡ Some why) }
    ensures accepted { IfOk result (λ r. times_form plan.now fields (fields_of row.now) ≡ None) }
    ensures group { IfOk result (λ r. group_at plan.now (fields_of row.now) 0 ≡ Some r.0.0) }
    ensures inside { IfOk result (λ r. r.0.0 < groups_in plan.now) }
    ensures times { IfOk result (λ r. times_in (fields_of row.now) ≡ Some r.1) }
    ensures range { IfOk result (λ r. IsRow r.1) }
{
    if row.len() != fields {
        return Err(TableWhy::Fields);
    }
    let Some(times) = times_in(row) else {
        return Err(TableWhy::Number);
    };
    let Some(group) = plan.find_name(field(row, 0)) else {
        return Err(TableWhy::UnknownName);
    };
    Ok((group, times))
}

// Takes the record's times into the place of its group.
fn add_times(
    held: &mut [Option<TimesRow>],
    row: &ByteRecord,
    plan: &Plan,
    fields: usize,
) -> Result<(), TableWhy>
    requires groups { length held.old ≡ groups_in plan.now }
    requires fields { 4 ≤ fields }
    ensures refused { IfErr result (λ why. (rows : List Row) → HoldsTimes plan.now rows held.old →
        times_reason plan.now fields rows (fields_of row.now) ≡ Some why) }
    ensures accepted { IfOk result (λ _. (rows : List Row) → HoldsTimes plan.now rows held.old →
        times_reason plan.now fields rows (fields_of row.now) ≡ None) }
    ensures held { IfOk result (λ _. (rows : List Row) → HoldsTimes plan.now rows held.old →
        HoldsTimes plan.now (rows ++ fields_of row.now ∷ []) held.new) }
    ensures fills { IfOk result (λ _. empties held.new + 1 ≡ empties held.old) }
{
    let (group, times) = times_record(row, plan, fields)?;
    let place = group.0 as usize;
    if held[place].is_some() {
        return Err(TableWhy::Twice);
    }
    held[place] = Some(times);
    Ok(())
}

// A place for each group of the plan, all empty.
fn no_times(alloc: Global, plan: &Plan) -> Result<Vec<Option<TimesRow>>, TableRefusal>
    ensures empty { IfOk result (λ v. v.items ≡ replicate (groups_in plan.now) None) }
    ensures at_least { 1 ≤ groups_in plan.now }
    ensures at_most { groups_in plan.now ≤ 64 }
    ensures memory { IfErr result (λ e. e ≡ TableRefusal.Memory) }
{
    let groups = plan.groups() as usize;
    let held: Result<Vec<Option<TimesRow>>, AllocError> = vec![in alloc; None; groups];
    held.map_err(|_| TableRefusal::Memory)
}

// The times of the groups, where each has some.
fn complete(alloc: Global, held: &[Option<TimesRow>]) -> Result<Vec<TimesRow>, TableRefusal>
    requires at_most { length held.now ≤ 64 }
    ensures missing { IfErr result
        (λ e. (plan : PlanOf) (rows : List Row) → HoldsTimes plan rows held.now → IsRefusal (missing_times plan rows) e) }
    ensures complete { IfOk result
        (λ _. (plan : PlanOf) (rows : List Row) → HoldsTimes plan rows held.now → missing_times plan rows ≡ None) }
    ensures times { IfOk result (λ t. (plan : PlanOf) (rows : List Row) → HoldsTimes plan rows held.now →
        t.items ≡ times_below plan rows (groups_in plan)) }
    ensures range { IfOk result (λ t. (plan : PlanOf) (rows : List Row) → HoldsTimes plan rows held.now →
        All IsRow t.items) }
    ensures count { IfOk result (λ t. length t.items ≡ length held.now) }
{
    let mut times = Vec::new(alloc);
    for (g, row) in held.iter().enumerate() {
        let Some(row) = row else {
            return Err(TableRefusal::At {
                line: 0,
                why: TableWhy::Missing(GroupNo(g as u8)),
            });
        };
        if times.push(*row).is_err() {
            return Err(TableRefusal::Memory);
        }
    }
    Ok(times)
}

// Takes the times of all records behind the header. It owns nothing, so that it has nothing to free on its ways out.
fn take_times(
    held: &mut [Option<TimesRow>],
    records: &mut Records<'_>,
    plan: &Plan,
    fields: usize,
) -> Result<(), TableRefusal>
    requires begins { (text : List ℕ) × ReadsTimes plan.now fields text records.old held.old }
    requires fields { 4 ≤ fields }
    ensures refused { IfErr result (λ e. (text : List ℕ) → ReadsTimes plan.now fields text records.old held.old →
        IsRefusal (times_refused plan.now (table_rows text)) e) }
    ensures read { IfOk result (λ _. (text : List ℕ) → ReadsTimes plan.now fields text records.old held.old →
        HasTimes plan.now text held.new) }
    ensures size { length held.new ≡ length held.old }
{
    while records.next()? {
        if let Err(why) = add_times(held, &records.row, plan, fields) {
            return Err(TableRefusal::At {
                line: records.number,
                why,
            });
        }
    }
    Ok(())
}

// The times of the groups, by a reader that has read the header.
fn times_by(
    alloc: Global,
    records: &mut Records<'_>,
    plan: &Plan,
) -> Result<Vec<TimesRow>, TableRefusal>
    requires begins { (text : List ℕ) × HasHeader Table.Times records.old text }
    ensures refused { IfErr result (λ e. (text : List ℕ) → HasHeader Table.Times records.old text →
        IsRefusal (times_refused plan.now (table_rows text)) e) }
    ensures accepted { IfOk result (λ _. (text : List ℕ) → HasHeader Table.Times records.old text →
        times_refused plan.now (table_rows text) ≡ None) }
    ensures times { IfOk result (λ t. (text : List ℕ) → HasHeader Table.Times records.old text →
        t.items ≡ times_below plan.now (drop 1 (table_rows text)) (groups_in plan.now)) }
    ensures range { IfOk result (λ t. All IsRow t.items) }
    ensures count { IfOk result (λ t. length t.items ≡ groups_in plan.now) }
    ensures at_least { IfOk result (λ t. 1 ≤ length t.items) }
    ensures at_most { IfOk result (λ t. length t.items ≤ 64) }
{
    let fields = records.row.len();
    let mut held = no_times(alloc, plan)?;
    take_times(&mut held, records, plan, fields)?;
    complete(alloc, &held)
}

/// Reads a table of times in tenths of a second. It is a table of times of whole seconds, but that each number may have one
/// decimal behind a point; the ranges are those of whole seconds, and so is the minimum red of a table without that column.
pub fn read_tenth_times(
    alloc: Global,
    bytes: &[u8],
    plan: &Plan,
) -> Result<TenthTimes, TableRefusal>
    ensures refused { IfErr result (λ e. IsRefusal (times_refusal plan.now bytes.now) e) }
    ensures accepted { IfOk result (λ _. times_refusal plan.now bytes.now ≡ None) }
    ensures times { IfOk result (λ t. t ≡ times_of plan.now bytes.now) }
    ensures groups { IfOk result (λ t. length t ≡ groups_in plan.now) }
{
    let mut records = read_header(alloc, bytes, Table::Times)?;
    let rows = times_by(alloc, &mut records, plan)?;
    Ok(TenthTimes::of(rows))
}
