// All refused records of a table.
ghost use Rattle.std.specs.Prelude.{◌≡◌, ◌++◌, [], ℕ, List, IfOk, OnOk, replicate, false};
ghost use Rattle.sig_types.specs.FirstRefused.{with_line};
ghost use Rattle.table_check.specs.Passed.{HasPassed};
ghost use Rattle.table_check.specs.Read.{HasRead};
ghost use Rattle.table_check.specs.Refused.{refused_records, told};

use crate::header::is_header;
use crate::judge::record_reason;
use crate::rows::Rows;
use crate::table::Table;
use pua_model::Plan;
use sig_tables::TableWhy;
use std::alloc::{AllocError, Global};

/// The number of the last record that is looked at, which an accepted table doesn't have.
const LAST: u32 = 5000;

// A place for each pair of groups, none of which is noted.
fn no_places(alloc: Global) -> Result<Vec<bool>, AllocError>
    ensures { IfOk result (λ v. v.items ≡ replicate 4096 false) }
{
    vec![in alloc; false; 4096]
}

// Puts a record with this number, where there is a reason to refuse it.
fn put_refused(
    refused: &mut Vec<(u32, TableWhy)>,
    number: u32,
    why: Option<TableWhy>,
) -> Result<(), AllocError>
    ensures { OnOk result (refused.new.items ≡ refused.old.items ++ told (with_line number why)) }
{
    if let Some(why) = why {
        refused.push((number, why))?;
    }
    Ok(())
}

// Puts each record behind the header that is refused, up to the last one that is looked at. It owns nothing, so that it has nothing
// to free on its ways out.
fn put_each(
    rows: &mut Rows<'_>,
    seen: &mut [bool],
    refused: &mut Vec<(u32, TableWhy)>,
    plan: &Option<Plan>,
    table: Table,
    fields: usize,
) -> Result<(), AllocError>
    requires { (text : List ℕ) × HasPassed plan.now table text rows.old fields 2 seen.old refused.old.items }
    ensures { OnOk result ((text : List ℕ) → HasPassed plan.now table text rows.old fields 2 seen.old refused.old.items →
        refused.new.items ≡ refused_records table plan.now text) }
{
    for number in 2..LAST + 1 {
        if !rows.next()? {
            return Ok(());
        }
        let why = record_reason(seen, plan, table, fields, &rows.row);
        put_refused(refused, number, why)?;
    }
    Ok(())
}

// Puts each record that is refused, or the header where record 1 is none.
fn put_all(
    alloc: Global,
    rows: &mut Rows<'_>,
    refused: &mut Vec<(u32, TableWhy)>,
    plan: &Option<Plan>,
    table: Table,
) -> Result<(), AllocError>
    requires read { (text : List ℕ) × HasRead rows.old text [] }
    requires none { refused.old.items ≡ [] }
    ensures { OnOk result ((text : List ℕ) → HasRead rows.old text [] → refused.new.items ≡ refused_records table plan.now text) }
{
    if !rows.next()? || !is_header(table, &rows.row) {
        refused.push((1, TableWhy::Header))?;
        return Ok(());
    }
    let fields = rows.row.len();
    let mut seen = no_places(alloc)?;
    put_each(rows, &mut seen, refused, plan, table, fields)?;
    Ok(())
}

/// Each record of a table that is refused, in their order: its number, record 1 being the header, and why. The first one is the
/// header, where record 1 is none, and then no other is looked at. By a plan a record is judged as the table's reader judges it,
/// after all records before it; without one by its fields and numbers alone. Records behind the 5,000th are not looked at.
pub fn refused_records(
    alloc: Global,
    table: Table,
    text: &[u8],
    plan: &Option<Plan>,
) -> Result<Vec<(u32, TableWhy)>, AllocError>
    ensures { IfOk result (λ v. v.items ≡ refused_records table plan.now text.now) }
{
    let mut rows = Rows::open(alloc, text);
    let mut refused = Vec::new(alloc);
    put_all(alloc, &mut rows, &mut refused, plan, table)?;
    Ok(refused)
}
