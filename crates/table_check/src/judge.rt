// A record of a table, judged after those before it.
ghost use Rattle.std.specs.Prelude.{◌≡◌, ◌++◌, ◌∷◌, [], List, is_some, length};
ghost use Rattle.csv.specs.Records.{fields_of};
ghost use Rattle.sig_tables.specs.Records.{Row};
ghost use Rattle.sig_tables.specs.TimesTable.{min_red_in, times_in};
ghost use Rattle.table_check.specs.Refused.{bare_reason, has_numbers, plan_reason, record_reason};
ghost use Rattle.table_check.specs.Seen.{HasSeen, HasSeenBy, named_reason, wanted};

use crate::rows::field;
use crate::seen::{is_self, note, place_in};
use crate::table::Table;
use csv::ByteRecord;
use pua_model::Plan;
use sig_tables::TableWhy;
use sig_types::text::number;

// Whether the minimum red of a record of times is one in its range; one that has four fields has none.
fn has_min_red(row: &ByteRecord) -> bool
    ensures { result ≡ is_some (min_red_in (fields_of row.now)) }
{
    row.len() == 4 || number(field(row, 4), 1, 255).is_some()
}

// Whether each number of a record of times is one in its range.
#[tactic(auto, using(crate::proofs::Numbers::all_there), unfolding(sig_tables::specs::TimesTable::times_in))]
fn has_times(row: &ByteRecord) -> bool
    ensures { result ≡ is_some (times_in (fields_of row.now)) }
{
    number(field(row, 1), 1, 255).is_some()
        && number(field(row, 2), 0, 9).is_some()
        && number(field(row, 3), 0, 9).is_some()
        && has_min_red(row)
}

// Whether the numbers of a record are in their ranges.
#[tactic(auto, unfolding(sig_tables::specs::IntergreenTable::seconds_in))]
fn has_numbers(table: Table, row: &ByteRecord) -> bool
    ensures { result ≡ has_numbers table (fields_of row.now) }
{
    match table {
        Table::Times => has_times(row),
        Table::Intergreens => number(field(row, 2), 0, 99).is_some(),
    }
}

// The reason to refuse a record after a header of so many fields for its fields and numbers.
#[tactic(auto, unfolding(crate::specs::Refused::bare_reason))]
fn bare_reason(table: Table, fields: usize, row: &ByteRecord) -> Option<TableWhy>
    ensures { result ≡ bare_reason table fields (fields_of row.now) }
{
    if row.len() != fields {
        Some(TableWhy::Fields)
    } else if !has_numbers(table, row) {
        Some(TableWhy::Number)
    } else {
        None
    }
}

// The fields that a record of the table has to have, whose header has so many.
fn wanted(table: Table, fields: usize) -> usize
    ensures { result ≡ wanted table fields }
{
    match table {
        Table::Times => fields,
        Table::Intergreens => 3,
    }
}

// The reason of its fields and numbers, or else that it names no group, one that was named, or one with itself.
fn named_reason(bare: Option<TableWhy>, named: bool, again: bool, itself: bool) -> Option<TableWhy>
    ensures { result ≡ named_reason bare named again itself }
{
    if bare.is_some() {
        bare
    } else if !named {
        Some(TableWhy::UnknownName)
    } else if again {
        Some(TableWhy::Twice)
    } else if itself {
        Some(TableWhy::SelfConflict)
    } else {
        None
    }
}

// The reason to refuse a record by the plan. Notes what it names.
fn plan_reason(
    seen: &mut [bool],
    plan: &Plan,
    table: Table,
    fields: usize,
    row: &ByteRecord,
) -> Option<TableWhy>
    requires { length seen.old ≡ 4096 }
    ensures why { (rows : List Row) → HasSeen plan.now table rows seen.old →
        result ≡ plan_reason plan.now table fields rows (fields_of row.now) }
    ensures seen { (rows : List Row) → HasSeen plan.now table rows seen.old →
        HasSeen plan.now table (rows ++ fields_of row.now ∷ []) seen.new }
    ensures size { length seen.new ≡ 4096 }
{
    let place = place_in(plan, table, row);
    let again = note(seen, place);
    let bare = bare_reason(table, wanted(table, fields), row);
    named_reason(bare, place.is_some(), again, is_self(plan, table, row))
}

/// The reason to refuse a record after a header of so many fields and those before it. Notes what it names, where there is a
/// plan.
pub(crate) fn record_reason(
    seen: &mut [bool],
    plan: &Option<Plan>,
    table: Table,
    fields: usize,
    row: &ByteRecord,
) -> Option<TableWhy>
    requires { length seen.old ≡ 4096 }
    ensures why { (rows : List Row) → HasSeenBy plan.now table rows seen.old →
        result ≡ record_reason plan.now table fields rows (fields_of row.now) }
    ensures seen { (rows : List Row) → HasSeenBy plan.now table rows seen.old →
        HasSeenBy plan.now table (rows ++ fields_of row.now ∷ []) seen.new }
    ensures size { length seen.new ≡ 4096 }
{
    match plan {
        Some(plan) => plan_reason(seen, plan, table, fields, row),
        None => bare_reason(table, fields, row),
    }
}
