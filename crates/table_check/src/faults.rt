// Which bytes of a record the reason to refuse it is about.
ghost use Rattle.std.specs.Prelude.{◌≡◌, ◌≤◌, ◌<◌, ◌+◌, ◌^◌, drop, length};
ghost use Rattle.table_check.specs.Fields.{fields_in};
ghost use Rattle.table_check.specs.Faults as faults;
ghost use Rattle.table_check.specs.Faults.{behind, field_span, header_span, mark_len, name_field, number_field};

use crate::fields::{field, fields_span};
use crate::table::Table;
use pua_model::Plan;
use sig_tables::TableWhy;
use sig_types::text::{number, same_name};

// The first field of a record that isn't the word of the longest header of times at its place; the one behind them, where all are.
fn times_header_field(row: &[u8]) -> usize
    ensures { result ≡ faults.header_field Table.Times (fields_in row.now) }
{
    if !same_name(field(row, 0), b"group") {
        0
    } else if !same_name(field(row, 1), b"min_green") {
        1
    } else if !same_name(field(row, 2), b"red_amber") {
        2
    } else if !same_name(field(row, 3), b"amber") {
        3
    } else if !same_name(field(row, 4), b"min_red") {
        4
    } else {
        5
    }
}

// The same of the header of intergreens.
fn intergreens_header_field(row: &[u8]) -> usize
    ensures { result ≡ faults.header_field Table.Intergreens (fields_in row.now) }
{
    if !same_name(field(row, 0), b"from") {
        0
    } else if !same_name(field(row, 1), b"to") {
        1
    } else if !same_name(field(row, 2), b"seconds") {
        2
    } else {
        3
    }
}

// The first field of a record that isn't the word of the table's header at its place.
fn header_field(table: Table, row: &[u8]) -> usize
    ensures { result ≡ faults.header_field table (fields_in row.now) }
{
    match table {
        Table::Times => times_header_field(row),
        Table::Intergreens => intergreens_header_field(row),
    }
}

// How many bytes of a byte order mark a text begins with.
fn mark_len(row: &[u8]) -> usize
    ensures mark { result ≡ mark_len row.now }
    ensures at_most { result ≤ 3 }
{
    if row.starts_with(&[0xef, 0xbb, 0xbf]) {
        3
    } else {
        0
    }
}

// Bytes that stand behind so many others; none stay none.
fn behind(count: usize, span: (usize, usize)) -> (usize, usize)
    requires { (count ≤ 3) × (span.0 < 2 ^ 63) × (span.1 ≤ 2 ^ 63) }
    ensures { result ≡ behind count span }
{
    if span.1 == 0 {
        (0, 0)
    } else {
        (span.0 + count, span.1 + count)
    }
}

// The first number of times that isn't in its range.
fn times_number_field(row: &[u8]) -> usize
    ensures { result ≡ number_field Table.Times (fields_in row.now) }
{
    if number(field(row, 1), 1, 255).is_none() {
        1
    } else if number(field(row, 2), 0, 9).is_none() {
        2
    } else if number(field(row, 3), 0, 9).is_none() {
        3
    } else {
        4
    }
}

// The first number of a record that isn't in its range.
fn number_field(table: Table, row: &[u8]) -> usize
    ensures { result ≡ number_field table (fields_in row.now) }
{
    match table {
        Table::Times => times_number_field(row),
        Table::Intergreens => 2,
    }
}

// The field of a record of intergreens that names no group, where one does.
#[tactic(auto, unfolding(sig_tables::specs::Groups::group_at))]
fn name_of_pair(plan: &Plan, row: &[u8]) -> usize
    ensures { result ≡ faults.pair_field plan.now (fields_in row.now) }
{
    if plan.find_name(field(row, 0)).is_none() {
        0
    } else {
        1
    }
}

// The field of a record that names no group, where one does.
fn name_field(table: Table, plan: &Option<Plan>, row: &[u8]) -> usize
    ensures { result ≡ name_field table plan.now (fields_in row.now) }
{
    match (table, plan) {
        (Table::Times, _) | (Table::Intergreens, None) => 0,
        (Table::Intergreens, Some(plan)) => name_of_pair(plan, row),
    }
}

// Where a field stands.
fn field_span(row: &[u8], place: usize) -> (usize, usize)
    ensures span { result ≡ field_span row.now place }
    ensures within { (result.0 ≤ length row.now) × (result.1 ≤ length row.now + 1) }
{
    fields_span(row, place, place)
}

// A text from a place on.
fn rest(text: &[u8], place: usize) -> &[u8]
    ensures { result.now ≡ drop place text.now }
{
    let (_, rest) = text.split_at(place.min(text.len()));
    rest
}

// Where the field at fault of a header stands that is none.
fn header_span(table: Table, row: &[u8]) -> (usize, usize)
    ensures { result ≡ header_span table row.now }
{
    let mark = mark_len(row);
    let row = rest(row, mark);
    behind(mark, field_span(row, header_field(table, row)))
}

/// Where the group stands that a record of times names, or the two groups of one of intergreens; from 0 to 0 where they aren't
/// there, or a line ends before the last one does.
pub fn names_span(table: Table, row: &[u8]) -> (usize, usize)
    ensures { result ≡ faults.names_span table row.now }
{
    match table {
        Table::Times => field_span(row, 0),
        Table::Intergreens => fields_span(row, 0, 1),
    }
}

/// From which byte of a record up to which one stands what the reason to refuse it is about: the field that is no word of the
/// header, no number in its range or no group, or what the record names; from 0 to 0 where that is no field of it.
pub fn fault_span(table: Table, plan: &Option<Plan>, why: TableWhy, row: &[u8]) -> (usize, usize)
    ensures { result ≡ faults.fault_span table plan.now why row.now }
{
    match why {
        TableWhy::Header => header_span(table, row),
        TableWhy::Number => field_span(row, number_field(table, row)),
        TableWhy::UnknownName => field_span(row, name_field(table, plan, row)),
        TableWhy::Twice | TableWhy::OneWay(_, _) | TableWhy::SelfConflict => names_span(table, row),
        TableWhy::Fields | TableWhy::Missing(_) => (0, 0),
    }
}
