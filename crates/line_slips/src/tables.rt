// Slips in a table.
ghost use Rattle.std.specs.Prelude.{◌≡◌, Some};
ghost use Rattle.line_slips.specs.TableSlips.{begins_with_number, columns_slip, header_slip, is_off_at, name_slip, names_in, number_slip, times_slip};

use crate::bytes::{begins, has_blank};
use crate::slip::TableSlip;
use sig_types::text::{is_digit, number};

/// Which table it is.
#[derive(Clone, Copy, PartialEq, Eq)]
pub enum Table {
    Times,
    Intergreens,
}

// Of a first record that isn't the header, by the words that it begins with.
fn columns_slip(table: Table, row: &[u8]) -> TableSlip
    ensures { result ≡ columns_slip table row.now }
{
    match table {
        Table::Times if begins(row, b"from,to") => TableSlip::PairsAsTimes,
        Table::Intergreens if begins(row, b"group,") => TableSlip::TimesAsPairs,
        Table::Times | Table::Intergreens => TableSlip::OtherWords,
    }
}

/// Of a first record that isn't the header of its table.
#[tactic(auto, unfolding(crate::specs::TableSlips::header_slip))]
pub fn header_slip(table: Table, row: &[u8]) -> Option<TableSlip>
    ensures { result ≡ Some (header_slip table row.now) }
{
    if row.contains(&b';') {
        Some(TableSlip::Semicolons)
    } else if begins(row, b",") {
        Some(TableSlip::Matrix)
    } else {
        Some(columns_slip(table, row))
    }
}

/// Of a record with a name that is no group's.
pub fn name_slip(row: &[u8]) -> Option<TableSlip>
    ensures { result ≡ Some (name_slip row.now) }
{
    if has_blank(row) {
        Some(TableSlip::BlankInRecord)
    } else {
        Some(TableSlip::NoSuchGroup)
    }
}

// Whether a record has a field at this place, from 0, that is no number from the least to the most.
fn is_off(row: &[u8], place: usize, least: u32, most: u32) -> bool
    ensures { result ≡ is_off_at row.now place least most }
{
    match row.split(|b| *b == b',').nth(place) {
        Some(field) => number(field, least, most).is_none(),
        None => false,
    }
}

// Of a record of times: its first number that has another form or is out of range; nothing of one with a quotation mark, whose
// fields need not end at each comma.
#[tactic(auto, unfolding(crate::specs::TableSlips::times_slip))]
fn times_slip(row: &[u8]) -> Option<TableSlip>
    ensures { result ≡ times_slip row.now }
{
    if row.contains(&b'"') {
        None
    } else if is_off(row, 1, 1, 255) {
        Some(TableSlip::MinimumGreen)
    } else if is_off(row, 2, 0, 9) {
        Some(TableSlip::RedAmber)
    } else if is_off(row, 3, 0, 9) {
        Some(TableSlip::Amber)
    } else if is_off(row, 4, 1, 255) {
        Some(TableSlip::MinimumRed)
    } else {
        None
    }
}

/// Of a record with a number that has another form or is out of range.
pub fn number_slip(table: Table, row: &[u8]) -> Option<TableSlip>
    ensures { result ≡ number_slip table row.now }
{
    match table {
        Table::Intergreens => Some(TableSlip::Intergreen),
        Table::Times => times_slip(row),
    }
}

// Whether a text begins with a comma and a digit.
#[tactic(auto, unfolding(crate::specs::TableSlips::begins_with_number))]
fn begins_with_number(text: &[u8]) -> bool
    ensures { result ≡ begins_with_number text.now }
{
    2 <= text.len() && text[0] == b',' && is_digit(text[1])
}

/// The names that a record begins with: what stands before its first number.
#[tactic(auto, unfolding(crate::specs::TableSlips::names_in))]
pub fn names_in(row: &[u8]) -> &[u8]
    ensures { result.now ≡ names_in row.now }
{
    for i in 0..row.len() {
        let (names, here) = row.split_at(i);
        if begins_with_number(here) {
            return names;
        }
    }
    row
}
