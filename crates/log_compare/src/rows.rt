// The rows of a table of sums.
ghost use Rattle.std.specs.Prelude.{◌≡◌, None, Some, MatchOption, IfOk, OnOk, List, map};
ghost use Rattle.log_compare.specs.Rows.{row_of, row_in, rows_of, with_row};

use crate::lines::{behind_first, first_line};
use sig_types::Memory;
use sig_types::text::cut_at;
use std::alloc::Global;

/// A row of a table of sums: what it is of, its key and its value.
#[derive(Clone, Copy)]
pub struct Row<'a> {
    /// The word of the line.
    pub line: &'a [u8],
    /// The name of what it is of.
    pub name: &'a [u8],
    /// The key.
    pub key: &'a [u8],
    /// The value.
    pub value: &'a [u8],
}

// The row that a line is, behind its first and its last second.
#[tactic(auto, unfolding(crate::specs::Rows::row_of))]
fn row_of(line: &[u8]) -> Option<Row<'_>>
    ensures { MatchOption result (row_of line.now ≡ None) (λ row. row_of line.now ≡ Some (row_in row)) }
{
    let (_, rest) = cut_at(b',', line)?;
    let (_, rest) = cut_at(b',', rest)?;
    let (line, rest) = cut_at(b',', rest)?;
    let (name, rest) = cut_at(b',', rest)?;
    let (key, value) = cut_at(b',', rest)?;
    Some(Row {
        line,
        name,
        key,
        value,
    })
}

// Puts the row that a line is behind these.
fn put_row<'a>(rows: &mut Vec<Row<'a>>, line: &'a [u8]) -> Result<(), Memory>
    ensures { OnOk result (map row_in rows.new.items ≡ with_row (map row_in rows.old.items) line.now) }
{
    match row_of(line) {
        None => Ok(()),
        Some(row) => match rows.push(row) {
            Ok(()) => Ok(()),
            Err(_) => Err(Memory),
        },
    }
}

/// The rows of a table of sums, behind the names of its columns.
pub fn rows_of(alloc: Global, table: &[u8]) -> Result<Vec<Row<'_>>, Memory>
    ensures { IfOk result (λ rows. map row_in rows.items ≡ rows_of table.now) }
{
    let mut rows = Vec::new(alloc);
    let mut rest = behind_first(table);
    while !rest.is_empty() {
        let (line, after) = first_line(rest);
        put_row(&mut rows, line)?;
        rest = after;
    }
    Ok(rows)
}
