// Two tables of sums side by side.
ghost use Rattle.std.specs.Prelude.{◌≡◌, ◌++◌, ◌≤◌, ℕ, None, Some, MatchOption, IfOk, OnOk, List, Option, map};
ghost use Rattle.std.specs.List.{flat_map};
ghost use Rattle.std.specs.Option.{option_map};
ghost use Rattle.sig_io.specs.Draft.{Puts};
ghost use Rattle.log_compare.specs.Rows.{row_in, same_key, same_line};
ghost use Rattle.log_compare.specs.Sides.{begin_text, find_value, head_text, lone_sides, name_text, one_side, side_in, side_text, sides_of, sides_text, value_text};

use crate::long::put_long;
use crate::rows::Row;
use sig_io::{Draft, Sink};
use sig_types::Memory;
use std::alloc::Global;

/// A row with the values of both tables.
#[derive(Clone, Copy)]
pub struct Side<'a> {
    /// What it is of, and its key.
    pub row: Row<'a>,
    /// The value in the one table.
    pub one: &'a [u8],
    /// The value in the other table.
    pub other: &'a [u8],
}

// Whether two rows are of one line.
fn same_line(one: &Row<'_>, other: &Row<'_>) -> bool
    ensures { result ≡ same_line (row_in one.now) (row_in other.now) }
{
    one.line == other.line && one.name == other.name
}

// Whether two rows have one key of one line.
fn same_key(one: &Row<'_>, other: &Row<'_>) -> bool
    ensures { result ≡ same_key (row_in one.now) (row_in other.now) }
{
    one.key == other.key && same_line(one, other)
}

// The value of the first of these rows that has the key of this one.
fn find_value<'a>(rows: &[Row<'a>], row: &Row<'_>) -> Option<&'a [u8]>
    ensures { MatchOption result (find_value (map row_in rows.now) (row_in row.now) ≡ None)
        (λ value. find_value (map row_in rows.now) (row_in row.now) ≡ Some value.now) }
{
    for other in rows {
        if same_key(other, row) {
            return Some(other.value);
        }
    }
    None
}

// A row of the one table, beside its value in the other.
fn side_of<'a>(row: Row<'a>, others: &[Row<'a>]) -> Side<'a>
    ensures { side_in result ≡ one_side (map row_in others.now) (row_in row.entry) }
{
    let other: &'a [u8] = match find_value(others, &row) {
        Some(value) => value,
        None => b"-",
    };
    Side {
        row,
        one: row.value,
        other,
    }
}

// Puts the rows of the one table, each beside its value in the other.
fn put_ones<'a>(
    sides: &mut Vec<Side<'a>>,
    ones: &[Row<'a>],
    others: &[Row<'a>],
) -> Result<(), Memory>
    ensures { OnOk result (map side_in sides.new.items
        ≡ map side_in sides.old.items ++ map (one_side (map row_in others.now)) (map row_in ones.now)) }
{
    for row in ones {
        match sides.push(side_of(*row, others)) {
            Ok(()) => {}
            Err(_) => return Err(Memory),
        }
    }
    Ok(())
}

// Puts a row of the other table, unless the one table has it too.
fn put_lone<'a>(sides: &mut Vec<Side<'a>>, ones: &[Row<'a>], row: Row<'a>) -> Result<(), Memory>
    ensures { OnOk result (map side_in sides.new.items ≡ map side_in sides.old.items ++ lone_sides (map row_in ones.now) (row_in row.entry)) }
{
    if find_value(ones, &row).is_some() {
        return Ok(());
    }
    match sides.push(Side {
        row,
        one: b"-",
        other: row.value,
    }) {
        Ok(()) => Ok(()),
        Err(_) => Err(Memory),
    }
}

// Puts the rows that the other table alone has.
fn put_others<'a>(
    sides: &mut Vec<Side<'a>>,
    ones: &[Row<'a>],
    others: &[Row<'a>],
) -> Result<(), Memory>
    ensures { OnOk result (map side_in sides.new.items
        ≡ map side_in sides.old.items ++ flat_map (lone_sides (map row_in ones.now)) (map row_in others.now)) }
{
    for row in others {
        put_lone(sides, ones, *row)?;
    }
    Ok(())
}

/// The rows of two tables side by side: those of the one with their values in the other, and then those that the other alone has.
#[tactic(auto, unfolding(crate::specs::Sides::sides_of))]
pub fn sides_of<'a>(
    alloc: Global,
    ones: &[Row<'a>],
    others: &[Row<'a>],
) -> Result<Vec<Side<'a>>, Memory>
    ensures { IfOk result (λ sides. map side_in sides.items ≡ sides_of (map row_in ones.now) (map row_in others.now)) }
{
    let mut sides = Vec::new(alloc);
    put_ones(&mut sides, ones, others)?;
    put_others(&mut sides, ones, others)?;
    Ok(sides)
}

// Puts a name behind a space, if there is one.
#[tactic(auto, unfolding(crate::specs::Sides::name_text))]
fn put_name<O: Sink>(draft: &mut Draft, sink: &mut O, name: &[u8])
    ensures { Puts O.taken O.faults draft.old draft.new sink.old sink.new (name_text name.now) }
{
    if name.is_empty() {
        return;
    }
    draft.put(sink, b" ");
    put_long(draft, sink, name);
}

// Puts the word and the name of a line.
fn put_head<O: Sink>(draft: &mut Draft, sink: &mut O, row: &Row<'_>)
    ensures { Puts O.taken O.faults draft.old draft.new sink.old sink.new (head_text (row_in row.now)) }
{
    put_long(draft, sink, row.line);
    put_name(draft, sink, row.name);
}

// Begins the line of a row, unless the row before is of it too.
#[tactic(auto, unfolding(crate::specs::Sides::begin_text))]
fn put_begin<O: Sink>(draft: &mut Draft, sink: &mut O, before: Option<Row<'_>>, row: &Row<'_>)
    ensures { Puts O.taken O.faults draft.old draft.new sink.old sink.new (begin_text (option_map row_in before.entry) (row_in row.now)) }
{
    match before {
        None => put_head(draft, sink, row),
        Some(before) => {
            if !same_line(&before, row) {
                draft.put(sink, b"\n");
                put_head(draft, sink, row);
            }
        }
    }
}

// Puts a key with its two values.
fn put_value<O: Sink>(draft: &mut Draft, sink: &mut O, side: &Side<'_>)
    ensures { Puts O.taken O.faults draft.old draft.new sink.old sink.new (value_text (side_in side.now)) }
{
    draft.put(sink, b" ");
    put_long(draft, sink, side.row.key);
    draft.put(sink, b":");
    put_long(draft, sink, side.one);
    draft.put(sink, b"|");
    put_long(draft, sink, side.other);
}

// Puts a row behind another one.
fn put_side<O: Sink>(draft: &mut Draft, sink: &mut O, before: Option<Row<'_>>, side: &Side<'_>)
    ensures { Puts O.taken O.faults draft.old draft.new sink.old sink.new (side_text (option_map row_in before.entry) (side_in side.now)) }
{
    put_begin(draft, sink, before, &side.row);
    put_value(draft, sink, side);
}

/// Puts sides, a line for what each is of, and in it each key with its two values.
#[tactic(auto, unfolding(crate::specs::Sides::sides_text))]
pub fn put_sides<O: Sink>(draft: &mut Draft, sink: &mut O, sides: &[Side<'_>])
    ensures { Puts O.taken O.faults draft.old draft.new sink.old sink.new (sides_text (map side_in sides.now)) }
{
    let mut before = None;
    for side in sides {
        put_side(draft, sink, before, side);
        before = Some(side.row);
    }
    draft.put(sink, b"\n");
}
