// The values of a program, kept before a second.
ghost use Rattle.std.specs.Prelude.{◌≡◌, IfOk, map, pos, slice_index_or};
ghost use Rattle.sig_types.specs.Pass.{cell};
ghost use Rattle.vap_code.specs.Stores.{stopped};
ghost use Rattle.trace_told.specs.ValueRows.{or_zero};
ghost use Rattle.trace_told.specs.Listing.{column_of, kept_anew, kept_of, value_in};

use crate::columns::Column;
use sig_types::Clock;
use std::alloc::{AllocError, Global};
use vap_vm::Vm;

/// A value of a program, and what it was before a second.
#[derive(Clone, Copy)]
pub struct Kept {
    /// The value.
    pub column: Column,
    /// What it was: that of a timer is its count.
    pub before: i64,
}

// The number at a place; 0 where there is none.
fn number_at(numbers: &[i32], place: usize) -> i64
    ensures { result ≡ slice_index_or numbers.now place (pos 0) }
{
    match numbers.get(place) {
        Some(number) => i64::from(*number),
        None => 0,
    }
}

// The count of the timer at a place; 0 where there is none.
fn count_at(timers: &[Clock], place: usize) -> i64
    ensures { result ≡ pos (slice_index_or timers.now place stopped).count }
{
    match timers.get(place) {
        Some(timer) => i64::from(timer.count),
        None => 0,
    }
}

// The number in a cell; 0 where there is none.
fn number_in(vm: &Vm, array: u16, place: u16) -> i64
    ensures { result ≡ or_zero (cell vm.now.store array (pos place)) }
{
    match vm.cell(array, i32::from(place)) {
        Ok(number) => i64::from(number),
        Err(_) => 0,
    }
}

/// A value as it stands.
pub(crate) fn value_in(vm: &Vm, column: Column) -> i64
    ensures { result ≡ value_in vm.now.store column }
{
    match column {
        Column::Variable(v) => number_at(vm.variables(), v as usize),
        Column::Timer(t) => count_at(vm.timers(), t as usize),
        Column::Cell(a, place) => number_in(vm, a, place),
    }
}

/// Room for these values.
pub(crate) fn room_for(alloc: Global, columns: &[Column]) -> Result<Vec<Kept>, AllocError>
    ensures { IfOk result (λ kept. map column_of kept.items ≡ columns.now) }
{
    let mut kept = Vec::new(alloc);
    for column in columns {
        kept.push(Kept {
            column: *column,
            before: 0,
        })?;
    }
    Ok(kept)
}

// A value as it stands, kept.
fn kept_of(vm: &Vm, column: Column) -> Kept
    ensures { result ≡ kept_of vm.now.store column }
{
    Kept {
        column,
        before: value_in(vm, column),
    }
}

/// Keeps the values as they stand.
pub(crate) fn keep(kept: &mut Vec<Kept>, vm: &Vm)
    ensures { kept.new.items ≡ map (kept_anew vm.now.store) kept.old.items }
{
    for place in 0..kept.len() {
        let column = kept[place].column;
        kept[place] = kept_of(vm, column);
    }
}
