// The values of a program, each a column of what is written.
ghost use Rattle.std.specs.Prelude.{◌≡◌, ◌≤◌, [], ◌++◌, IfOk, length, map, slice_index_or, unwrap_or};
ghost use Rattle.std.specs.List.{AllByRecursion};
ghost use Rattle.std.specs.Option.{option_copied};
ghost use Rattle.sig_io.specs.Draft.{Puts};
ghost use Rattle.sig_types.specs.Words.{tabulate};
ghost use Rattle.vap_ast.specs.Tree.{array_of, program_of};
ghost use Rattle.trace_told.specs.Columns.{array_columns, cell_behind, columns_of, label_of, name_of, place_text};
ghost use Rattle.trace_told.specs.declared.columns.Column.TheVariants.{Timer, Variable};

use sig_io::{Draft, Sink};
use std::alloc::{AllocError, Global};
use vap_ast::{ArrayDecl, Name};
use vap_check::Checked;

/// A value of a program: a variable or a timer by its number, or a cell of an array by the array's number and the
/// cell's place from 1.
#[derive(Clone, Copy)]
pub enum Column {
    Variable(u16),
    Timer(u16),
    Cell(u16, u16),
}

// Adds all variables.
#[tactic(auto, using(crate::proofs::Filled::steps))]
fn add_variables(columns: &mut Vec<Column>, count: u16) -> Result<(), AllocError>
    ensures { IfOk result (λ _. columns.new.items ≡ columns.old.items ++ tabulate Variable count) }
{
    for v in 0..count {
        columns.push(Column::Variable(v))?;
    }
    Ok(())
}

// Adds all timers.
#[tactic(auto, using(crate::proofs::Filled::steps))]
fn add_timers(columns: &mut Vec<Column>, count: u16) -> Result<(), AllocError>
    ensures { IfOk result (λ _. columns.new.items ≡ columns.old.items ++ tabulate Timer count) }
{
    for t in 0..count {
        columns.push(Column::Timer(t))?;
    }
    Ok(())
}

// Adds all cells of an array.
#[tactic(auto, using(crate::proofs::Filled::steps))]
fn add_cells(columns: &mut Vec<Column>, array: u16, cells: u16) -> Result<(), AllocError>
    requires { cells ≤ 1024 }
    ensures { IfOk result (λ _. columns.new.items ≡ columns.old.items ++ tabulate (cell_behind array) cells) }
{
    for k in 0..cells {
        columns.push(Column::Cell(array, k + 1))?;
    }
    Ok(())
}

// Adds all cells of all arrays.
fn add_arrays(columns: &mut Vec<Column>, arrays: &[ArrayDecl]) -> Result<(), AllocError>
    requires few { length arrays.now ≤ 32 }
    requires sized { AllByRecursion (λ a. (1 ≤ length a.values) × (length a.values ≤ 1024)) (map array_of arrays.now) }
    ensures { IfOk result (λ _. columns.new.items ≡ columns.old.items ++ array_columns 0 (map array_of arrays.now)) }
{
    for a in 0..arrays.len() {
        let cells = arrays[a].values.len() as u16;
        add_cells(columns, a as u16, cells)?;
    }
    Ok(())
}

/// All values of a program: its variables and its timers in the order in which its text first uses them, and then the
/// cells of its arrays in the order of their declarations.
pub fn columns_of(alloc: Global, checked: &Checked) -> Result<Vec<Column>, AllocError>
    ensures columns { IfOk result (λ columns. columns.items ≡ columns_of (program_of checked.now.tree)) }
{
    let mut columns = Vec::new(alloc);
    add_variables(&mut columns, checked.variables())?;
    add_timers(&mut columns, checked.timers())?;
    add_arrays(&mut columns, checked.program().arrays.as_slice())?;
    Ok(columns)
}

// The bytes of a name, if there is one.
fn bytes_of(name: Option<&Name>) -> &[u8]
    ensures { result.now ≡ unwrap_or (option_copied name.entry) [] }
{
    match name {
        Some(name) => name.bytes(),
        None => b"",
    }
}

// The name of an array; no byte where there is none of that number.
#[tactic(auto, using(crate::proofs::ValuesNamed::names))]
fn array_name(arrays: &[ArrayDecl], array: usize) -> &[u8]
    ensures { result.now ≡ slice_index_or (map (λ a. a.name) (map array_of arrays.now)) array [] }
{
    if array < arrays.len() {
        arrays[array].name.bytes()
    } else {
        b""
    }
}

/// The name of a variable, of a timer, or of the array of a cell, in lower case.
#[tactic(auto, using(crate::proofs::ValuesNamed::or_none))]
pub fn name_of(checked: &Checked, column: Column) -> &[u8]
    ensures { result.now ≡ name_of (program_of checked.now.tree) column }
{
    match column {
        Column::Variable(v) => bytes_of(checked.variable_name(v as usize)),
        Column::Timer(t) => bytes_of(checked.timer_name(t as usize)),
        Column::Cell(a, _) => array_name(checked.program().arrays.as_slice(), a as usize),
    }
}

/// Puts bytes of any number.
pub fn put_long<O: Sink>(draft: &mut Draft, out: &mut O, bytes: &[u8])
    ensures { Puts O.taken O.faults draft.old draft.new out.old out.new bytes.now }
{
    let mut at = 0;
    while at < bytes.len() {
        let end = bytes.len().min(at + 4096);
        draft.put(out, &bytes[at..end]);
        at = end;
    }
}

// Puts the place of a cell.
fn put_place<O: Sink>(column: Column, draft: &mut Draft, out: &mut O)
    ensures { Puts O.taken O.faults draft.old draft.new out.old out.new (place_text column) }
{
    match column {
        Column::Variable(_) | Column::Timer(_) => {}
        Column::Cell(_, place) => {
            draft.put(out, b"[");
            draft.put_number(out, u32::from(place));
            draft.put(out, b"]");
        }
    }
}

/// Puts how a value is named: the name of a variable or of a timer, or that of the array with the place of the cell in
/// brackets.
pub fn put_label<O: Sink>(checked: &Checked, column: Column, draft: &mut Draft, out: &mut O)
    ensures { Puts O.taken O.faults draft.old draft.new out.old out.new (label_of (program_of checked.now.tree) column) }
{
    put_long(draft, out, name_of(checked, column));
    put_place(column, draft, out);
}
