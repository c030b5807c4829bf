// The lines of a program that have a statement.
ghost use Rattle.std.specs.Prelude.{◌≡◌, All, IfOk, length, map};
ghost use Rattle.trace_lines.specs.Rows.{IsRowWithin, lines_of, places_in, row_in, row_of, rows_of};

use std::alloc::{AllocError, Global};
use trace_watch::{Mark, statements_in, tests_in};
use vap_code::Instr;

/// A line, and the places in the code of its statements and tests.
#[derive(Drop)]
pub struct Row {
    pub line: u32,
    pub statements: Vec<usize>,
    pub tests: Vec<usize>,
}

// The lines of marks, each once where those of a line stand one after the other.
fn lines_of(alloc: Global, marks: &[Mark]) -> Result<Vec<u32>, AllocError>
    ensures { IfOk result (λ lines. lines.items ≡ lines_of marks.now) }
{
    let mut lines = Vec::new(alloc);
    let mut last = 0;
    for mark in marks {
        if mark.line != last {
            lines.push(mark.line)?;
            last = mark.line;
        }
    }
    Ok(lines)
}

// The places of the marks in a line.
fn places_in(alloc: Global, line: u32, marks: &[Mark]) -> Result<Vec<usize>, AllocError>
    ensures { IfOk result (λ places. places.items ≡ places_in line marks.now) }
{
    let mut places = Vec::new(alloc);
    for mark in marks {
        if mark.line == line {
            places.push(mark.place)?;
        }
    }
    Ok(places)
}

// The row of a line.
fn row_of(alloc: Global, line: u32, statements: &[Mark], tests: &[Mark]) -> Result<Row, AllocError>
    ensures { IfOk result (λ row. row_in row ≡ row_of statements.now tests.now line) }
{
    let statements = places_in(alloc, line, statements)?;
    let tests = places_in(alloc, line, tests)?;
    Ok(Row {
        line,
        statements,
        tests,
    })
}

// The rows of lines.
fn rows_in(
    alloc: Global,
    lines: &[u32],
    statements: &[Mark],
    tests: &[Mark],
) -> Result<Vec<Row>, AllocError>
    ensures { IfOk result (λ rows. map row_in rows.items ≡ map (row_of statements.now tests.now) lines.now) }
{
    let mut rows = Vec::new(alloc);
    for line in lines {
        let row = row_of(alloc, *line, statements, tests)?;
        rows.push(row)?;
    }
    Ok(rows)
}

/// A row for each line in which a statement begins, in the order of the code.
#[tactic(auto, unfolding(crate::specs::Rows::rows_of))]
pub fn rows_of(alloc: Global, instrs: &[Instr]) -> Result<Vec<Row>, AllocError>
    ensures rows { IfOk result (λ rows. map row_in rows.items ≡ rows_of instrs.now) }
    ensures within { IfOk result (λ rows. All (IsRowWithin (length instrs.now)) (rows_of instrs.now)) }
{
    let statements = statements_in(alloc, instrs)?;
    let tests = tests_in(alloc, instrs)?;
    let lines = lines_of(alloc, &statements)?;
    rows_in(alloc, &lines, &statements, &tests)
}
