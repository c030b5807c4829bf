// The TRACE statements of a program, with their places and their values.
ghost use Rattle.std.specs.Prelude.{◌≡◌, ◌++◌, IfOk, OnOk, false, map, slice_get, slice_index_or};
ghost use Rattle.vap_ast.specs.Tree.{program_of};
ghost use Rattle.trace_told.specs.Traces.{inside, taken, taken_from, trace_at, trace_in, traces_from, traces_of};

use crate::brackets::{Brackets, brackets_in};
use crate::columns::Column;
use crate::named::named_in;
use crate::statements::traces_in;
use std::alloc::{AllocError, Global};
use trace_watch::{Mark, statements_in};
use vap_check::Checked;
use vap_code::Instr;
use vap_lex::Token;

/// A `TRACE` of a program: its place in the code, its line in the text, and the values that it prints.
#[derive(Drop)]
pub struct Trace {
    pub place: usize,
    pub line: u32,
    pub columns: Vec<Column>,
}

// Whether a list says so at a place.
fn says_so(flags: &[bool], k: usize) -> bool
    ensures { result ≡ slice_index_or flags.now k false }
{
    k < flags.len() && flags[k]
}

// Adds a mark, if it is to be taken.
fn add_taken(marks: &mut Vec<Mark>, such: bool, mark: Mark) -> Result<(), AllocError>
    ensures { IfOk result (λ _. marks.new.items ≡ marks.old.items ++ taken such mark) }
{
    if such {
        marks.push(mark)?;
    }
    Ok(())
}

// The marks for which a list says so.
fn taken(alloc: Global, flags: &[bool], marks: &[Mark]) -> Result<Vec<Mark>, AllocError>
    ensures { IfOk result (λ taken. taken.items ≡ taken_from 0 flags.now marks.now) }
{
    let mut taken = Vec::new(alloc);
    for k in 0..marks.len() {
        let mark = marks[k];
        add_taken(&mut taken, says_so(flags, k), mark)?;
    }
    Ok(taken)
}

// The tokens in brackets.
fn inside(tokens: &[Token], brackets: Brackets) -> &[Token]
    ensures { result.now ≡ inside tokens.now brackets }
{
    let first = brackets.first.min(tokens.len());
    let rest = &tokens[first..];
    let long = brackets.end.saturating_sub(brackets.first).min(rest.len());
    &rest[..long]
}

// The brackets at a place of a list, if there are some.
fn brackets_at(brackets: &[Brackets], k: usize) -> Option<Brackets>
    ensures { result ≡ slice_get brackets.now k }
{
    match brackets.get(k) {
        Some(found) => Some(*found),
        None => None,
    }
}

// Adds the TRACE at a mark, if it has brackets.
fn add_trace(
    alloc: Global,
    traces: &mut Vec<Trace>,
    checked: &Checked,
    columns: &[Column],
    tokens: &[Token],
    mark: Mark,
    brackets: Option<Brackets>,
) -> Result<(), AllocError>
    ensures { OnOk result (map trace_in traces.new.items ≡ map trace_in traces.old.items
        ++ trace_at checked.now.names columns.now tokens.now mark brackets) }
{
    let Some(brackets) = brackets else {
        return Ok(());
    };
    let columns = named_in(alloc, checked, columns, inside(tokens, brackets))?;
    let Mark { place, line } = mark;
    traces.push(Trace {
        place,
        line,
        columns,
    })?;
    Ok(())
}

// The TRACE statements at marks, with their brackets.
fn traces_at(
    alloc: Global,
    checked: &Checked,
    columns: &[Column],
    tokens: &[Token],
    brackets: &[Brackets],
    marks: &[Mark],
) -> Result<Vec<Trace>, AllocError>
    ensures { IfOk result (λ traces. map trace_in traces.items ≡ traces_from checked.now.names columns.now tokens.now brackets.now 0 marks.now) }
{
    let mut traces = Vec::new(alloc);
    for k in 0..marks.len() {
        let mark = marks[k];
        let found = brackets_at(brackets, k);
        add_trace(alloc, &mut traces, checked, columns, tokens, mark, found)?;
    }
    Ok(traces)
}

/// The `TRACE` statements of a checked program with the tokens of its text and the instructions of its code, in the order of
/// its text, each with the values among `columns` that it prints.
pub fn traces_of(
    alloc: Global,
    checked: &Checked,
    columns: &[Column],
    tokens: &[Token],
    instrs: &[Instr],
) -> Result<Vec<Trace>, AllocError>
    ensures { IfOk result (λ traces. map trace_in traces.items ≡ traces_of checked.now.names (program_of checked.now.tree) columns.now tokens.now instrs.now) }
{
    let brackets = brackets_in(alloc, tokens)?;
    let flags = traces_in(alloc, checked)?;
    let marks = statements_in(alloc, instrs)?;
    let marks = taken(alloc, &flags, &marks)?;
    traces_at(alloc, checked, columns, tokens, &brackets, &marks)
}
