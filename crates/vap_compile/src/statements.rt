// The instructions of statements, and of routines.

ghost use Rattle.std.specs.Prelude.{◌≡◌, [], ◌∷◌, ◌+◌, ◌≤◌, length, OnOk};
ghost use Rattle.vap_ast.specs.Names.{meaning_in};
ghost use Rattle.vap_ast.specs.Tree.{expr_of, exprs_of, item_of, items_of, stmt_of};
ghost use Rattle.vap_ast.specs.Mean.{variable_number as variable_number_of, timer_number as timer_number_of};
ghost use Rattle.vap_ast.specs.Sizes as sizes;
ghost use Rattle.vap_code.specs.declared.Instr.TheVariants.{Tick};
ghost use Rattle.vap_compile.specs.Labels.{place_at};
ghost use Rattle.vap_compile.specs.Layout as layout;
ghost use Rattle.vap_compile.specs.Layout.{Appends, assign_code, cell_code, command_code, call_code, stmt_code, item_code, items_code, routine_code};

use crate::expressions::{array_number, emit_expr, emit_exprs, put};
use crate::labels::Labels;
use sig_types::{CommandKind, TimerKind};
use std::alloc::{AllocError, Global};
use vap_ast::{Expr, Item, Meaning, Name, Stmt, items_size};
use vap_check::Checked;
use vap_code::Instr;

fn variable_number(checked: &Checked, name: &Name) -> u16
    ensures { result ≡ variable_number_of (meaning_in checked.now.names name.now) }
{
    match checked.meaning(name) {
        Some(Meaning::Variable(variable)) => variable,
        Some(Meaning::Constant(_))
        | Some(Meaning::Array(_))
        | Some(Meaning::Sub(_))
        | Some(Meaning::Timer(_))
        | None => 0,
    }
}

fn timer_number(checked: &Checked, name: &Name) -> u16
    ensures { result ≡ timer_number_of (meaning_in checked.now.names name.now) }
{
    match checked.meaning(name) {
        Some(Meaning::Timer(timer)) => timer,
        Some(Meaning::Constant(_))
        | Some(Meaning::Array(_))
        | Some(Meaning::Sub(_))
        | Some(Meaning::Variable(_))
        | None => 0,
    }
}

fn sub_number(checked: &Checked, name: &Name) -> u16
    ensures { result ≡ layout.sub_number (meaning_in checked.now.names name.now) }
{
    match checked.meaning(name) {
        Some(Meaning::Sub(sub)) => sub,
        Some(Meaning::Constant(_))
        | Some(Meaning::Array(_))
        | Some(Meaning::Timer(_))
        | Some(Meaning::Variable(_))
        | None => 0,
    }
}

fn timer_instr(kind: TimerKind, timer: u16) -> Instr
    ensures { result ≡ layout.timer_instr kind timer }
{
    match kind {
        TimerKind::Start => Instr::Start(timer),
        TimerKind::Stop => Instr::Stop(timer),
        TimerKind::Reset => Instr::Reset(timer),
    }
}

// A statement of one instruction behind its tick.
#[tactic(auto, using(crate::proofs::Joined::joined, crate::proofs::Joined::one_more))]
fn emit_one(code: &mut Vec<Instr>, line: u32, instr: Instr) -> Result<(), AllocError>
    ensures { OnOk result (Appends code.old.items code.new.items (Tick line ∷ instr ∷ [])) }
{
    put(code, Instr::Tick(line))?;
    put(code, instr)
}

#[tactic(auto, using(crate::proofs::Joined::joined, crate::proofs::Joined::one_more))]
fn emit_assign(
    checked: &Checked,
    code: &mut Vec<Instr>,
    line: u32,
    target: &Name,
    value: &Expr,
) -> Result<(), AllocError>
    ensures { OnOk result (Appends code.old.items code.new.items
        (assign_code checked.now.names line target.now (expr_of value.now))) }
{
    put(code, Instr::Tick(line))?;
    emit_expr(checked, code, value)?;
    put(code, Instr::Store(variable_number(checked, target)))
}

#[tactic(auto, using(crate::proofs::Joined::joined, crate::proofs::Joined::one_more))]
fn emit_cell(
    checked: &Checked,
    code: &mut Vec<Instr>,
    line: u32,
    array: &Name,
    index: &Expr,
    value: &Expr,
) -> Result<(), AllocError>
    ensures { OnOk result (Appends code.old.items code.new.items
        (cell_code checked.now.names line array.now (expr_of index.now) (expr_of value.now))) }
{
    put(code, Instr::Tick(line))?;
    emit_expr(checked, code, index)?;
    emit_expr(checked, code, value)?;
    put(code, Instr::SetCell(array_number(checked, array)))
}

#[tactic(auto, using(crate::proofs::Joined::joined, crate::proofs::Joined::one_more))]
fn emit_command(
    checked: &Checked,
    code: &mut Vec<Instr>,
    line: u32,
    kind: CommandKind,
    args: &[Expr],
) -> Result<(), AllocError>
    ensures { OnOk result (Appends code.old.items code.new.items
        (command_code checked.now.names line kind (exprs_of args.now))) }
{
    put(code, Instr::Tick(line))?;
    emit_exprs(checked, code, args)?;
    put(code, Instr::Do(kind))
}

// A call, and behind it the unit of its return.
#[tactic(auto, using(crate::proofs::Joined::joined, crate::proofs::Joined::one_more))]
fn emit_call(
    checked: &Checked,
    code: &mut Vec<Instr>,
    line: u32,
    sub: &Name,
) -> Result<(), AllocError>
    ensures { OnOk result (Appends code.old.items code.new.items
        (call_code checked.now.names line sub.now)) }
{
    emit_one(code, line, Instr::Call(sub_number(checked, sub)))?;
    put(code, Instr::Tick(line))
}

/// Puts the instructions of a statement: a tick, which spends its unit, and what it does.
#[cycle(routine)]
#[tactic(auto, using(crate::proofs::Joined::joined, crate::proofs::Joined::one_more, crate::proofs::Joined::length_one_more, crate::proofs::Lengths::expr_length, crate::proofs::Lengths::items_length))]
fn emit_stmt(
    checked: &Checked,
    labels: &Labels,
    code: &mut Vec<Instr>,
    line: u32,
    what: &Stmt,
) -> Result<(), AllocError>
    requires { length code.old.items + sizes.stmt_size (stmt_of what.now) ≤ 65535 }
    ensures { OnOk result (Appends code.old.items code.new.items
        (stmt_code checked.now.names (place_at labels.now) (length code.old.items) line (stmt_of what.now))) }
{
    match what {
        Stmt::If { test, yes, no } => {
            put(code, Instr::Tick(line))?;
            emit_expr(checked, code, test)?;
            let at_second = code.len() + items_size(&yes.0) + 2;
            let to_end = at_second + items_size(&no.0);
            put(code, Instr::JumpZero(at_second as u16))?;
            emit_items(checked, labels, code, &yes.0)?;
            put(code, Instr::Jump(to_end as u16))?;
            emit_items(checked, labels, code, &no.0)?;
            Ok(())
        }
        Stmt::Assign { target, value } => emit_assign(checked, code, line, target, value),
        Stmt::Cell {
            array,
            index,
            value,
        } => emit_cell(checked, code, line, array, index, value),
        Stmt::Goto { label } => emit_one(code, line, Instr::Jump(labels.place(label))),
        Stmt::Gosub { sub } => emit_call(checked, code, line, sub),
        Stmt::Do { kind, args } => emit_command(checked, code, line, *kind, args),
        Stmt::Timer { kind, timer } => {
            emit_one(code, line, timer_instr(*kind, timer_number(checked, timer)))
        }
        Stmt::Trace => put(code, Instr::Tick(line)),
    }
}

/// Puts the instructions of an item; a label has none.
#[cycle(routine)]
#[tactic(auto, using(crate::proofs::Lengths::item_length))]
fn emit_item(
    checked: &Checked,
    labels: &Labels,
    code: &mut Vec<Instr>,
    item: &Item,
) -> Result<(), AllocError>
    requires { length code.old.items + sizes.item_size (item_of item.now) ≤ 65535 }
    ensures { OnOk result (Appends code.old.items code.new.items
        (item_code checked.now.names (place_at labels.now) (length code.old.items) (item_of item.now))) }
{
    match item {
        Item::Label { .. } => Ok(()),
        Item::Step { line, what } => emit_stmt(checked, labels, code, *line, what),
    }
}

/// Puts the instructions of items, one after another.
#[cycle(routine)]
#[tactic(auto, using(crate::proofs::Lengths::item_length))]
fn emit_items(
    checked: &Checked,
    labels: &Labels,
    code: &mut Vec<Instr>,
    items: &[Item],
) -> Result<(), AllocError>
    requires { length code.old.items + sizes.items_size (items_of items.now) ≤ 65535 }
    ensures { OnOk result (Appends code.old.items code.new.items
        (items_code checked.now.names (place_at labels.now) (length code.old.items) (items_of items.now))) }
{
    for item in items {
        emit_item(checked, labels, code, item)?;
    }
    Ok(())
}

/// Puts the instructions of a routine: its items, and its return.
#[tactic(auto, using(crate::proofs::Joined::joined, crate::proofs::Joined::one_more))]
pub fn emit_routine(
    alloc: Global,
    checked: &Checked,
    code: &mut Vec<Instr>,
    body: &[Item],
) -> Result<(), AllocError>
    requires { length code.old.items + sizes.items_size (items_of body.now) ≤ 65535 }
    ensures { OnOk result (Appends code.old.items code.new.items
        (routine_code checked.now.names (length code.old.items) (items_of body.now))) }
{
    let labels = Labels::of(alloc, code.len(), body)?;
    emit_items(checked, &labels, code, body)?;
    put(code, Instr::Ret)
}
