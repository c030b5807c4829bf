// Arguments, indexes, divisors and targets that are mostly meant otherwise.
ghost use Rattle.std.specs.Prelude.{◌≡◌, ◌++◌, flat_map, map, OnOk};
ghost use Rattle.std.specs.List.{list_any};
ghost use Rattle.std.specs.Str.{bytes_eq};
ghost use Rattle.sig_types.specs.Text as text_of;
ghost use Rattle.vap_ast.specs.Tree.{array_of, expr_of, exprs_of, stmt_of, item_of, items_of, program_of, routine_of};
ghost use Rattle.program_check.specs.Misuses as misuses;

use crate::called::first;
use crate::calls::{CallKind, Named, names};
use crate::constants::known;
use crate::counted::is_command;
use crate::uses::is_variable;
use crate::warnings::{Meant, PlanPart, ProgramWarning, Warned, warn};
use pua_model::Plan;
use sig_types::CommandKind;
use sig_types::text::same_name;
use std::alloc::{AllocError, Global};
use vap_ast::{ArrayDecl, BinaryOp, Expr, Item, Name, Routine, Stmt};
use vap_check::Checked;

// Whether a signal group of the plan has this name.
fn is_group_name(plan: &Option<Plan>, name: &[u8]) -> bool
    ensures { result ≡ misuses.is_group_name plan.now name.now }
{
    match plan {
        Some(plan) => plan.find_name(name).is_some(),
        None => false,
    }
}

// Whether one of these stages has this name.
fn has_name(stages: &[Vec<u8>], name: &[u8]) -> bool
    ensures { result ≡ list_any (λ s. text_of.same_name s name.now) (map (λ v. v.items) stages.now) }
{
    for stage in stages {
        if same_name(stage, name) {
            return true;
        }
    }
    false
}

// Whether there is a plan, and one of these names of its stages is this one.
fn is_stage_name(plan: &Option<Plan>, stages: &[Vec<u8>], name: &[u8]) -> bool
    ensures { result ≡ misuses.is_stage_name plan.now (map (λ v. v.items) stages.now) name.now }
{
    match plan {
        Some(_) => has_name(stages, name),
        None => false,
    }
}

// The part of the plan that has this name and is of the kind that numbers here name.
fn part_named(plan: &Option<Plan>, stages: &[Vec<u8>], kind: Named, name: &[u8]) -> Option<PlanPart>
    ensures { result ≡ misuses.part_named plan.now (map (λ v. v.items) stages.now) kind name.now }
{
    match kind {
        Named::Group => {
            if is_group_name(plan, name) {
                Some(PlanPart::Group)
            } else {
                None
            }
        }
        Named::Stage | Named::Interstage => {
            if is_stage_name(plan, stages, name) {
                Some(PlanPart::Stage)
            } else {
                None
            }
        }
        Named::Detector | Named::Nothing => None,
    }
}

// Warns of a name that is that of a part of the plan.
fn warn_of_part(
    alloc: Global,
    line: u32,
    name: &Name,
    part: Option<PlanPart>,
    warned: &mut Vec<Warned>,
) -> Result<(), AllocError>
    ensures { OnOk result (warned.new.items ≡ warned.old.items ++ misuses.part_told line name.now part) }
{
    let Some(part) = part else {
        return Ok(());
    };
    match name.copy(alloc) {
        Ok(name) => warn(
            warned,
            line,
            Meant::Name,
            ProgramWarning::NameAsNumber(part, name),
        ),
        Err(_) => Err(AllocError),
    }
}

// Whether `Set_cycle` takes this number of seconds.
fn is_cycle_length(seconds: i32) -> bool
    ensures { result ≡ misuses.is_cycle_length seconds }
{
    0 <= seconds && seconds <= 9999
}

// Warns of a known number of seconds that `Set_cycle` does not take.
fn warn_of_length(
    line: u32,
    kind: CallKind,
    seconds: Option<i32>,
    warned: &mut Vec<Warned>,
) -> Result<(), AllocError>
    ensures { OnOk result (warned.new.items ≡ warned.old.items ++ misuses.length_told line kind seconds) }
{
    match seconds {
        Some(seconds) => {
            if is_cycle_length(seconds) {
                return Ok(());
            }
            let meant = Meant::First(kind, seconds);
            warn(
                warned,
                line,
                meant,
                ProgramWarning::ConstantArgument(seconds),
            )
        }
        None => Ok(()),
    }
}

// The size of the array of this name.
fn size_in(arrays: &[ArrayDecl], name: &Name) -> Option<i32>
    ensures { result ≡ misuses.size_in (map array_of arrays.now) name.now }
{
    for decl in arrays {
        if decl.name == *name {
            return Some(decl.size);
        }
    }
    None
}

// Whether an array of this size has this cell.
fn is_cell(size: i32, index: i32) -> bool
    ensures { result ≡ misuses.is_cell size index }
{
    1 <= index && index <= size
}

// Warns of a known number that is no cell of an array of this size.
fn warn_of_cell(
    alloc: Global,
    line: u32,
    array: &Name,
    size: Option<i32>,
    index: Option<i32>,
    warned: &mut Vec<Warned>,
) -> Result<(), AllocError>
    ensures { OnOk result (warned.new.items ≡ warned.old.items ++ misuses.cell_told line array.now size index) }
{
    match (size, index) {
        (Some(size), Some(index)) => {
            if is_cell(size, index) {
                return Ok(());
            }
            match array.copy(alloc) {
                Ok(array) => warn(
                    warned,
                    line,
                    Meant::Name,
                    ProgramWarning::ConstantIndex(index, array),
                ),
                Err(_) => Err(AllocError),
            }
        }
        (Some(_), None) | (None, _) => Ok(()),
    }
}

// Whether an operator divides.
fn is_division(op: BinaryOp) -> bool
    ensures { result ≡ misuses.is_division op }
{
    match op {
        BinaryOp::Div => true,
        BinaryOp::Or
        | BinaryOp::And
        | BinaryOp::Eq
        | BinaryOp::Ne
        | BinaryOp::Lt
        | BinaryOp::Le
        | BinaryOp::Gt
        | BinaryOp::Ge
        | BinaryOp::Add
        | BinaryOp::Sub
        | BinaryOp::Mul => false,
    }
}

// Whether a known number is 0.
fn is_zero(number: Option<i32>) -> bool
    ensures { result ≡ misuses.is_zero number }
{
    match number {
        Some(number) => number == 0,
        None => false,
    }
}

// Warns of a division by a known 0.
fn warn_of_divisor(
    line: u32,
    op: BinaryOp,
    divisor: Option<i32>,
    warned: &mut Vec<Warned>,
) -> Result<(), AllocError>
    ensures { OnOk result (warned.new.items ≡ warned.old.items ++ misuses.divisor_told line op divisor) }
{
    if is_division(op) && is_zero(divisor) {
        warn(warned, line, Meant::Line, ProgramWarning::DivisionByZero)
    } else {
        Ok(())
    }
}

fn is_same(name: &[u8], word: &[u8]) -> bool
    ensures { result ≡ bytes_eq name.now word.now }
{
    name == word
}

// Whether a word reads the cycle where nothing assigns it.
fn is_cycle_word(name: &[u8]) -> bool
    ensures { result ≡ misuses.is_cycle_word name.now }
{
    is_same(name, b"t") || is_same(name, b"tc")
}

// Warns of a word of the cycle that is assigned.
fn warn_of_target(
    alloc: Global,
    line: u32,
    name: &Name,
    warned: &mut Vec<Warned>,
) -> Result<(), AllocError>
    ensures { OnOk result (warned.new.items ≡ warned.old.items ++ misuses.target_told line name.now) }
{
    if !is_cycle_word(name.bytes()) {
        return Ok(());
    }
    match name.copy(alloc) {
        Ok(name) => warn(
            warned,
            line,
            Meant::Name,
            ProgramWarning::CycleNameAssigned(name),
        ),
        Err(_) => Err(AllocError),
    }
}

// Warns of an argument that is a variable, and has the name of a part of the plan.
fn warn_of_argument(
    alloc: Global,
    checked: &Checked,
    plan: &Option<Plan>,
    stages: &[Vec<u8>],
    line: u32,
    kind: Named,
    arg: &Expr,
    warned: &mut Vec<Warned>,
) -> Result<(), AllocError>
    ensures { OnOk result (warned.new.items ≡ warned.old.items
        ++ misuses.argument_told checked.now.names plan.now (map (λ v. v.items) stages.now) line kind (expr_of arg.now)) }
{
    match arg {
        Expr::Name(name) => {
            if !is_variable(checked.meaning(name)) {
                return Ok(());
            }
            let part = part_named(plan, stages, kind, name.bytes());
            warn_of_part(alloc, line, name, part, warned)
        }
        Expr::Literal(_)
        | Expr::Cell { .. }
        | Expr::Unary { .. }
        | Expr::Binary { .. }
        | Expr::Read { .. } => Ok(()),
    }
}

// Warns of all arguments of a kind.
fn warn_of_arguments(
    alloc: Global,
    checked: &Checked,
    plan: &Option<Plan>,
    stages: &[Vec<u8>],
    line: u32,
    kind: Named,
    args: &[Expr],
    warned: &mut Vec<Warned>,
) -> Result<(), AllocError>
    ensures { OnOk result (warned.new.items ≡ warned.old.items
        ++ misuses.arguments_told checked.now.names plan.now (map (λ v. v.items) stages.now) line kind (exprs_of args.now)) }
{
    for arg in args {
        warn_of_argument(alloc, checked, plan, stages, line, kind, arg, warned)?;
    }
    Ok(())
}

// Warns of a command or a reading with these arguments.
fn warn_of_call(
    alloc: Global,
    checked: &Checked,
    plan: &Option<Plan>,
    stages: &[Vec<u8>],
    line: u32,
    kind: CallKind,
    args: &[Expr],
    warned: &mut Vec<Warned>,
) -> Result<(), AllocError>
    ensures { OnOk result (warned.new.items ≡ warned.old.items
        ++ misuses.call_told checked.now.names plan.now (map (λ v. v.items) stages.now) line kind (exprs_of args.now)) }
{
    warn_of_arguments(
        alloc,
        checked,
        plan,
        stages,
        line,
        names(kind),
        args,
        warned,
    )?;
    if is_command(kind, CommandKind::SetCycle) {
        warn_of_length(line, kind, first(checked, args), warned)
    } else {
        Ok(())
    }
}

// Warns of a cell with this index.
fn warn_of_index(
    alloc: Global,
    checked: &Checked,
    line: u32,
    array: &Name,
    index: &Expr,
    warned: &mut Vec<Warned>,
) -> Result<(), AllocError>
    ensures { OnOk result (warned.new.items ≡ warned.old.items
        ++ misuses.index_told checked.now.names (program_of checked.now.tree).arrays line array.now (expr_of index.now)) }
{
    let size = size_in(&checked.program().arrays, array);
    warn_of_cell(alloc, line, array, size, known(checked, index), warned)
}

#[cycle(expression_misuses)]
fn warn_of_expr(
    alloc: Global,
    checked: &Checked,
    plan: &Option<Plan>,
    stages: &[Vec<u8>],
    line: u32,
    e: &Expr,
    warned: &mut Vec<Warned>,
) -> Result<(), AllocError>
    ensures { OnOk result (warned.new.items ≡ warned.old.items
        ++ misuses.expr_misuses checked.now.names (program_of checked.now.tree).arrays plan.now (map (λ v. v.items) stages.now) line
        (expr_of e.now)) }
{
    match e {
        Expr::Literal(_) | Expr::Name(_) => Ok(()),
        Expr::Cell { array, index } => {
            warn_of_index(alloc, checked, line, array, index, warned)?;
            warn_of_expr(alloc, checked, plan, stages, line, index, warned)
        }
        Expr::Unary { arg, .. } => warn_of_expr(alloc, checked, plan, stages, line, arg, warned),
        Expr::Binary { op, left, right } => {
            warn_of_divisor(line, *op, known(checked, right), warned)?;
            warn_of_expr(alloc, checked, plan, stages, line, left, warned)?;
            warn_of_expr(alloc, checked, plan, stages, line, right, warned)
        }
        Expr::Read { kind, args } => {
            let kind = CallKind::Reading(*kind);
            warn_of_call(alloc, checked, plan, stages, line, kind, args, warned)?;
            warn_of_exprs(alloc, checked, plan, stages, line, args, warned)
        }
    }
}

#[cycle(expression_misuses)]
fn warn_of_exprs(
    alloc: Global,
    checked: &Checked,
    plan: &Option<Plan>,
    stages: &[Vec<u8>],
    line: u32,
    args: &[Expr],
    warned: &mut Vec<Warned>,
) -> Result<(), AllocError>
    ensures { OnOk result (warned.new.items ≡ warned.old.items
        ++ misuses.exprs_misuses checked.now.names (program_of checked.now.tree).arrays plan.now (map (λ v. v.items) stages.now) line
        (exprs_of args.now)) }
{
    for arg in args {
        warn_of_expr(alloc, checked, plan, stages, line, arg, warned)?;
    }
    Ok(())
}

#[cycle(statement_misuses)]
fn warn_of_item(
    alloc: Global,
    checked: &Checked,
    plan: &Option<Plan>,
    stages: &[Vec<u8>],
    item: &Item,
    warned: &mut Vec<Warned>,
) -> Result<(), AllocError>
    ensures { OnOk result (warned.new.items ≡ warned.old.items
        ++ misuses.item_misuses checked.now.names (program_of checked.now.tree).arrays plan.now (map (λ v. v.items) stages.now)
        (item_of item.now)) }
{
    match item {
        Item::Label { .. } => Ok(()),
        Item::Step { line, what } => {
            warn_of_stmt(alloc, checked, plan, stages, *line, what, warned)
        }
    }
}

#[cycle(statement_misuses)]
fn warn_of_stmt(
    alloc: Global,
    checked: &Checked,
    plan: &Option<Plan>,
    stages: &[Vec<u8>],
    line: u32,
    what: &Stmt,
    warned: &mut Vec<Warned>,
) -> Result<(), AllocError>
    ensures { OnOk result (warned.new.items ≡ warned.old.items
        ++ misuses.stmt_misuses checked.now.names (program_of checked.now.tree).arrays plan.now (map (λ v. v.items) stages.now) line
        (stmt_of what.now)) }
{
    match what {
        Stmt::Assign { target, value } => {
            warn_of_target(alloc, line, target, warned)?;
            warn_of_expr(alloc, checked, plan, stages, line, value, warned)
        }
        Stmt::Cell {
            array,
            index,
            value,
        } => {
            warn_of_index(alloc, checked, line, array, index, warned)?;
            warn_of_expr(alloc, checked, plan, stages, line, index, warned)?;
            warn_of_expr(alloc, checked, plan, stages, line, value, warned)
        }
        Stmt::If { test, yes, no } => {
            warn_of_expr(alloc, checked, plan, stages, line, test, warned)?;
            warn_of_items(alloc, checked, plan, stages, &yes.0, warned)?;
            warn_of_items(alloc, checked, plan, stages, &no.0, warned)
        }
        Stmt::Do { kind, args } => {
            let kind = CallKind::Command(*kind);
            warn_of_call(alloc, checked, plan, stages, line, kind, args, warned)?;
            warn_of_exprs(alloc, checked, plan, stages, line, args, warned)
        }
        Stmt::Goto { .. } | Stmt::Gosub { .. } | Stmt::Timer { .. } | Stmt::Trace => Ok(()),
    }
}

#[cycle(statement_misuses)]
fn warn_of_items(
    alloc: Global,
    checked: &Checked,
    plan: &Option<Plan>,
    stages: &[Vec<u8>],
    items: &[Item],
    warned: &mut Vec<Warned>,
) -> Result<(), AllocError>
    ensures { OnOk result (warned.new.items ≡ warned.old.items
        ++ misuses.items_misuses checked.now.names (program_of checked.now.tree).arrays plan.now (map (λ v. v.items) stages.now)
        (items_of items.now)) }
{
    for item in items {
        warn_of_item(alloc, checked, plan, stages, item, warned)?;
    }
    Ok(())
}

fn warn_of_subs(
    alloc: Global,
    checked: &Checked,
    plan: &Option<Plan>,
    stages: &[Vec<u8>],
    subs: &[Routine],
    warned: &mut Vec<Warned>,
) -> Result<(), AllocError>
    ensures { OnOk result (warned.new.items ≡ warned.old.items
        ++ flat_map (misuses.items_misuses checked.now.names (program_of checked.now.tree).arrays plan.now (map (λ v. v.items) stages.now))
        (map (λ r. r.body) (map routine_of subs.now))) }
{
    for sub in subs {
        warn_of_items(alloc, checked, plan, stages, &sub.body.0, warned)?;
    }
    Ok(())
}

/// Warns of names in the place of numbers, of known numbers that are out of their range, of divisions by a known 0, and of the words
/// of the cycle that are assigned.
pub fn warn_of_misuses(
    alloc: Global,
    checked: &Checked,
    plan: &Option<Plan>,
    stages: &[Vec<u8>],
    warned: &mut Vec<Warned>,
) -> Result<(), AllocError>
    ensures { OnOk result (warned.new.items ≡ warned.old.items
        ++ misuses.misuses checked.now plan.now (map (λ v. v.items) stages.now)) }
{
    let program = checked.program();
    warn_of_subs(alloc, checked, plan, stages, &program.subs, warned)?;
    let body = &program.main.body;
    warn_of_items(alloc, checked, plan, stages, &body.0, warned)
}
