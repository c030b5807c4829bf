// Commands for interstages that are given in another stage than the one from which they lead.
ghost use Rattle.std.specs.Prelude.{◌≡◌, ◌++◌, None, flat_map, map, OnOk};
ghost use Rattle.vap_ast.specs.Tree.{expr_of, exprs_of, stmt_of, item_of, items_of, routine_of};
ghost use Rattle.program_check.specs.Stages as stages;

use crate::called::first;
use crate::calls::CallKind;
use crate::conditions::is_and;
use crate::counted::{is_same_command, is_same_kind};
use crate::warnings::{Meant, ProgramWarning, Warned, warn};
use sig_types::{CommandKind, ReadingKind};
use std::alloc::AllocError;
use vap_ast::{Expr, Item, Routine, Stmt};
use vap_check::Checked;

// The one, or else the other.
fn or_else(stage: Option<i32>, other: Option<i32>) -> Option<i32>
    ensures { result ≡ stages.or_else stage other }
{
    match stage {
        Some(stage) => Some(stage),
        None => other,
    }
}

// The known stage that is active where a condition holds.
fn stage_in(checked: &Checked, e: &Expr) -> Option<i32>
    ensures { result ≡ stages.stage_in checked.now.names (expr_of e.now) }
{
    match e {
        Expr::Binary { op, left, right } => {
            if is_and(*op) {
                or_else(stage_in(checked, left), stage_in(checked, right))
            } else {
                None
            }
        }
        Expr::Read { kind, args } => {
            if is_same_kind(*kind, ReadingKind::StageActive) {
                first(checked, args)
            } else {
                None
            }
        }
        Expr::Literal(_) | Expr::Name(_) | Expr::Cell { .. } | Expr::Unary { .. } => None,
    }
}

// Whether a label stands in one of a statement's branches.
#[cycle(labels)]
fn stmt_labelled(what: &Stmt) -> bool
    ensures { result ≡ stages.stmt_labelled (stmt_of what.now) }
{
    match what {
        Stmt::If { yes, no, .. } => items_labelled(&yes.0) || items_labelled(&no.0),
        Stmt::Assign { .. }
        | Stmt::Cell { .. }
        | Stmt::Goto { .. }
        | Stmt::Gosub { .. }
        | Stmt::Do { .. }
        | Stmt::Timer { .. }
        | Stmt::Trace => false,
    }
}

#[cycle(labels)]
fn item_labelled(item: &Item) -> bool
    ensures { result ≡ stages.item_labelled (item_of item.now) }
{
    match item {
        Item::Label { .. } => true,
        Item::Step { what, .. } => stmt_labelled(what),
    }
}

#[cycle(labels)]
fn items_labelled(items: &[Item]) -> bool
    ensures { result ≡ stages.items_labelled (items_of items.now) }
{
    for item in items {
        if item_labelled(item) {
            return true;
        }
    }
    false
}

// The stage that is known to be active in a branch: none where a jump may come there from elsewhere.
fn known_in(active: Option<i32>, items: &[Item]) -> Option<i32>
    ensures { result ≡ stages.known_in active (items_of items.now) }
{
    if items_labelled(items) { None } else { active }
}

// Warns of a command that leads from another stage than the one in which it is given.
fn warn_of_way(
    line: u32,
    active: Option<i32>,
    from: Option<i32>,
    warned: &mut Vec<Warned>,
) -> Result<(), AllocError>
    ensures { OnOk result (warned.new.items ≡ warned.old.items ++ stages.led_from line active from) }
{
    match (active, from) {
        (Some(active), Some(from)) => {
            if active == from {
                return Ok(());
            }
            let meant = Meant::First(CallKind::Command(CommandKind::Interstage), from);
            warn(
                warned,
                line,
                meant,
                ProgramWarning::WrongStage(from, active),
            )
        }
        (Some(_), None) | (None, _) => Ok(()),
    }
}

// Warns of a command for an interstage that leads from another stage than the one in which it is given.
fn warn_of_command(
    checked: &Checked,
    line: u32,
    active: Option<i32>,
    kind: CommandKind,
    args: &[Expr],
    warned: &mut Vec<Warned>,
) -> Result<(), AllocError>
    ensures { OnOk result (warned.new.items ≡ warned.old.items
        ++ stages.command_told checked.now.names line active kind (exprs_of args.now)) }
{
    if is_same_command(kind, CommandKind::Interstage) {
        warn_of_way(line, active, first(checked, args), warned)
    } else {
        Ok(())
    }
}

#[cycle(statement_stages)]
fn warn_of_item(
    checked: &Checked,
    active: Option<i32>,
    item: &Item,
    warned: &mut Vec<Warned>,
) -> Result<(), AllocError>
    ensures { OnOk result (warned.new.items ≡ warned.old.items
        ++ stages.item_led checked.now.names active (item_of item.now)) }
{
    match item {
        Item::Label { .. } => Ok(()),
        Item::Step { line, what } => warn_of_stmt(checked, active, *line, what, warned),
    }
}

#[cycle(statement_stages)]
fn warn_of_stmt(
    checked: &Checked,
    active: Option<i32>,
    line: u32,
    what: &Stmt,
    warned: &mut Vec<Warned>,
) -> Result<(), AllocError>
    ensures { OnOk result (warned.new.items ≡ warned.old.items
        ++ stages.stmt_led checked.now.names active line (stmt_of what.now)) }
{
    match what {
        Stmt::If { test, yes, no } => {
            let inside = known_in(or_else(stage_in(checked, test), active), &yes.0);
            warn_of_items(checked, inside, &yes.0, warned)?;
            warn_of_items(checked, known_in(active, &no.0), &no.0, warned)
        }
        Stmt::Do { kind, args } => warn_of_command(checked, line, active, *kind, args, warned),
        Stmt::Assign { .. }
        | Stmt::Cell { .. }
        | Stmt::Goto { .. }
        | Stmt::Gosub { .. }
        | Stmt::Timer { .. }
        | Stmt::Trace => Ok(()),
    }
}

#[cycle(statement_stages)]
fn warn_of_items(
    checked: &Checked,
    active: Option<i32>,
    items: &[Item],
    warned: &mut Vec<Warned>,
) -> Result<(), AllocError>
    ensures { OnOk result (warned.new.items ≡ warned.old.items
        ++ stages.items_led checked.now.names active (items_of items.now)) }
{
    for item in items {
        warn_of_item(checked, active, item, warned)?;
    }
    Ok(())
}

fn warn_of_subs(
    checked: &Checked,
    subs: &[Routine],
    warned: &mut Vec<Warned>,
) -> Result<(), AllocError>
    ensures { OnOk result (warned.new.items ≡ warned.old.items
        ++ flat_map (stages.items_led checked.now.names None) (map (λ r. r.body) (map routine_of subs.now))) }
{
    for sub in subs {
        warn_of_items(checked, None, &sub.body.0, warned)?;
    }
    Ok(())
}

/// Warns of the commands for interstages that lead from another stage than the one that the conditions around them ask for.
pub fn warn_of_stages(checked: &Checked, warned: &mut Vec<Warned>) -> Result<(), AllocError>
    ensures { OnOk result (warned.new.items ≡ warned.old.items ++ stages.wrong_stages checked.now) }
{
    let program = checked.program();
    warn_of_subs(checked, &program.subs, warned)?;
    warn_of_items(checked, None, &program.main.body.0, warned)
}
