// Jumps back that lead round for ever.
ghost use Rattle.std.specs.Prelude.{◌≡◌, ◌++◌, [], flat_map, map, OnOk};
ghost use Rattle.vap_ast.specs.Tree.{stmt_of, item_of, items_of, routine_of};
ghost use Rattle.program_check.specs.Loops as loops;

use crate::named::note_name;
use crate::warnings::{Meant, ProgramWarning, Warned, warn};
use indexmap::IndexSet;
use std::alloc::{AllocError, Global};
use vap_ast::{Item, Name, Routine, Stmt};
use vap_check::Checked;

// Whether a statement jumps, or one in its branches does.
#[cycle(jumps)]
fn stmt_jumps(what: &Stmt) -> bool
    ensures { result ≡ loops.stmt_jumps (stmt_of what.now) }
{
    match what {
        Stmt::If { yes, no, .. } => items_jump(&yes.0) || items_jump(&no.0),
        Stmt::Goto { .. } => true,
        Stmt::Assign { .. }
        | Stmt::Cell { .. }
        | Stmt::Gosub { .. }
        | Stmt::Do { .. }
        | Stmt::Timer { .. }
        | Stmt::Trace => false,
    }
}

#[cycle(jumps)]
fn item_jumps(item: &Item) -> bool
    ensures { result ≡ loops.item_jumps (item_of item.now) }
{
    match item {
        Item::Label { .. } => false,
        Item::Step { what, .. } => stmt_jumps(what),
    }
}

#[cycle(jumps)]
fn items_jump(items: &[Item]) -> bool
    ensures { result ≡ loops.items_jump (items_of items.now) }
{
    for item in items {
        if item_jumps(item) {
            return true;
        }
    }
    false
}

// Keeps the labels behind an item: none stay behind a jump.
fn keep_labels(alloc: Global, item: &Item, labels: &mut IndexSet<Name>) -> Result<(), AllocError>
    ensures { OnOk result (labels.new.keys ≡ loops.labels_after labels.old.keys (item_of item.now)) }
{
    match item {
        Item::Label { name, .. } => note_name(alloc, labels, name),
        Item::Step { what, .. } => {
            if stmt_jumps(what) {
                *labels = IndexSet::new(alloc);
            }
            Ok(())
        }
    }
}

// Warns of a jump to one of these labels.
fn warn_of_jump(
    alloc: Global,
    labels: &IndexSet<Name>,
    line: u32,
    label: &Name,
    warned: &mut Vec<Warned>,
) -> Result<(), AllocError>
    ensures { OnOk result (warned.new.items ≡ warned.old.items ++ loops.jump_told labels.now.keys line label.now) }
{
    if !labels.contains(label) {
        return Ok(());
    }
    match label.copy(alloc) {
        Ok(label) => warn(
            warned,
            line,
            Meant::Name,
            ProgramWarning::EndlessLoop(label),
        ),
        Err(_) => Err(AllocError),
    }
}

#[cycle(statement_loops)]
fn warn_of_item(
    alloc: Global,
    labels: &IndexSet<Name>,
    item: &Item,
    warned: &mut Vec<Warned>,
) -> Result<(), AllocError>
    ensures { OnOk result (warned.new.items ≡ warned.old.items ++ loops.item_loops labels.now.keys (item_of item.now)) }
{
    match item {
        Item::Label { .. } => Ok(()),
        Item::Step { line, what } => warn_of_stmt(alloc, labels, *line, what, warned),
    }
}

#[cycle(statement_loops)]
fn warn_of_stmt(
    alloc: Global,
    labels: &IndexSet<Name>,
    line: u32,
    what: &Stmt,
    warned: &mut Vec<Warned>,
) -> Result<(), AllocError>
    ensures { OnOk result (warned.new.items ≡ warned.old.items ++ loops.stmt_loops labels.now.keys line (stmt_of what.now)) }
{
    match what {
        Stmt::If { yes, no, .. } => {
            warn_of_items(alloc, &yes.0, warned)?;
            warn_of_items(alloc, &no.0, warned)
        }
        Stmt::Goto { label } => warn_of_jump(alloc, labels, line, label, warned),
        Stmt::Assign { .. }
        | Stmt::Cell { .. }
        | Stmt::Gosub { .. }
        | Stmt::Do { .. }
        | Stmt::Timer { .. }
        | Stmt::Trace => Ok(()),
    }
}

#[cycle(statement_loops)]
fn warn_of_items(alloc: Global, items: &[Item], warned: &mut Vec<Warned>) -> Result<(), AllocError>
    ensures { OnOk result (warned.new.items ≡ warned.old.items ++ loops.items_loops [] (items_of items.now)) }
{
    let mut labels = IndexSet::new(alloc);
    for item in items {
        warn_of_item(alloc, &labels, item, warned)?;
        keep_labels(alloc, item, &mut labels)?;
    }
    Ok(())
}

fn warn_of_subs(alloc: Global, subs: &[Routine], warned: &mut Vec<Warned>) -> Result<(), AllocError>
    ensures { OnOk result (warned.new.items ≡ warned.old.items
        ++ flat_map (loops.items_loops []) (map (λ r. r.body) (map routine_of subs.now))) }
{
    for sub in subs {
        warn_of_items(alloc, &sub.body.0, warned)?;
    }
    Ok(())
}

/// Warns of the jumps back to a label with nothing between that jumps, so that what stands between is done again and again.
pub fn warn_of_loops(
    alloc: Global,
    checked: &Checked,
    warned: &mut Vec<Warned>,
) -> Result<(), AllocError>
    ensures { OnOk result (warned.new.items ≡ warned.old.items ++ loops.endless_loops checked.now) }
{
    let program = checked.program();
    warn_of_subs(alloc, &program.subs, warned)?;
    warn_of_items(alloc, &program.main.body.0, warned)
}
