// The names that a program uses in one way.
ghost use Rattle.std.specs.Prelude.{◌≡◌, [], ◌∷◌, flat_map, map, OnOk, IfOk};
ghost use Rattle.vap_ast.specs.Tree.{expr_of, exprs_of, stmt_of, item_of, items_of, routine_of, program_of};
ghost use Rattle.vap_check.specs.Names.{with_name, with_names, distinct};
ghost use Rattle.program_check.specs.Names as names_of;
ghost use Rattle.program_check.specs.Names.{name_as, names_used};

use crate::uses::{Use, is_use, timer_use};
use indexmap::IndexSet;
use std::alloc::{AllocError, Global};
use vap_ast::{Expr, Item, Name, Program, Routine, Stmt};

/// Puts a name behind the others, unless it is there.
pub fn note_name(alloc: Global, names: &mut IndexSet<Name>, name: &Name) -> Result<(), AllocError>
    ensures { OnOk result (names.new.keys ≡ with_name names.old.keys name.now) }
{
    if names.contains(name) {
        return Ok(());
    }
    let Ok(name) = name.copy(alloc) else {
        return Err(AllocError);
    };
    match names.insert(name) {
        Ok(_) => Ok(()),
        Err(_) => Err(AllocError),
    }
}

// Puts a name that is used in some way behind the others, where that is the wanted one, unless it is there.
fn note_use(
    alloc: Global,
    wanted: Use,
    how: Use,
    name: &Name,
    names: &mut IndexSet<Name>,
) -> Result<(), AllocError>
    ensures { OnOk result (names.new.keys ≡ with_names names.old.keys (name_as wanted how name.now)) }
{
    if is_use(wanted, how) {
        note_name(alloc, names, name)
    } else {
        Ok(())
    }
}

#[cycle(expression_names)]
#[tactic(auto, using(crate::proofs::Folds::names_on, crate::proofs::Folds::names_on_three))]
fn note_expr(
    alloc: Global,
    wanted: Use,
    e: &Expr,
    names: &mut IndexSet<Name>,
) -> Result<(), AllocError>
    ensures { OnOk result (names.new.keys ≡ with_names names.old.keys (names_of.expr_uses (name_as wanted) (expr_of e.now))) }
{
    match e {
        Expr::Literal(_) => Ok(()),
        Expr::Name(name) => note_use(alloc, wanted, Use::Read, name, names),
        Expr::Cell { array, index } => {
            note_use(alloc, wanted, Use::Cell, array, names)?;
            note_expr(alloc, wanted, index, names)
        }
        Expr::Unary { arg, .. } => note_expr(alloc, wanted, arg, names),
        Expr::Binary { left, right, .. } => {
            note_expr(alloc, wanted, left, names)?;
            note_expr(alloc, wanted, right, names)
        }
        Expr::Read { args, .. } => note_exprs(alloc, wanted, args, names),
    }
}

#[cycle(expression_names)]
#[tactic(auto, using(crate::proofs::Folds::names_on, crate::proofs::Folds::names_on_three))]
fn note_exprs(
    alloc: Global,
    wanted: Use,
    args: &[Expr],
    names: &mut IndexSet<Name>,
) -> Result<(), AllocError>
    ensures { OnOk result (names.new.keys ≡ with_names names.old.keys (names_of.exprs_uses (name_as wanted) (exprs_of args.now))) }
{
    for arg in args {
        note_expr(alloc, wanted, arg, names)?;
    }
    Ok(())
}

#[cycle(statement_names)]
#[tactic(auto, using(crate::proofs::Folds::names_on, crate::proofs::Folds::names_on_three))]
fn note_item(
    alloc: Global,
    wanted: Use,
    item: &Item,
    names: &mut IndexSet<Name>,
) -> Result<(), AllocError>
    ensures { OnOk result (names.new.keys ≡ with_names names.old.keys (names_of.item_uses (λ line. name_as wanted) (item_of item.now))) }
{
    match item {
        Item::Label { name, .. } => note_use(alloc, wanted, Use::Label, name, names),
        Item::Step { what, .. } => note_stmt(alloc, wanted, what, names),
    }
}

#[cycle(statement_names)]
#[tactic(auto, using(crate::proofs::Folds::names_on, crate::proofs::Folds::names_on_three))]
fn note_stmt(
    alloc: Global,
    wanted: Use,
    what: &Stmt,
    names: &mut IndexSet<Name>,
) -> Result<(), AllocError>
    ensures { OnOk result
        (names.new.keys ≡ with_names names.old.keys (names_of.stmt_uses (λ line. name_as wanted) (name_as wanted) (stmt_of what.now))) }
{
    match what {
        Stmt::Assign { target, value } => {
            note_use(alloc, wanted, Use::Assigned, target, names)?;
            note_expr(alloc, wanted, value, names)
        }
        Stmt::Cell { index, value, .. } => {
            note_expr(alloc, wanted, index, names)?;
            note_expr(alloc, wanted, value, names)
        }
        Stmt::If { test, yes, no } => {
            note_expr(alloc, wanted, test, names)?;
            note_items(alloc, wanted, &yes.0, names)?;
            note_items(alloc, wanted, &no.0, names)
        }
        Stmt::Goto { label } => note_use(alloc, wanted, Use::Jumped, label, names),
        Stmt::Gosub { sub } => note_use(alloc, wanted, Use::Called, sub, names),
        Stmt::Do { args, .. } => note_exprs(alloc, wanted, args, names),
        Stmt::Timer { kind, timer } => note_use(alloc, wanted, timer_use(*kind), timer, names),
        Stmt::Trace => Ok(()),
    }
}

#[cycle(statement_names)]
#[tactic(auto, using(crate::proofs::Folds::names_on, crate::proofs::Folds::names_on_three))]
fn note_items(
    alloc: Global,
    wanted: Use,
    items: &[Item],
    names: &mut IndexSet<Name>,
) -> Result<(), AllocError>
    ensures { OnOk result (names.new.keys ≡ with_names names.old.keys (names_of.items_uses (λ line. name_as wanted) (items_of items.now))) }
{
    for item in items {
        note_item(alloc, wanted, item, names)?;
    }
    Ok(())
}

#[tactic(auto, using(crate::proofs::Folds::names_on, crate::proofs::Folds::names_on_three))]
fn note_subs(
    alloc: Global,
    wanted: Use,
    subs: &[Routine],
    names: &mut IndexSet<Name>,
) -> Result<(), AllocError>
    ensures { OnOk result (names.new.keys ≡ with_names names.old.keys
        (flat_map (names_of.items_uses (λ line. name_as wanted)) (map (λ r. r.body) (map routine_of subs.now)))) }
{
    for sub in subs {
        note_items(alloc, wanted, &sub.body.0, names)?;
    }
    Ok(())
}

/// The names that a program uses in one way, each once.
#[tactic(auto, using(crate::proofs::Folds::names_on, crate::proofs::Folds::names_on_three))]
pub fn named(alloc: Global, program: &Program, wanted: Use) -> Result<IndexSet<Name>, AllocError>
    ensures { IfOk result (λ s. s.keys ≡ distinct (names_used wanted (program_of program.now))) }
{
    let mut names = IndexSet::new(alloc);
    note_subs(alloc, wanted, &program.subs, &mut names)?;
    note_items(alloc, wanted, &program.main.body.0, &mut names)?;
    Ok(names)
}
