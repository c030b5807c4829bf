// The names of a program: those that it declares, those in its timer commands, and those that it uses.
ghost use Rattle.std.specs.Prelude.{◌≡◌, [], ◌∷◌, false, None, is_some, OnOk, IfOk, map, flat_map};
ghost use Rattle.vap_ast.specs.Tree.{expr_of, exprs_of, stmt_of, item_of, items_of, array_of, routine_of, constant_of, program_of};
ghost use Rattle.vap_check.specs.declared.kinds.Declared.TheVariants.{Array, Sub, Timer};
ghost use Rattle.vap_check.specs.declared.refusal.CheckWhy.TheVariants.{ConstTwice};
ghost use Rattle.vap_check.specs.Findings.{const_findings};
ghost use Rattle.vap_check.specs.FirstFinding.{first_of_all, when};
ghost use Rattle.vap_check.specs.Names as names_of;
ghost use Rattle.vap_check.specs.Names.{among, with_name};
ghost use Rattle.vap_check.specs.KeptNames.{Knows, declared_in, of_kind, with_all, with_constant, with_constants};
ghost use Rattle.vap_check.specs.UpTo.{up_to, with_names_up_to};

use crate::finding::{Finding, note_finding_if};
use crate::kinds::{Declared, First, Kind, is_kind};
use crate::known::Known;
use crate::numbered::Numbered;
use crate::refusal::CheckWhy;
use indexmap::IndexSet;
use sig_types::Memory;
use std::alloc::Global;
use vap_ast::{ArrayDecl, ConstDecl, Expr, Item, Name, Program, Routine, Stmt};

// Notes the names in the timer commands of an item.
#[cycle(timers)]
#[tactic(auto, using(crate::proofs::Folds::all_on))]
fn note_item_timers(alloc: Global, item: &Item, known: &mut Known) -> Result<(), Memory>
    ensures { OnOk result (declared_in known.new ≡ with_all Timer (declared_in known.old) (names_of.item_timers (item_of item.now))) }
{
    match item {
        Item::Label { .. } => Ok(()),
        Item::Step { what, .. } => note_stmt_timers(alloc, what, known),
    }
}

#[cycle(timers)]
#[tactic(auto, using(crate::proofs::Folds::all_on))]
fn note_stmt_timers(alloc: Global, what: &Stmt, known: &mut Known) -> Result<(), Memory>
    ensures { OnOk result (declared_in known.new ≡ with_all Timer (declared_in known.old) (names_of.stmt_timers (stmt_of what.now))) }
{
    match what {
        Stmt::If { yes, no, .. } => {
            note_items_timers(alloc, &yes.0, known)?;
            note_items_timers(alloc, &no.0, known)
        }
        Stmt::Timer { timer, .. } => {
            known.note(alloc, timer, Declared::Timer)?;
            Ok(())
        }
        Stmt::Assign { .. }
        | Stmt::Cell { .. }
        | Stmt::Goto { .. }
        | Stmt::Gosub { .. }
        | Stmt::Do { .. }
        | Stmt::Trace => Ok(()),
    }
}

#[cycle(timers)]
#[tactic(auto, using(crate::proofs::Folds::all_on))]
fn note_items_timers(alloc: Global, items: &[Item], known: &mut Known) -> Result<(), Memory>
    ensures { OnOk result (declared_in known.new ≡ with_all Timer (declared_in known.old) (names_of.items_timers (items_of items.now))) }
{
    for item in items {
        note_item_timers(alloc, item, known)?;
    }
    Ok(())
}

// Notes a name that is used, where it is of this kind.
fn note_use(
    alloc: Global,
    known: &Known,
    wanted: Kind,
    name: &Name,
    names: &mut Numbered,
) -> Result<(), Memory>
    ensures { OnOk result (up_to names.new ≡ with_names_up_to (up_to names.old) (of_kind known.now wanted (name.now ∷ []))) }
{
    if is_kind(wanted, known.kind(name)) {
        names.note(alloc, name)
    } else {
        Ok(())
    }
}

// Notes the names of this kind that an expression uses.
#[cycle(expression_uses)]
#[tactic(auto, using(crate::proofs::Folds::wanted_on))]
fn note_expr_uses(
    alloc: Global,
    known: &Known,
    wanted: Kind,
    e: &Expr,
    names: &mut Numbered,
) -> Result<(), Memory>
    ensures { OnOk result
        (up_to names.new ≡ with_names_up_to (up_to names.old) (of_kind known.now wanted (names_of.expr_uses (expr_of e.now)))) }
{
    match e {
        Expr::Literal(_) => Ok(()),
        Expr::Name(name) => note_use(alloc, known, wanted, name, names),
        Expr::Cell { index, .. } => note_expr_uses(alloc, known, wanted, index, names),
        Expr::Unary { arg, .. } => note_expr_uses(alloc, known, wanted, arg, names),
        Expr::Binary { left, right, .. } => {
            note_expr_uses(alloc, known, wanted, left, names)?;
            note_expr_uses(alloc, known, wanted, right, names)
        }
        Expr::Read { args, .. } => note_exprs_uses(alloc, known, wanted, args, names),
    }
}

#[cycle(expression_uses)]
#[tactic(auto, using(crate::proofs::Folds::wanted_on))]
fn note_exprs_uses(
    alloc: Global,
    known: &Known,
    wanted: Kind,
    args: &[Expr],
    names: &mut Numbered,
) -> Result<(), Memory>
    ensures { OnOk result
        (up_to names.new ≡ with_names_up_to (up_to names.old) (of_kind known.now wanted (names_of.exprs_uses (exprs_of args.now)))) }
{
    for arg in args {
        note_expr_uses(alloc, known, wanted, arg, names)?;
    }
    Ok(())
}

// Notes the names of this kind that an item uses.
#[cycle(statement_uses)]
#[tactic(auto, using(crate::proofs::Folds::wanted_on))]
fn note_item_uses(
    alloc: Global,
    known: &Known,
    wanted: Kind,
    item: &Item,
    names: &mut Numbered,
) -> Result<(), Memory>
    ensures { OnOk result
        (up_to names.new ≡ with_names_up_to (up_to names.old) (of_kind known.now wanted (names_of.item_uses (item_of item.now)))) }
{
    match item {
        Item::Label { .. } => Ok(()),
        Item::Step { what, .. } => note_stmt_uses(alloc, known, wanted, what, names),
    }
}

#[cycle(statement_uses)]
#[tactic(auto, using(crate::proofs::Folds::wanted_on))]
fn note_stmt_uses(
    alloc: Global,
    known: &Known,
    wanted: Kind,
    what: &Stmt,
    names: &mut Numbered,
) -> Result<(), Memory>
    ensures { OnOk result
        (up_to names.new ≡ with_names_up_to (up_to names.old) (of_kind known.now wanted (names_of.stmt_uses (stmt_of what.now)))) }
{
    match what {
        Stmt::Assign { target, value } => {
            note_use(alloc, known, wanted, target, names)?;
            note_expr_uses(alloc, known, wanted, value, names)
        }
        Stmt::Cell { index, value, .. } => {
            note_expr_uses(alloc, known, wanted, index, names)?;
            note_expr_uses(alloc, known, wanted, value, names)
        }
        Stmt::If { test, yes, no } => {
            note_expr_uses(alloc, known, wanted, test, names)?;
            note_items_uses(alloc, known, wanted, &yes.0, names)?;
            note_items_uses(alloc, known, wanted, &no.0, names)
        }
        Stmt::Do { args, .. } => note_exprs_uses(alloc, known, wanted, args, names),
        Stmt::Timer { timer, .. } => note_use(alloc, known, wanted, timer, names),
        Stmt::Goto { .. } | Stmt::Gosub { .. } | Stmt::Trace => Ok(()),
    }
}

#[cycle(statement_uses)]
#[tactic(auto, using(crate::proofs::Folds::wanted_on))]
fn note_items_uses(
    alloc: Global,
    known: &Known,
    wanted: Kind,
    items: &[Item],
    names: &mut Numbered,
) -> Result<(), Memory>
    ensures { OnOk result
        (up_to names.new ≡ with_names_up_to (up_to names.old) (of_kind known.now wanted (names_of.items_uses (items_of items.now)))) }
{
    for item in items {
        note_item_uses(alloc, known, wanted, item, names)?;
    }
    Ok(())
}

// Notes a constant, unless its name is something already; `first` becomes the earlier of itself and a finding that it is.
fn note_const(
    alloc: Global,
    known: &mut Known,
    decl: &ConstDecl,
    first: &mut Option<Finding>,
) -> Result<(), Memory>
    ensures known { OnOk result (declared_in known.new ≡ with_constant (declared_in known.old) (constant_of decl.now)) }
    ensures found { OnOk result
        (first.new ≡ first_of_all first.old (when (is_some (declared_in known.old decl.now.name)) decl.now.line ConstTwice)) }
{
    let declared = Declared::Constant(First {
        line: decl.line,
        value: decl.value,
    });
    let was_there = known.declare(alloc, &decl.name, declared)?;
    note_finding_if(first, was_there, decl.line, CheckWhy::ConstTwice);
    Ok(())
}

// The names of constants; `first` becomes the earlier of itself and the first constant that is declared again.
fn gather_consts(
    alloc: Global,
    decls: &[ConstDecl],
    first: &mut Option<Finding>,
) -> Result<Known, Memory>
    ensures known { IfOk result (λ known. declared_in known ≡ with_constants (λ name. None) (map constant_of decls.now)) }
    ensures found { OnOk result (first.new ≡ first_of_all first.old (const_findings [] (map constant_of decls.now))) }
{
    let mut known = Known::new(alloc)?;
    for decl in decls {
        note_const(alloc, &mut known, decl, first)?;
    }
    Ok(known)
}

fn note_arrays(alloc: Global, known: &mut Known, decls: &[ArrayDecl]) -> Result<(), Memory>
    ensures { OnOk result (declared_in known.new
        ≡ with_all Array (declared_in known.old) (map (λ a. a.name) (map array_of decls.now))) }
{
    for decl in decls {
        known.note(alloc, &decl.name, Declared::Array)?;
    }
    Ok(())
}

fn note_subs(alloc: Global, known: &mut Known, subs: &[Routine]) -> Result<(), Memory>
    ensures { OnOk result (declared_in known.new
        ≡ with_all Sub (declared_in known.old) (map (λ r. r.name) (map routine_of subs.now))) }
{
    for sub in subs {
        known.note(alloc, &sub.name, Declared::Sub)?;
    }
    Ok(())
}

// Notes the names in the timer commands of subroutines.
#[tactic(auto, using(crate::proofs::Folds::all_on))]
fn note_subs_timers(alloc: Global, subs: &[Routine], known: &mut Known) -> Result<(), Memory>
    ensures { OnOk result (declared_in known.new ≡ with_all Timer (declared_in known.old)
        (flat_map names_of.items_timers (map (λ r. r.body) (map routine_of subs.now)))) }
{
    for sub in subs {
        note_items_timers(alloc, &sub.body.0, known)?;
    }
    Ok(())
}

/// The names that a program declares, and those in its timer commands; `first` becomes the earlier of itself and the first
/// constant that is declared again.
pub fn declared_names(
    alloc: Global,
    program: &Program,
    first: &mut Option<Finding>,
) -> Result<Known, Memory>
    ensures known { IfOk result (λ k. Knows k (program_of program.now)) }
    ensures found { OnOk result
        (first.new ≡ first_of_all first.old (const_findings [] (map constant_of program.now.consts.items))) }
{
    let mut known = gather_consts(alloc, &program.consts, first)?;
    note_arrays(alloc, &mut known, &program.arrays)?;
    note_subs(alloc, &mut known, &program.subs)?;
    note_subs_timers(alloc, &program.subs, &mut known)?;
    note_items_timers(alloc, &program.main.body.0, &mut known)?;
    Ok(known)
}

// Notes the names of this kind that subroutines use.
#[tactic(auto, using(crate::proofs::Folds::wanted_on))]
fn note_subs_uses(
    alloc: Global,
    known: &Known,
    wanted: Kind,
    subs: &[Routine],
    names: &mut Numbered,
) -> Result<(), Memory>
    ensures { OnOk result (up_to names.new ≡ with_names_up_to (up_to names.old)
        (of_kind known.now wanted (flat_map names_of.items_uses (map (λ r. r.body) (map routine_of subs.now))))) }
{
    for sub in subs {
        note_items_uses(alloc, known, wanted, &sub.body.0, names)?;
    }
    Ok(())
}

/// The names of this kind that a program uses, in the order of first use, as many as `most`; and whether there are more.
pub fn used_names(
    alloc: Global,
    known: &Known,
    wanted: Kind,
    program: &Program,
    most: u16,
) -> Result<Numbered, Memory>
    ensures { IfOk result (λ n. up_to n ≡ with_names_up_to record { keys = []; most = most; is_over = false }
        (of_kind known.now wanted (names_of.uses (program_of program.now)))) }
{
    let mut names = Numbered::new(alloc, most);
    note_subs_uses(alloc, known, wanted, &program.subs, &mut names)?;
    note_items_uses(alloc, known, wanted, &program.main.body.0, &mut names)?;
    Ok(names)
}

// Puts a name behind the others, unless it is there.
fn number(alloc: Global, names: &mut IndexSet<Name>, name: &Name) -> Result<(), Memory>
    ensures { OnOk result (names.new.keys ≡ with_name names.old.keys name.now) }
{
    if names.contains(name) {
        return Ok(());
    }
    let name = name.copy(alloc)?;
    match names.insert(name) {
        Ok(_) => Ok(()),
        Err(_) => Err(Memory),
    }
}

/// The names of arrays, in the order of their declarations.
pub fn array_names(alloc: Global, decls: &[ArrayDecl]) -> Result<IndexSet<Name>, Memory>
    ensures { IfOk result (λ s. s.keys ≡ names_of.distinct (map (λ a. a.name) (map array_of decls.now))) }
{
    let mut names = IndexSet::new(alloc);
    for decl in decls {
        number(alloc, &mut names, &decl.name)?;
    }
    Ok(names)
}

/// The names of subroutines, in the order of their declarations.
pub fn sub_names(alloc: Global, subs: &[Routine]) -> Result<IndexSet<Name>, Memory>
    ensures { IfOk result (λ s. s.keys ≡ names_of.distinct (map (λ r. r.name) (map routine_of subs.now))) }
{
    let mut names = IndexSet::new(alloc);
    for sub in subs {
        number(alloc, &mut names, &sub.name)?;
    }
    Ok(names)
}
