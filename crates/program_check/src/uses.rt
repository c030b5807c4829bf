// The uses of names in a program that lack another one.
ghost use Rattle.std.specs.Prelude.{◌≡◌, ◌++◌, [], ◌∷◌, filter, flat_map, map, OnOk, IfOk};
ghost use Rattle.vap_ast.specs.Tree.{expr_of, exprs_of, stmt_of, item_of, items_of, program_of, routine_of};
ghost use Rattle.program_check.specs.Names as names_of;
ghost use Rattle.program_check.specs.Names.{is_lacking, names_used, site_as, sites_of};

use indexmap::IndexSet;
use sig_types::TimerKind;
use std::alloc::{AllocError, Global};
use vap_ast::{Expr, Item, Meaning, Name, Routine, Stmt};
use vap_check::Checked;

/// How a statement uses a name.
#[derive(Clone, Copy, PartialEq, Eq)]
pub enum Use {
    /// Its value is read.
    Read,
    /// It is assigned.
    Assigned,
    /// A cell of the array is read.
    Cell,
    /// The subroutine is called.
    Called,
    /// The timer is started.
    Started,
    /// The timer is stopped or set back.
    Stopped,
    /// The label stands here.
    Label,
    /// A jump goes to the label.
    Jumped,
}

/// A use of a name in a statement of this line, or its declaration.
#[derive(Drop)]
pub struct NameUse {
    pub line: u32,
    pub name: Name,
}

/// What a name has to be.
#[derive(Clone, Copy)]
pub enum Sort {
    Variable,
    Timer,
    Any,
}

/// Whether a use is the wanted one.
pub fn is_use(wanted: Use, how: Use) -> bool
    ensures { result ≡ names_of.is_use wanted how }
{
    wanted == how
}

/// How a command uses a timer.
pub fn timer_use(kind: TimerKind) -> Use
    ensures { result ≡ names_of.timer_use kind }
{
    match kind {
        TimerKind::Start => Use::Started,
        TimerKind::Stop | TimerKind::Reset => Use::Stopped,
    }
}

/// Whether a name is a variable.
pub fn is_variable(meaning: Option<Meaning>) -> bool
    ensures { result ≡ names_of.is_of Sort.Variable meaning }
{
    match meaning {
        Some(Meaning::Variable(_)) => true,
        Some(Meaning::Constant(_))
        | Some(Meaning::Array(_))
        | Some(Meaning::Sub(_))
        | Some(Meaning::Timer(_))
        | None => false,
    }
}

fn is_timer(meaning: Option<Meaning>) -> bool
    ensures { result ≡ names_of.is_of Sort.Timer meaning }
{
    match meaning {
        Some(Meaning::Timer(_)) => true,
        Some(Meaning::Constant(_))
        | Some(Meaning::Array(_))
        | Some(Meaning::Sub(_))
        | Some(Meaning::Variable(_))
        | None => false,
    }
}

fn is_of(sort: Sort, meaning: Option<Meaning>) -> bool
    ensures { result ≡ names_of.is_of sort meaning }
{
    match sort {
        Sort::Variable => is_variable(meaning),
        Sort::Timer => is_timer(meaning),
        Sort::Any => true,
    }
}

// What is looked for: names of a sort that are used in one way.
#[derive(Clone, Copy)]
struct Wanted {
    how: Use,
    sort: Sort,
}

// Puts a use in some way behind the others, where it is the wanted one, of a name of the wanted sort that is none of the others.
fn note_use(
    alloc: Global,
    checked: &Checked,
    others: &IndexSet<Name>,
    wanted: Wanted,
    line: u32,
    how: Use,
    name: &Name,
    uses: &mut Vec<NameUse>,
) -> Result<(), AllocError>
    ensures { OnOk result (uses.new.items ≡ uses.old.items
        ++ filter (is_lacking checked.now.names wanted.sort others.now.keys) (site_as wanted.how line how name.now)) }
{
    if !is_use(wanted.how, how)
        || !is_of(wanted.sort, checked.meaning(name))
        || others.contains(name)
    {
        return Ok(());
    }
    match name.copy(alloc) {
        Ok(name) => uses.push(NameUse { line, name })?,
        Err(_) => return Err(AllocError),
    }
    Ok(())
}

#[cycle(expression_uses)]
#[tactic(auto, using(crate::proofs::Folds::kept_on))]
fn note_expr(
    alloc: Global,
    checked: &Checked,
    others: &IndexSet<Name>,
    wanted: Wanted,
    line: u32,
    e: &Expr,
    uses: &mut Vec<NameUse>,
) -> Result<(), AllocError>
    ensures { OnOk result (uses.new.items ≡ uses.old.items
        ++ filter (is_lacking checked.now.names wanted.sort others.now.keys) (names_of.expr_uses (site_as wanted.how line) (expr_of e.now))) }
{
    match e {
        Expr::Literal(_) => Ok(()),
        Expr::Name(name) => note_use(alloc, checked, others, wanted, line, Use::Read, name, uses),
        Expr::Cell { array, index } => {
            note_use(alloc, checked, others, wanted, line, Use::Cell, array, uses)?;
            note_expr(alloc, checked, others, wanted, line, index, uses)
        }
        Expr::Unary { arg, .. } => note_expr(alloc, checked, others, wanted, line, arg, uses),
        Expr::Binary { left, right, .. } => {
            note_expr(alloc, checked, others, wanted, line, left, uses)?;
            note_expr(alloc, checked, others, wanted, line, right, uses)
        }
        Expr::Read { args, .. } => note_exprs(alloc, checked, others, wanted, line, args, uses),
    }
}

#[cycle(expression_uses)]
#[tactic(auto, using(crate::proofs::Folds::kept_on))]
fn note_exprs(
    alloc: Global,
    checked: &Checked,
    others: &IndexSet<Name>,
    wanted: Wanted,
    line: u32,
    args: &[Expr],
    uses: &mut Vec<NameUse>,
) -> Result<(), AllocError>
    ensures { OnOk result (uses.new.items ≡ uses.old.items
        ++ filter (is_lacking checked.now.names wanted.sort others.now.keys) (names_of.exprs_uses (site_as wanted.how line) (exprs_of args.now))) }
{
    for arg in args {
        note_expr(alloc, checked, others, wanted, line, arg, uses)?;
    }
    Ok(())
}

#[cycle(statement_uses)]
#[tactic(auto, using(crate::proofs::Folds::kept_on))]
fn note_item(
    alloc: Global,
    checked: &Checked,
    others: &IndexSet<Name>,
    wanted: Wanted,
    item: &Item,
    uses: &mut Vec<NameUse>,
) -> Result<(), AllocError>
    ensures { OnOk result (uses.new.items ≡ uses.old.items
        ++ filter (is_lacking checked.now.names wanted.sort others.now.keys) (names_of.item_uses (site_as wanted.how) (item_of item.now))) }
{
    match item {
        Item::Label { name, line } => note_use(
            alloc,
            checked,
            others,
            wanted,
            *line,
            Use::Label,
            name,
            uses,
        ),
        Item::Step { line, what } => note_stmt(alloc, checked, others, wanted, *line, what, uses),
    }
}

#[cycle(statement_uses)]
#[tactic(auto, using(crate::proofs::Folds::kept_on))]
fn note_stmt(
    alloc: Global,
    checked: &Checked,
    others: &IndexSet<Name>,
    wanted: Wanted,
    line: u32,
    what: &Stmt,
    uses: &mut Vec<NameUse>,
) -> Result<(), AllocError>
    ensures { OnOk result (uses.new.items ≡ uses.old.items
        ++ filter (is_lacking checked.now.names wanted.sort others.now.keys)
        (names_of.stmt_uses (site_as wanted.how) (site_as wanted.how line) (stmt_of what.now))) }
{
    match what {
        Stmt::Assign { target, value } => {
            note_use(
                alloc,
                checked,
                others,
                wanted,
                line,
                Use::Assigned,
                target,
                uses,
            )?;
            note_expr(alloc, checked, others, wanted, line, value, uses)
        }
        Stmt::Cell { index, value, .. } => {
            note_expr(alloc, checked, others, wanted, line, index, uses)?;
            note_expr(alloc, checked, others, wanted, line, value, uses)
        }
        Stmt::If { test, yes, no } => {
            note_expr(alloc, checked, others, wanted, line, test, uses)?;
            note_items(alloc, checked, others, wanted, &yes.0, uses)?;
            note_items(alloc, checked, others, wanted, &no.0, uses)
        }
        Stmt::Goto { label } => note_use(
            alloc,
            checked,
            others,
            wanted,
            line,
            Use::Jumped,
            label,
            uses,
        ),
        Stmt::Gosub { sub } => note_use(
            alloc,
            checked,
            others,
            wanted,
            line,
            Use::Called,
            sub,
            uses,
        ),
        Stmt::Do { args, .. } => note_exprs(alloc, checked, others, wanted, line, args, uses),
        Stmt::Timer { kind, timer } => note_use(
            alloc,
            checked,
            others,
            wanted,
            line,
            timer_use(*kind),
            timer,
            uses,
        ),
        Stmt::Trace => Ok(()),
    }
}

#[cycle(statement_uses)]
#[tactic(auto, using(crate::proofs::Folds::kept_on))]
fn note_items(
    alloc: Global,
    checked: &Checked,
    others: &IndexSet<Name>,
    wanted: Wanted,
    items: &[Item],
    uses: &mut Vec<NameUse>,
) -> Result<(), AllocError>
    ensures { OnOk result (uses.new.items ≡ uses.old.items
        ++ filter (is_lacking checked.now.names wanted.sort others.now.keys) (names_of.items_uses (site_as wanted.how) (items_of items.now))) }
{
    for item in items {
        note_item(alloc, checked, others, wanted, item, uses)?;
    }
    Ok(())
}

#[tactic(auto, using(crate::proofs::Folds::kept_on))]
fn note_subs(
    alloc: Global,
    checked: &Checked,
    others: &IndexSet<Name>,
    wanted: Wanted,
    subs: &[Routine],
    uses: &mut Vec<NameUse>,
) -> Result<(), AllocError>
    ensures { OnOk result (uses.new.items ≡ uses.old.items ++ filter (is_lacking checked.now.names wanted.sort others.now.keys)
        (flat_map (names_of.items_uses (site_as wanted.how)) (map (λ r. r.body) (map routine_of subs.now)))) }
{
    for sub in subs {
        note_items(alloc, checked, others, wanted, &sub.body.0, uses)?;
    }
    Ok(())
}

/// The uses in one way of the names of a sort that are none of the others, in the order of the text.
pub fn uses_lacking(
    alloc: Global,
    checked: &Checked,
    how: Use,
    sort: Sort,
    others: &IndexSet<Name>,
) -> Result<Vec<NameUse>, AllocError>
    ensures { IfOk result (λ v. v.items ≡ filter (is_lacking checked.now.names sort others.now.keys)
        (sites_of how (program_of checked.now.tree))) }
{
    let program = checked.program();
    let wanted = Wanted { how, sort };
    let mut uses = Vec::new(alloc);
    note_subs(alloc, checked, others, wanted, &program.subs, &mut uses)?;
    note_items(
        alloc,
        checked,
        others,
        wanted,
        &program.main.body.0,
        &mut uses,
    )?;
    Ok(uses)
}
