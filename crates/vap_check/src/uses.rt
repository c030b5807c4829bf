// What is wrong with expressions and statements.
ghost use Rattle.std.specs.Prelude.{◌≡◌, ◌==◌, not};
ghost use Rattle.vap_ast.specs.Sound.{count_arguments};
ghost use Rattle.vap_ast.specs.Tree.{expr_of, exprs_of, stmt_of, item_of, items_of};
ghost use Rattle.vap_check.specs.FirstFinding.{first_of_all};
ghost use Rattle.vap_check.specs.Findings as wrong;
ghost use Rattle.vap_check.specs.KeptNames.{kind_in};
ghost use Rattle.vap_check.specs.KeptNames as scoped;

use crate::finding::{Finding, note_finding, note_finding_if};
use crate::kinds::Kind;
use crate::known::Known;
use crate::refusal::CheckWhy;
use crate::sets::has;
use std::collections::BTreeSet;
use vap_ast::{Expr, Item, Name, Stmt, own_size};

/// What a statement's routine knows: the names of the program, the subroutines above the routine, and its labels.
#[derive(Drop)]
pub struct Scope<'a> {
    pub known: &'a Known,
    pub above: &'a BTreeSet<Name>,
    pub labels: &'a BTreeSet<Name>,
}

// Whether a name of this kind is no plain value.
fn is_misread(kind: Kind) -> bool
    ensures { result ≡ wrong.is_misread kind }
{
    match kind {
        Kind::Array | Kind::Sub => true,
        Kind::Constant | Kind::Timer | Kind::Variable => false,
    }
}

// Whether a name of this kind takes no index.
fn is_no_array(kind: Kind) -> bool
    ensures { result ≡ wrong.is_no_array kind }
{
    match kind {
        Kind::Array => false,
        Kind::Sub | Kind::Constant | Kind::Timer | Kind::Variable => true,
    }
}

// Whether a name of this kind can be no timer.
fn is_no_timer(kind: Kind) -> bool
    ensures { result ≡ wrong.is_no_timer kind }
{
    match kind {
        Kind::Array | Kind::Sub | Kind::Constant => true,
        Kind::Timer | Kind::Variable => false,
    }
}

// `first` becomes the earlier of itself and the finding against an assignment to a name of this kind, if there is one.
fn judge_target(kind: Kind, line: u32, first: &mut Option<Finding>)
    ensures { first.new ≡ first_of_all first.old (wrong.assign_findings kind line) }
{
    match kind {
        Kind::Constant => note_finding(first, line, CheckWhy::AssignConst),
        Kind::Array | Kind::Sub | Kind::Timer => note_finding(first, line, CheckWhy::NameKind),
        Kind::Variable => {}
    }
}

// Whether there are more or fewer arguments than `arity`.
#[tactic(auto, using(crate::proofs::Counted::counted))]
fn is_other_count(args: &[Expr], arity: usize) -> bool
    ensures { result ≡ not (count_arguments (exprs_of args.now) == arity) }
{
    args.len() != arity
}

/// `first` becomes the earlier of itself and the first finding of an expression in a statement of this line.
#[cycle(expressions)]
#[tactic(auto, using(crate::proofs::Flat::findings_on))]
pub fn judge_expr(known: &Known, line: u32, e: &Expr, first: &mut Option<Finding>)
    ensures { first.new ≡ first_of_all first.old (wrong.expr_findings (kind_in known.now) line (expr_of e.now)) }
{
    match e {
        Expr::Literal(_) => {}
        Expr::Name(name) => note_finding_if(
            first,
            is_misread(known.kind(name)),
            line,
            CheckWhy::NameKind,
        ),
        Expr::Cell { array, index } => {
            note_finding_if(
                first,
                is_no_array(known.kind(array)),
                line,
                CheckWhy::NameKind,
            );
            judge_expr(known, line, index, first);
        }
        Expr::Unary { arg, .. } => judge_expr(known, line, arg, first),
        Expr::Binary { left, right, .. } => {
            judge_expr(known, line, left, first);
            judge_expr(known, line, right, first);
        }
        Expr::Read { kind, args } => {
            note_finding_if(
                first,
                is_other_count(args, kind.arity()),
                line,
                CheckWhy::Arity,
            );
            judge_exprs(known, line, args, first);
        }
    }
}

/// `first` becomes the earlier of itself and the first finding of expressions in a statement of this line.
#[cycle(expressions)]
#[tactic(auto, using(crate::proofs::Flat::findings_on))]
pub fn judge_exprs(known: &Known, line: u32, args: &[Expr], first: &mut Option<Finding>)
    ensures { first.new ≡ first_of_all first.old (wrong.exprs_findings (kind_in known.now) line (exprs_of args.now)) }
{
    for arg in args {
        judge_expr(known, line, arg, first);
    }
}

/// `first` becomes the earlier of itself and the first finding of an item.
#[cycle(statements)]
#[tactic(auto, using(crate::proofs::Flat::findings_on))]
pub fn judge_item(scope: &Scope<'_>, item: &Item, first: &mut Option<Finding>)
    ensures { first.new ≡ first_of_all first.old (scoped.item_findings scope.now (item_of item.now)) }
{
    match item {
        Item::Label { .. } => {}
        Item::Step { line, what } => {
            note_finding_if(
                first,
                own_size(what) > 900,
                *line,
                CheckWhy::StatementTooLong,
            );
            judge_stmt(scope, *line, what, first);
        }
    }
}

/// `first` becomes the earlier of itself and the first finding of a statement of this line.
#[cycle(statements)]
#[tactic(auto, using(crate::proofs::Flat::findings_on))]
pub fn judge_stmt(scope: &Scope<'_>, line: u32, what: &Stmt, first: &mut Option<Finding>)
    ensures { first.new ≡ first_of_all first.old (scoped.stmt_findings scope.now line (stmt_of what.now)) }
{
    let known = scope.known;
    match what {
        Stmt::Assign { target, value } => {
            judge_target(known.kind(target), line, first);
            judge_expr(known, line, value, first);
        }
        Stmt::Cell {
            array,
            index,
            value,
        } => {
            note_finding_if(
                first,
                is_no_array(known.kind(array)),
                line,
                CheckWhy::NameKind,
            );
            judge_expr(known, line, index, first);
            judge_expr(known, line, value, first);
        }
        Stmt::If { test, yes, no } => {
            judge_expr(known, line, test, first);
            judge_items(scope, &yes.0, first);
            judge_items(scope, &no.0, first);
        }
        Stmt::Goto { label } => {
            let is_there = label.bytes() == b"prog_ende".as_slice() || has(scope.labels, label);
            note_finding_if(first, !is_there, line, CheckWhy::NoLabel);
        }
        Stmt::Gosub { sub } => note_finding_if(
            first,
            !has(scope.above, sub),
            line,
            CheckWhy::NoSub,
        ),
        Stmt::Do { kind, args } => {
            note_finding_if(
                first,
                is_other_count(args, kind.arity()),
                line,
                CheckWhy::Arity,
            );
            judge_exprs(known, line, args, first);
        }
        Stmt::Timer { timer, .. } => {
            note_finding_if(
                first,
                is_no_timer(known.kind(timer)),
                line,
                CheckWhy::NameKind,
            );
        }
        Stmt::Trace => {}
    }
}

/// `first` becomes the earlier of itself and the first finding of items.
#[cycle(statements)]
#[tactic(auto, using(crate::proofs::Flat::findings_on))]
pub fn judge_items(scope: &Scope<'_>, items: &[Item], first: &mut Option<Finding>)
    ensures { first.new ≡ first_of_all first.old (scoped.items_findings scope.now (items_of items.now)) }
{
    for each in items {
        judge_item(scope, each, first);
    }
}
