// Comparisons whose answer is the same in each pass.
ghost use Rattle.std.specs.Prelude.{◌≡◌, ◌++◌, flat_map, map, OnOk};
ghost use Rattle.vap_ast.specs.Tree.{expr_of, exprs_of, stmt_of, item_of, items_of, routine_of};
ghost use Rattle.program_check.specs.Calls.{first_known};
ghost use Rattle.program_check.specs.Conditions as conditions;

use crate::called::first;
use crate::constants::known;
use crate::counted::is_same_kind;
use crate::warnings::{Meant, ProgramWarning, Warned, warn};
use sig_types::ReadingKind;
use std::alloc::AllocError;
use vap_ast::{BinaryOp, Expr, Item, Routine, Stmt};
use vap_check::Checked;

// Whether an operator compares two values.
fn is_comparison(op: BinaryOp) -> bool
    ensures { result ≡ conditions.is_comparison op }
{
    match op {
        BinaryOp::Eq | BinaryOp::Ne | BinaryOp::Lt | BinaryOp::Le | BinaryOp::Gt | BinaryOp::Ge =>
            true,
        BinaryOp::Or
        | BinaryOp::And
        | BinaryOp::Add
        | BinaryOp::Sub
        | BinaryOp::Mul
        | BinaryOp::Div => false,
    }
}

/// Whether an operator is AND.
pub fn is_and(op: BinaryOp) -> bool
    ensures { result ≡ conditions.is_and op }
{
    match op {
        BinaryOp::And => true,
        BinaryOp::Or
        | BinaryOp::Eq
        | BinaryOp::Ne
        | BinaryOp::Lt
        | BinaryOp::Le
        | BinaryOp::Gt
        | BinaryOp::Ge
        | BinaryOp::Add
        | BinaryOp::Sub
        | BinaryOp::Mul
        | BinaryOp::Div => false,
    }
}

// Whether a comparison with a value holds of no less ones.
fn is_lower(op: BinaryOp) -> bool
    ensures { result ≡ conditions.is_lower op }
{
    match op {
        BinaryOp::Eq | BinaryOp::Gt | BinaryOp::Ge => true,
        BinaryOp::Or
        | BinaryOp::And
        | BinaryOp::Ne
        | BinaryOp::Lt
        | BinaryOp::Le
        | BinaryOp::Add
        | BinaryOp::Sub
        | BinaryOp::Mul
        | BinaryOp::Div => false,
    }
}

// Whether a comparison with a value holds of no greater ones.
fn is_upper(op: BinaryOp) -> bool
    ensures { result ≡ conditions.is_upper op }
{
    match op {
        BinaryOp::Eq | BinaryOp::Lt | BinaryOp::Le => true,
        BinaryOp::Or
        | BinaryOp::And
        | BinaryOp::Ne
        | BinaryOp::Gt
        | BinaryOp::Ge
        | BinaryOp::Add
        | BinaryOp::Sub
        | BinaryOp::Mul
        | BinaryOp::Div => false,
    }
}

// Whether a value that is no less by the first comparison is above what it is by the second one.
fn are_crossed(low: BinaryOp, a: Option<i32>, high: BinaryOp, b: Option<i32>) -> bool
    ensures { result ≡ conditions.are_crossed low a high b }
{
    match (a, b) {
        (Some(a), Some(b)) => is_lower(low) && (is_upper(high) && b < a),
        (Some(_), None) | (None, _) => false,
    }
}

// Whether no value passes both of these comparisons.
fn exclude(f: BinaryOp, a: Option<i32>, g: BinaryOp, b: Option<i32>) -> bool
    ensures { result ≡ conditions.exclude f a g b }
{
    are_crossed(f, a, g, b) || are_crossed(g, b, f, a)
}

// The last of the conditions that are joined by AND.
fn last_condition(e: &Expr) -> &Expr
    ensures { expr_of result.now ≡ conditions.last_condition (expr_of e.now) }
{
    match e {
        Expr::Binary { op, right, .. } if is_and(*op) => last_condition(right),
        Expr::Binary { .. }
        | Expr::Literal(_)
        | Expr::Name(_)
        | Expr::Cell { .. }
        | Expr::Unary { .. }
        | Expr::Read { .. } => e,
    }
}

// The first of them.
fn first_condition(e: &Expr) -> &Expr
    ensures { expr_of result.now ≡ conditions.first_condition (expr_of e.now) }
{
    match e {
        Expr::Binary { op, left, .. } if is_and(*op) => first_condition(left),
        Expr::Binary { .. }
        | Expr::Literal(_)
        | Expr::Name(_)
        | Expr::Cell { .. }
        | Expr::Unary { .. }
        | Expr::Read { .. } => e,
    }
}

// Whether two values are known and one.
fn are_same(a: Option<i32>, b: Option<i32>) -> bool
    ensures { result ≡ conditions.are_same a b }
{
    match (a, b) {
        (Some(a), Some(b)) => a == b,
        (Some(_), None) | (None, _) => false,
    }
}

// Whether readings of one kind are one, by the known values of their first arguments.
fn is_same_reading(kind: ReadingKind, a: Option<i32>, b: Option<i32>) -> bool
    ensures { result ≡ conditions.is_same_reading kind a b }
{
    match kind {
        ReadingKind::CycleSecond | ReadingKind::CycleLength | ReadingKind::AnyInterstage => true,
        ReadingKind::InterstageActive => false,
        ReadingKind::Detection
        | ReadingKind::Occupancy
        | ReadingKind::Headway
        | ReadingKind::FrontEnds
        | ReadingKind::RearEnds
        | ReadingKind::IsRed
        | ReadingKind::IsRedAmber
        | ReadingKind::IsGreen
        | ReadingKind::IsAmber
        | ReadingKind::TGreen
        | ReadingKind::TRed
        | ReadingKind::StageActive
        | ReadingKind::StageDuration => are_same(a, b),
    }
}

// Whether two expressions are the same name, or the same reading with a known argument.
fn is_same_value(checked: &Checked, a: &Expr, b: &Expr) -> bool
    ensures { result ≡ conditions.is_same_value checked.now.names (expr_of a.now) (expr_of b.now) }
{
    match (a, b) {
        (Expr::Name(a), Expr::Name(b)) => a == b,
        (
            Expr::Read { kind, args },
            Expr::Read {
                kind: other,
                args: more,
            },
        ) => {
            is_same_kind(*kind, *other)
                && is_same_reading(*kind, first(checked, args), first(checked, more))
        }
        _ => false,
    }
}

// Whether two conditions compare one value with bounds of which no value keeps both.
fn are_never_both(checked: &Checked, a: &Expr, b: &Expr) -> bool
    ensures { result ≡ conditions.are_never_both checked.now.names (expr_of a.now) (expr_of b.now) }
{
    match (a, b) {
        (
            Expr::Binary { op, left, right },
            Expr::Binary {
                op: other,
                left: value,
                right: bound,
            },
        ) => {
            is_same_value(checked, left, value)
                && exclude(*op, known(checked, right), *other, known(checked, bound))
        }
        _ => false,
    }
}

// Warns of two conditions that are joined by AND and never hold at once.
fn warn_of_and(
    checked: &Checked,
    line: u32,
    left: &Expr,
    right: &Expr,
    warned: &mut Vec<Warned>,
) -> Result<(), AllocError>
    ensures { OnOk result (warned.new.items ≡ warned.old.items
        ++ conditions.and_told checked.now.names line (expr_of left.now) (expr_of right.now)) }
{
    if are_never_both(checked, last_condition(left), first_condition(right)) {
        warn(warned, line, Meant::Line, ProgramWarning::NeverTrue)
    } else {
        Ok(())
    }
}

// Warns of a comparison of two values that are known.
fn warn_of_comparison(
    line: u32,
    op: BinaryOp,
    left: Option<i32>,
    right: Option<i32>,
    warned: &mut Vec<Warned>,
) -> Result<(), AllocError>
    ensures { OnOk result (warned.new.items ≡ warned.old.items ++ conditions.comparison_told line op left right) }
{
    if left.is_some() && right.is_some() && is_comparison(op) {
        warn(warned, line, Meant::Line, ProgramWarning::ConstantCondition)
    } else {
        Ok(())
    }
}

// Warns of what an operator does on two expressions.
fn warn_of_operator(
    checked: &Checked,
    line: u32,
    op: BinaryOp,
    left: &Expr,
    right: &Expr,
    warned: &mut Vec<Warned>,
) -> Result<(), AllocError>
    ensures { OnOk result (warned.new.items ≡ warned.old.items
        ++ conditions.operator_told checked.now.names line op (expr_of left.now) (expr_of right.now)) }
{
    if is_and(op) {
        return warn_of_and(checked, line, left, right, warned);
    }
    warn_of_comparison(
        line,
        op,
        known(checked, left),
        known(checked, right),
        warned,
    )
}

#[cycle(expression_conditions)]
fn warn_of_expr(
    checked: &Checked,
    line: u32,
    e: &Expr,
    warned: &mut Vec<Warned>,
) -> Result<(), AllocError>
    ensures { OnOk result (warned.new.items ≡ warned.old.items
        ++ conditions.expr_told checked.now.names line (expr_of e.now)) }
{
    match e {
        Expr::Literal(_) | Expr::Name(_) => Ok(()),
        Expr::Cell { index, .. } => warn_of_expr(checked, line, index, warned),
        Expr::Unary { arg, .. } => warn_of_expr(checked, line, arg, warned),
        Expr::Binary { op, left, right } => {
            warn_of_operator(checked, line, *op, left, right, warned)?;
            warn_of_expr(checked, line, left, warned)?;
            warn_of_expr(checked, line, right, warned)
        }
        Expr::Read { args, .. } => warn_of_exprs(checked, line, args, warned),
    }
}

#[cycle(expression_conditions)]
fn warn_of_exprs(
    checked: &Checked,
    line: u32,
    args: &[Expr],
    warned: &mut Vec<Warned>,
) -> Result<(), AllocError>
    ensures { OnOk result (warned.new.items ≡ warned.old.items
        ++ conditions.exprs_told checked.now.names line (exprs_of args.now)) }
{
    for arg in args {
        warn_of_expr(checked, line, arg, warned)?;
    }
    Ok(())
}

#[cycle(statement_conditions)]
fn warn_of_item(checked: &Checked, item: &Item, warned: &mut Vec<Warned>) -> Result<(), AllocError>
    ensures { OnOk result (warned.new.items ≡ warned.old.items
        ++ conditions.item_told checked.now.names (item_of item.now)) }
{
    match item {
        Item::Label { .. } => Ok(()),
        Item::Step { line, what } => warn_of_stmt(checked, *line, what, warned),
    }
}

#[cycle(statement_conditions)]
fn warn_of_stmt(
    checked: &Checked,
    line: u32,
    what: &Stmt,
    warned: &mut Vec<Warned>,
) -> Result<(), AllocError>
    ensures { OnOk result (warned.new.items ≡ warned.old.items
        ++ conditions.stmt_told checked.now.names line (stmt_of what.now)) }
{
    match what {
        Stmt::Assign { value, .. } => warn_of_expr(checked, line, value, warned),
        Stmt::Cell { index, value, .. } => {
            warn_of_expr(checked, line, index, warned)?;
            warn_of_expr(checked, line, value, warned)
        }
        Stmt::If { test, yes, no } => {
            warn_of_expr(checked, line, test, warned)?;
            warn_of_items(checked, &yes.0, warned)?;
            warn_of_items(checked, &no.0, warned)
        }
        Stmt::Do { args, .. } => warn_of_exprs(checked, line, args, warned),
        Stmt::Goto { .. } | Stmt::Gosub { .. } | Stmt::Timer { .. } | Stmt::Trace => Ok(()),
    }
}

#[cycle(statement_conditions)]
fn warn_of_items(
    checked: &Checked,
    items: &[Item],
    warned: &mut Vec<Warned>,
) -> Result<(), AllocError>
    ensures { OnOk result (warned.new.items ≡ warned.old.items
        ++ conditions.items_told checked.now.names (items_of items.now)) }
{
    for item in items {
        warn_of_item(checked, item, warned)?;
    }
    Ok(())
}

fn warn_of_subs(
    checked: &Checked,
    subs: &[Routine],
    warned: &mut Vec<Warned>,
) -> Result<(), AllocError>
    ensures { OnOk result (warned.new.items ≡ warned.old.items
        ++ flat_map (conditions.items_told checked.now.names) (map (λ r. r.body) (map routine_of subs.now))) }
{
    for sub in subs {
        warn_of_items(checked, &sub.body.0, warned)?;
    }
    Ok(())
}

/// Warns of the comparisons of known values, and of the conditions that never hold at once.
pub fn warn_of_conditions(checked: &Checked, warned: &mut Vec<Warned>) -> Result<(), AllocError>
    ensures { OnOk result (warned.new.items ≡ warned.old.items ++ conditions.conditions_told checked.now) }
{
    let program = checked.program();
    warn_of_subs(checked, &program.subs, warned)?;
    warn_of_items(checked, &program.main.body.0, warned)
}
