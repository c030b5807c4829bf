// How many instructions trees take, counted up to 65,536, which is more than a program may take.
ghost use Rattle.std.specs.Prelude.{◌≡◌, ◌+◌, ◌≤◌, min};
ghost use Rattle.vap_ast.specs.Sizes as whole;
ghost use Rattle.vap_ast.specs.Tree.{expr_of, exprs_of, stmt_of, item_of, items_of};

use crate::tree::{Expr, Item, Stmt};

/// The sum of two counts, of which none is above 65,536; a sum above 65,536 counts as 65,536.
pub fn add_capped(a: usize, b: usize) -> usize
    requires { (a ≤ 65536) × (b ≤ 65536) }
    ensures { result ≡ min (a + b) 65536 }
{
    (a + b).min(65536)
}

/// How many instructions an expression takes, at most 65,536 of them counted.
#[cycle(expr_size)]
pub fn expr_size(e: &Expr) -> usize
    ensures { result ≡ min (whole.expr_size (expr_of e.now)) 65536 }
{
    match e {
        Expr::Literal(_) | Expr::Name(_) => 1,
        Expr::Cell { index, .. } => add_capped(expr_size(index), 1),
        Expr::Unary { arg, .. } => add_capped(expr_size(arg), 1),
        Expr::Binary { left, right, .. } => {
            add_capped(add_capped(expr_size(left), expr_size(right)), 1)
        }
        Expr::Read { args, .. } => add_capped(exprs_size(args), 1),
    }
}

/// How many instructions expressions take one after another, at most 65,536 of them counted.
#[cycle(expr_size)]
pub fn exprs_size(args: &[Expr]) -> usize
    ensures { result ≡ min (whole.exprs_size (exprs_of args.now)) 65536 }
{
    let mut total = 0;
    for arg in args {
        total = add_capped(total, expr_size(arg));
    }
    total
}

/// How many instructions a statement takes without its branches, at most 65,536 of them counted.
pub fn own_size(what: &Stmt) -> usize
    ensures { result ≡ min (whole.own_size (stmt_of what.now)) 65536 }
{
    match what {
        Stmt::Assign { value, .. } => add_capped(expr_size(value), 2),
        Stmt::Cell { index, value, .. } => {
            add_capped(add_capped(expr_size(index), expr_size(value)), 2)
        }
        Stmt::If { test, .. } => add_capped(expr_size(test), 3),
        Stmt::Goto { .. } => 2,
        Stmt::Gosub { .. } => 3,
        Stmt::Do { args, .. } => add_capped(exprs_size(args), 2),
        Stmt::Timer { .. } => 2,
        Stmt::Trace => 1,
    }
}

/// How many instructions an item takes, at most 65,536 of them counted; a label takes none.
#[cycle(stmt_size)]
pub fn item_size(item: &Item) -> usize
    ensures { result ≡ min (whole.item_size (item_of item.now)) 65536 }
{
    match item {
        Item::Label { .. } => 0,
        Item::Step { what, .. } => stmt_size(what),
    }
}

/// How many instructions a statement takes with its branches, at most 65,536 of them counted.
#[cycle(stmt_size)]
pub fn stmt_size(what: &Stmt) -> usize
    ensures { result ≡ min (whole.stmt_size (stmt_of what.now)) 65536 }
{
    match what {
        Stmt::If { test, yes, no } => {
            let branches = add_capped(items_size(&yes.0), items_size(&no.0));
            add_capped(add_capped(expr_size(test), 3), branches)
        }
        Stmt::Assign { .. }
        | Stmt::Cell { .. }
        | Stmt::Goto { .. }
        | Stmt::Gosub { .. }
        | Stmt::Do { .. }
        | Stmt::Timer { .. }
        | Stmt::Trace => own_size(what),
    }
}

/// How many instructions items take one after another, at most 65,536 of them counted.
#[cycle(stmt_size)]
pub fn items_size(items: &[Item]) -> usize
    ensures { result ≡ min (whole.items_size (items_of items.now)) 65536 }
{
    let mut total = 0;
    for item in items {
        total = add_capped(total, item_size(item));
    }
    total
}
