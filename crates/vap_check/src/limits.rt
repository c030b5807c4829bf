// What a program has too many of, and its size.
ghost use Rattle.std.specs.Prelude.{◌≡◌, ◌≤◌, length, min, map, flat_map, nat_lt};
ghost use Rattle.sig_types.specs.Limits.{most_variables, most_timers};
ghost use Rattle.vap_ast.specs.Tree.{stmt_of, item_of, items_of, array_of, routine_of, program_of};
ghost use Rattle.vap_check.specs.Accepted as whole;
ghost use Rattle.vap_check.specs.Names as names;

use crate::refusal::Which;
use sig_types::limits::{MOST_ARRAYS, MOST_CELLS, MOST_LABELS, MOST_SUBROUTINES};
use vap_ast::{ArrayDecl, Item, Program, Routine, Stmt, add_capped, items_size};

// The cells of arrays, counted up to 65,536.
#[tactic(auto, using(crate::proofs::Sums::length_on))]
fn count_cells(arrays: &[ArrayDecl]) -> usize
    ensures { result ≡ min (length (flat_map (λ a. a.values) (map array_of arrays.now))) 65536 }
{
    let mut total = 0;
    for array in arrays {
        total = add_capped(total, array.values.len().min(65536));
    }
    total
}

// The labels of an item, counted up to 65,536.
#[cycle(labels)]
#[tactic(auto, using(crate::proofs::Sums::length_on))]
fn count_item_labels(item: &Item) -> usize
    ensures { result ≡ min (length (names.item_labels (item_of item.now))) 65536 }
{
    match item {
        Item::Label { .. } => 1,
        Item::Step { what, .. } => count_stmt_labels(what),
    }
}

#[cycle(labels)]
#[tactic(auto, using(crate::proofs::Sums::length_on))]
fn count_stmt_labels(what: &Stmt) -> usize
    ensures { result ≡ min (length (names.stmt_labels (stmt_of what.now))) 65536 }
{
    match what {
        Stmt::If { yes, no, .. } => add_capped(
            count_items_labels(&yes.0),
            count_items_labels(&no.0),
        ),
        Stmt::Assign { .. }
        | Stmt::Cell { .. }
        | Stmt::Goto { .. }
        | Stmt::Gosub { .. }
        | Stmt::Do { .. }
        | Stmt::Timer { .. }
        | Stmt::Trace => 0,
    }
}

#[cycle(labels)]
#[tactic(auto, using(crate::proofs::Sums::length_on))]
fn count_items_labels(items: &[Item]) -> usize
    ensures { result ≡ min (length (names.items_labels (items_of items.now))) 65536 }
{
    let mut total = 0;
    for item in items {
        total = add_capped(total, count_item_labels(item));
    }
    total
}

// The labels of subroutines, counted up to 65,536.
#[tactic(auto, using(crate::proofs::Sums::length_on))]
fn count_subs_labels(subs: &[Routine]) -> usize
    ensures { result ≡ min (length (flat_map names.items_labels (map (λ r. r.body) (map routine_of subs.now)))) 65536 }
{
    let mut total = 0;
    for sub in subs {
        total = add_capped(total, count_items_labels(&sub.body.0));
    }
    total
}

// The labels of a program, counted up to 65,536.
#[tactic(auto, using(crate::proofs::Sums::labels_on))]
fn count_labels(program: &Program) -> usize
    ensures { result ≡ min (whole.labels (program_of program.now)) 65536 }
{
    add_capped(
        count_subs_labels(&program.subs),
        count_items_labels(&program.main.body.0),
    )
}

// The size of subroutines, counted up to 65,536.
fn subs_size(subs: &[Routine]) -> usize
    ensures { result ≡ min (whole.bodies_size (map (λ r. r.body) (map routine_of subs.now))) 65536 }
{
    let mut total = 0;
    for sub in subs {
        total = add_capped(total, add_capped(items_size(&sub.body.0), 1));
    }
    total
}

/// The size of a program, counted up to 65,536.
#[tactic(auto, using(crate::proofs::Sums::size_on))]
pub fn program_size(program: &Program) -> usize
    ensures { result ≡ min (whole.program_size (program_of program.now)) 65536 }
{
    add_capped(
        subs_size(&program.subs),
        add_capped(items_size(&program.main.body.0), 1),
    )
}

/// What a program has too many of, where it is known whether it has too many variables and too many timers; `None` where it
/// passes no limit.
pub fn first_passed_limit(
    program: &Program,
    many_variables: bool,
    many_timers: bool,
) -> Option<Which>
    requires variables { many_variables ≡ nat_lt most_variables (length (names.variables (program_of program.now))) }
    requires timers { many_timers ≡ nat_lt most_timers (length (names.timers (program_of program.now))) }
    ensures { result ≡ whole.passed (program_of program.now) }
{
    if many_variables {
        Some(Which::Variables)
    } else if many_timers {
        Some(Which::Timers)
    } else if program.arrays.len() > usize::from(MOST_ARRAYS) {
        Some(Which::Arrays)
    } else if count_cells(&program.arrays) > usize::from(MOST_CELLS) {
        Some(Which::Cells)
    } else if program.subs.len() > usize::from(MOST_SUBROUTINES) {
        Some(Which::Subroutines)
    } else if count_labels(program) > usize::from(MOST_LABELS) {
        Some(Which::Labels)
    } else {
        None
    }
}
