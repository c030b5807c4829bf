// The TRACE statements of a program.
ghost use Rattle.std.specs.Prelude.{◌≡◌, ◌∷◌, ◌++◌, [], IfOk, OnOk, map};
ghost use Rattle.std.specs.List.{flat_map};
ghost use Rattle.vap_ast.specs.Tree.{item_of, items_of, program_of, routine_of, stmt_of};
ghost use Rattle.trace_told.specs.Statements.{item_traces, items_traces, program_traces, routine_traces, stmt_traces};

use std::alloc::{AllocError, Global};
use vap_ast::{Item, Routine, Stmt};
use vap_check::Checked;

// Adds whether one statement is a TRACE.
fn add(traces: &mut Vec<bool>, is_trace: bool) -> Result<(), AllocError>
    ensures { OnOk result (traces.new.items ≡ traces.old.items ++ is_trace ∷ []) }
{
    traces.push(is_trace)?;
    Ok(())
}

// Adds whether an item's statements are TRACE statements.
#[cycle(traces)]
fn add_item(traces: &mut Vec<bool>, item: &Item) -> Result<(), AllocError>
    ensures { OnOk result (traces.new.items ≡ traces.old.items ++ item_traces (item_of item.now)) }
{
    match item {
        Item::Label { .. } => Ok(()),
        Item::Step { what, .. } => add_stmt(traces, what),
    }
}

// Adds whether a statement and those of its branches are TRACE statements.
#[cycle(traces)]
fn add_stmt(traces: &mut Vec<bool>, what: &Stmt) -> Result<(), AllocError>
    ensures { OnOk result (traces.new.items ≡ traces.old.items ++ stmt_traces (stmt_of what.now)) }
{
    match what {
        Stmt::If { yes, no, .. } => {
            add(traces, false)?;
            add_items(traces, &yes.0)?;
            add_items(traces, &no.0)?;
            Ok(())
        }
        Stmt::Assign { .. }
        | Stmt::Cell { .. }
        | Stmt::Goto { .. }
        | Stmt::Gosub { .. }
        | Stmt::Do { .. }
        | Stmt::Timer { .. } => add(traces, false),
        Stmt::Trace => add(traces, true),
    }
}

// Adds whether the statements of items are TRACE statements.
#[cycle(traces)]
fn add_items(traces: &mut Vec<bool>, items: &[Item]) -> Result<(), AllocError>
    ensures { OnOk result (traces.new.items ≡ traces.old.items ++ items_traces (items_of items.now)) }
{
    for item in items {
        add_item(traces, item)?;
    }
    Ok(())
}

// Adds whether the statements of subroutines are TRACE statements.
fn add_subs(traces: &mut Vec<bool>, subs: &[Routine]) -> Result<(), AllocError>
    ensures { OnOk result (traces.new.items ≡ traces.old.items ++ flat_map routine_traces (map routine_of subs.now)) }
{
    for sub in subs {
        add_items(traces, &sub.body.0)?;
    }
    Ok(())
}

/// For each statement of a program, in the order of its text, which is that of its code, whether it is a `TRACE`.
pub fn traces_in(alloc: Global, checked: &Checked) -> Result<Vec<bool>, AllocError>
    ensures { IfOk result (λ traces. traces.items ≡ program_traces (program_of checked.now.tree)) }
{
    let mut traces = Vec::new(alloc);
    let program = checked.program();
    add_subs(&mut traces, &program.subs)?;
    add_items(&mut traces, &program.main.body.0)?;
    Ok(traces)
}
