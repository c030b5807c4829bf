// The line that a call of a TRACE prints.
ghost use Rattle.std.specs.Prelude.{◌≡◌, map, pos, slice_index_or};
ghost use Rattle.std.specs.List.{flat_map};
ghost use Rattle.sig_io.specs.Draft.{Puts};
ghost use Rattle.sig_types.specs.Pass.{cell};
ghost use Rattle.vap_ast.specs.Tree.{program_of};
ghost use Rattle.vap_code.specs.Stores.{stopped};
ghost use Rattle.trace_told.specs.ValueRows.{or_zero, value_text};
ghost use Rattle.trace_told.specs.Printed.{call_text, named_value, named_values, printed_at, printed_by};
ghost use Rattle.trace_told.specs.Traces.{trace_in};

use crate::columns::{Column, put_label};
use crate::traces::Trace;
use sig_io::{Draft, Sink};
use trace_watch::spends;
use vap_check::Checked;
use vap_vm::Sight;

// The number of a variable; 0 where there is none.
fn number_of(sight: &Sight<'_>, variable: u16) -> i32
    ensures { result ≡ slice_index_or sight.now.state.store.variables variable (pos 0) }
{
    match sight.variable(variable) {
        Some(number) => number,
        None => 0,
    }
}

// The count of a timer; 0 where there is none.
fn count_of(sight: &Sight<'_>, timer: u16) -> u32
    ensures { result ≡ (slice_index_or sight.now.state.store.timers timer stopped).count }
{
    match sight.timer(timer) {
        Some(timer) => timer.count,
        None => 0,
    }
}

// The number in a cell; 0 where there is none.
fn number_in(sight: &Sight<'_>, array: u16, place: u16) -> i32
    ensures { result ≡ or_zero (cell sight.now.state.store array (pos place)) }
{
    match sight.cell(array, i32::from(place)) {
        Ok(number) => number,
        Err(_) => 0,
    }
}

// Puts a value as it stands.
fn put_value<O: Sink>(sight: &Sight<'_>, column: Column, draft: &mut Draft, out: &mut O)
    ensures { Puts O.taken O.faults draft.old draft.new out.old out.new (value_text sight.now.state.store column) }
{
    match column {
        Column::Variable(v) => draft.put_signed(out, number_of(sight, v)),
        Column::Timer(t) => draft.put_number(out, count_of(sight, t)),
        Column::Cell(a, place) => draft.put_signed(out, number_in(sight, a, place)),
    }
}

// Puts a value with its name.
#[tactic(auto, unfolding(crate::specs::Printed::named_value))]
fn put_named<O: Sink>(
    checked: &Checked,
    sight: &Sight<'_>,
    column: Column,
    draft: &mut Draft,
    out: &mut O,
)
    ensures { Puts O.taken O.faults draft.old draft.new out.old out.new
        (named_value (program_of checked.now.tree) sight.now.state.store column) }
{
    draft.put(out, b" ");
    put_label(checked, column, draft, out);
    draft.put(out, b"=");
    put_value(sight, column, draft, out);
}

// Puts values with their names.
fn put_all<O: Sink>(
    checked: &Checked,
    sight: &Sight<'_>,
    columns: &[Column],
    draft: &mut Draft,
    out: &mut O,
)
    ensures { Puts O.taken O.faults draft.old draft.new out.old out.new
        (named_values (program_of checked.now.tree) sight.now.state.store columns.now) }
{
    for column in columns {
        put_named(checked, sight, *column, draft, out);
    }
}

// Puts the line of one call of a TRACE.
#[tactic(auto, unfolding(crate::specs::Printed::call_text))]
fn put_call<O: Sink>(
    checked: &Checked,
    second: u32,
    sight: &Sight<'_>,
    trace: &Trace,
    draft: &mut Draft,
    out: &mut O,
)
    ensures { Puts O.taken O.faults draft.old draft.new out.old out.new
        (call_text (program_of checked.now.tree) second sight.now.state.store (trace_in trace.now)) }
{
    draft.put_number(out, second);
    draft.put(out, b" line ");
    draft.put_number(out, trace.line);
    draft.put(out, b":");
    put_all(checked, sight, trace.columns.as_slice(), draft, out);
    draft.put(out, b"\n");
}

// Puts the line of a TRACE, if it is the one at the place of a sight.
fn put_if_there<O: Sink>(
    checked: &Checked,
    second: u32,
    sight: &Sight<'_>,
    trace: &Trace,
    draft: &mut Draft,
    out: &mut O,
)
    ensures { Puts O.taken O.faults draft.old draft.new out.old out.new
        (printed_by (program_of checked.now.tree) second sight.now.state (trace_in trace.now)) }
{
    if trace.place == sight.place() {
        put_call(checked, second, sight, trace, draft, out);
    }
}

// Puts what is printed where a statement begins at a sight: the line of the TRACE that stands there, if one does.
fn put_begun<O: Sink>(
    checked: &Checked,
    second: u32,
    sight: &Sight<'_>,
    traces: &[Trace],
    draft: &mut Draft,
    out: &mut O,
)
    ensures { Puts O.taken O.faults draft.old draft.new out.old out.new
        (flat_map (printed_by (program_of checked.now.tree) second sight.now.state) (map trace_in traces.now)) }
{
    for trace in traces {
        put_if_there(checked, second, sight, trace, draft, out);
    }
}

/// Puts what is printed at a sight: nothing unless a statement begins there.
pub(crate) fn put_seen<O: Sink>(
    checked: &Checked,
    second: u32,
    sight: &Sight<'_>,
    traces: &[Trace],
    draft: &mut Draft,
    out: &mut O,
)
    ensures { Puts O.taken O.faults draft.old draft.new out.old out.new
        (printed_at (program_of checked.now.tree) (map trace_in traces.now) second sight.now) }
{
    if spends(sight.instr(), sight.units()) {
        put_begun(checked, second, sight, traces, draft, out);
    }
}
