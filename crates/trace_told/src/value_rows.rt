// The rows of a table of values.
ghost use Rattle.std.specs.Prelude.{◌≡◌, pos, slice_index_or};
ghost use Rattle.sig_io.specs.Draft.{Puts};
ghost use Rattle.sig_types.specs.Pass.{cell};
ghost use Rattle.vap_ast.specs.Tree.{program_of};
ghost use Rattle.vap_code.specs.Stores.{stopped};
ghost use Rattle.trace_told.specs.ValueRows.{header_text, label_field, label_fields, or_zero, row_text, value_field, value_fields, value_text};

use crate::columns::{Column, put_label};
use controller::Controller;
use run_seconds::Teller;
use sig_io::{Draft, Sink};
use sig_types::{Clock, Frame};
use vap_check::Checked;
use vap_vm::{Unseen, Vm};

// The number at a place; 0 where there is none.
fn number_at(numbers: &[i32], place: usize) -> i32
    ensures { result ≡ slice_index_or numbers.now place (pos 0) }
{
    match numbers.get(place) {
        Some(number) => *number,
        None => 0,
    }
}

// The count of the timer at a place; 0 where there is none.
fn count_at(timers: &[Clock], place: usize) -> u32
    ensures { result ≡ (slice_index_or timers.now place stopped).count }
{
    match timers.get(place) {
        Some(timer) => timer.count,
        None => 0,
    }
}

// The number in a cell; 0 where there is none.
fn number_in(vm: &Vm, array: u16, place: u16) -> i32
    ensures { result ≡ or_zero (cell vm.now.store array (pos place)) }
{
    match vm.cell(array, i32::from(place)) {
        Ok(number) => number,
        Err(_) => 0,
    }
}

// Puts a value as it stands.
fn put_value<O: Sink>(vm: &Vm, column: Column, draft: &mut Draft, out: &mut O)
    ensures { Puts O.taken O.faults draft.old draft.new out.old out.new (value_text vm.now.store column) }
{
    match column {
        Column::Variable(v) => draft.put_signed(out, number_at(vm.variables(), v as usize)),
        Column::Timer(t) => draft.put_number(out, count_at(vm.timers(), t as usize)),
        Column::Cell(a, place) => draft.put_signed(out, number_in(vm, a, place)),
    }
}

// Puts a value behind a comma.
fn put_field<O: Sink>(vm: &Vm, column: Column, draft: &mut Draft, out: &mut O)
    ensures { Puts O.taken O.faults draft.old draft.new out.old out.new (value_field vm.now.store column) }
{
    draft.put(out, b",");
    put_value(vm, column, draft, out);
}

// Puts values, each behind a comma.
fn put_fields<O: Sink>(vm: &Vm, columns: &[Column], draft: &mut Draft, out: &mut O)
    ensures { Puts O.taken O.faults draft.old draft.new out.old out.new (value_fields vm.now.store columns.now) }
{
    for column in columns {
        put_field(vm, *column, draft, out);
    }
}

// Puts the number of a second and the values as they stand.
#[tactic(auto, unfolding(crate::specs::ValueRows::row_text))]
fn put_row<O: Sink>(second: u32, columns: &[Column], vm: &Vm, draft: &mut Draft, out: &mut O)
    ensures { Puts O.taken O.faults draft.old draft.new out.old out.new (row_text second vm.now.store columns.now) }
{
    draft.put_number(out, second);
    put_fields(vm, columns, draft, out);
    draft.put(out, b"\n");
}

// Puts how a value is named, behind a comma.
fn put_label_field<O: Sink>(checked: &Checked, column: Column, draft: &mut Draft, out: &mut O)
    ensures { Puts O.taken O.faults draft.old draft.new out.old out.new (label_field (program_of checked.now.tree) column) }
{
    draft.put(out, b",");
    put_label(checked, column, draft, out);
}

// Puts how values are named, each behind a comma.
fn put_label_fields<O: Sink>(checked: &Checked, columns: &[Column], draft: &mut Draft, out: &mut O)
    ensures { Puts O.taken O.faults draft.old draft.new out.old out.new (label_fields (program_of checked.now.tree) columns.now) }
{
    for column in columns {
        put_label_field(checked, *column, draft, out);
    }
}

/// Puts the row above those of the seconds: `SECOND`, and how the values are named.
#[tactic(auto, unfolding(crate::specs::ValueRows::header_text))]
pub fn put_value_header<O: Sink>(
    checked: &Checked,
    columns: &[Column],
    draft: &mut Draft,
    out: &mut O,
)
    ensures { Puts O.taken O.faults draft.old draft.new out.old out.new (header_text (program_of checked.now.tree) columns.now) }
{
    draft.put(out, b"SECOND");
    put_label_fields(checked, columns, draft, out);
    draft.put(out, b"\n");
}

/// What tells of the seconds of a run by rows of values: of those from one to another, both of them too.
#[derive(Drop)]
pub struct Rows<'a> {
    /// The values, in the order of the columns.
    pub columns: &'a [Column],
    /// The first second that is told of.
    pub from: u32,
    /// The last second that is told of.
    pub to: u32,
}

impl<'a> Teller for Rows<'a> {
    ghost use Rattle.trace_told.specs.ValueRows.{row_told};

    ghost telling = { λ rows code site past frame. row_told rows.from rows.to rows.columns.now code site past frame };

    ghost knows = { λ rows code site first frames. Unit {0} };

    #[tactic(auto, unfolding(controller::specs::Controls::code_of, controller::specs::Controls::logic_of, controller::specs::Second::record_after))]
    fn tell<O: Sink>(
        &mut self,
        controller: &mut Controller,
        frame: &Frame,
        draft: &mut Draft,
        out: &mut O,
    ) {
        controller.second_seen(frame, &mut Unseen);
        let second = controller.last().second.0;
        if self.from <= second && second <= self.to {
            put_row(second, self.columns, controller.vm(), draft, out);
        }
    }
}
