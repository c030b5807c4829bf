// What is written of the values that a second changed.
ghost use Rattle.std.specs.Prelude.{◌≡◌};
ghost use Rattle.std.specs.Fmt.{signed_decimal};
ghost use Rattle.sig_io.specs.Draft.{Puts};
ghost use Rattle.sig_types.specs.Number.{equal};
ghost use Rattle.vap_ast.specs.Tree.{program_of};
ghost use Rattle.trace_told.specs.Listing.{change_text, changed_text, changes_text, difference_text};

use crate::columns::{Column, put_label};
use crate::kept::{Kept, value_in};
use itoa::Buffer;
use sig_io::{Draft, Sink};
use vap_check::Checked;
use vap_vm::Vm;

// Puts a number in decimal.
fn put_value<O: Sink>(value: i64, draft: &mut Draft, out: &mut O)
    ensures { Puts O.taken O.faults draft.old draft.new out.old out.new (signed_decimal value) }
{
    let mut digits = Buffer::new();
    draft.put(out, digits.format(value).as_bytes());
}

// Whether two numbers are one.
fn is_equal(a: i64, b: i64) -> bool
    ensures { result ≡ equal a b }
{
    a <= b && b <= a
}

// Puts a value that was changed, before and after.
fn put_changed<O: Sink>(
    checked: &Checked,
    column: Column,
    before: i64,
    after: i64,
    draft: &mut Draft,
    out: &mut O,
)
    ensures { Puts O.taken O.faults draft.old draft.new out.old out.new (changed_text (program_of checked.now.tree) column before after) }
{
    draft.put(out, b"\nchanged ");
    put_label(checked, column, draft, out);
    draft.put(out, b": ");
    put_value(before, draft, out);
    draft.put(out, b" -> ");
    put_value(after, draft, out);
}

// Puts a value, if it is another one than before.
fn put_difference<O: Sink>(
    checked: &Checked,
    column: Column,
    before: i64,
    after: i64,
    draft: &mut Draft,
    out: &mut O,
)
    ensures { Puts O.taken O.faults draft.old draft.new out.old out.new (difference_text (program_of checked.now.tree) column before after) }
{
    if !is_equal(before, after) {
        put_changed(checked, column, before, after, draft, out);
    }
}

// Puts a value that differs from the one that was kept, with both.
fn put_change<O: Sink>(checked: &Checked, vm: &Vm, kept: Kept, draft: &mut Draft, out: &mut O)
    ensures { Puts O.taken O.faults draft.old draft.new out.old out.new (change_text (program_of checked.now.tree) vm.now.store kept) }
{
    let after = value_in(vm, kept.column);
    put_difference(checked, kept.column, kept.before, after, draft, out);
}

/// Puts the values that differ from those that were kept.
pub(crate) fn put_changes<O: Sink>(
    checked: &Checked,
    vm: &Vm,
    kept: &[Kept],
    draft: &mut Draft,
    out: &mut O,
)
    ensures { Puts O.taken O.faults draft.old draft.new out.old out.new (changes_text (program_of checked.now.tree) vm.now.store kept.now) }
{
    for one in kept {
        put_change(checked, vm, *one, draft, out);
    }
}
