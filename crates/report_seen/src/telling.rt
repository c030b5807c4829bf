// What is told of two logs.
ghost use Rattle.std.specs.Prelude.{◌≡◌, ◌≤◌, ◌⊎◌, List, None, Some, Option, Err, IfErr, IfOk, true, false, map, ◌++◌, length};
ghost use Rattle.std.specs.List.{flat_map};
ghost use Rattle.sig_io.specs.Draft.{Puts};
ghost use Rattle.sig_io.specs.Outside.{Rose};
ghost use Rattle.sig_types.specs.LogForm.{spaced};
ghost use Rattle.sig_types.specs.declared.record.Record.{Record};
ghost use Rattle.log_read.specs.declared.begin.Begin.{Begin};
ghost use Rattle.log_read.specs.RecordAnswers.{names_of};
ghost use Rattle.log_read.specs.Readings.{IsRecords};
ghost use Rattle.log_compare.specs.Rows.{rows_of};
ghost use Rattle.log_compare.specs.Sides.{side_in, sides_of, sides_text};
ghost use Rattle.sums_text.specs.Table.{table_text};
ghost use Rattle.sums_text.specs.Words.{AreTextual};
ghost use Rattle.report_seen.specs.CompareForm.{asked_in};
ghost use Rattle.report_seen.specs.Loaded.{IsSummed};
ghost use Rattle.report_seen.specs.Told.{IsFound, IsOfTelling, IsTold, IsWritten, beginning_text, differs, groups_text};

use crate::compare_form::CompareForm;
use crate::loading::Summed;
use log_compare::{
    Difference, Side, first_difference, put_difference, put_sides, rows_of, sides_of,
};
use log_sums::LogSums;
use report_words::JudgeStop;
use sig_io::{Draft, GrowSink, Sink};
use sig_types::{Memory, ShortName};
use std::alloc::Global;
use sums_text::put_table;

// The table of sums, in memory.
fn table_of(alloc: Global, names: &[ShortName], sums: &LogSums) -> Result<GrowSink, Memory>
    requires { AreTextual (length names.now) sums.now }
    ensures { IfOk result (λ s. ⟦<GrowSink as Sink>⟧.taken s ≡ Some (table_text names.now sums.now)) }
{
    let mut sink = GrowSink::new(alloc);
    let mut draft = Draft::new();
    put_table(&mut draft, &mut sink, names, sums);
    match draft.finish(&mut sink) {
        Ok(()) => Ok(sink),
        Err(_) => Err(Memory),
    }
}

// Two tables side by side.
fn sides_in<'a>(alloc: Global, one: &'a [u8], other: &'a [u8]) -> Result<Vec<Side<'a>>, Memory>
    ensures { IfOk result (λ sides. map side_in sides.items ≡ sides_of (rows_of one.now) (rows_of other.now)) }
{
    let ones = rows_of(alloc, one)?;
    let others = rows_of(alloc, other)?;
    sides_of(alloc, &ones, &others)
}

// Whether two logs have the same groups.
fn same_names(one: &[ShortName], other: &[ShortName]) -> bool
    ensures same { result ≡ true → one.now ≡ other.now }
    ensures differs { result ≡ false → one.now ≡ other.now → ⊥ }
{
    if one.len() != other.len() {
        return false;
    }
    for place in 0..one.len() {
        if one[place].bytes() != other[place].bytes() {
            return false;
        }
    }
    true
}

// The first difference of two logs with these bytes and groups; none where they have other groups.
fn difference_of<'a>(
    alloc: Global,
    names: &[ShortName],
    others: &[ShortName],
    one: &'a [u8],
    other: &'a [u8],
) -> Result<Option<Difference<'a>>, Memory>
    requires { length names.now ≤ 64 }
    ensures { IfOk result (λ d. (rs ss : List Record) → IsRecords false Begin.AtOne names.now one.now rs None → IsRecords false Begin.AtOne others.now other.now ss None →
        IsFound names.now others.now one.now other.now rs ss d) }
{
    if !same_names(names, others) {
        return Ok(None);
    }
    let difference = first_difference(alloc, names, one, other)?;
    Ok(Some(difference))
}

// Puts names, each after a space.
fn put_names<O: Sink>(draft: &mut Draft, sink: &mut O, names: &[ShortName])
    ensures { Puts O.taken O.faults draft.old draft.new sink.old sink.new (flat_map spaced names.now) }
{
    for name in names {
        draft.put(sink, b" ");
        draft.put(sink, name.bytes());
    }
}

// Puts the groups of two logs that have other ones.
fn put_groups<O: Sink>(draft: &mut Draft, sink: &mut O, names: &[ShortName], others: &[ShortName])
    ensures { Puts O.taken O.faults draft.old draft.new sink.old sink.new (groups_text names.now others.now) }
{
    draft.put(sink, b"groups");
    put_names(draft, sink, names);
    draft.put(sink, b" |");
    put_names(draft, sink, others);
    draft.put(sink, b"\n");
}

// Puts where two logs differ first.
fn put_beginning<O: Sink>(
    draft: &mut Draft,
    sink: &mut O,
    form: &CompareForm<'_>,
    names: &[ShortName],
    others: &[ShortName],
    difference: Option<Difference<'_>>,
)
    ensures { Puts O.taken O.faults draft.old draft.new sink.old sink.new
        (beginning_text (asked_in form.now) names.now others.now difference.entry) }
{
    match difference {
        None => put_groups(draft, sink, names, others),
        Some(difference) => put_difference(
            draft,
            sink,
            names,
            form.one.as_bytes(),
            form.other.as_bytes(),
            difference,
        ),
    }
}

// Whether two logs differ.
fn differs(difference: Option<Difference<'_>>) -> bool
    ensures { result ≡ differs difference.entry }
{
    match difference {
        None => true,
        Some(Difference::Nowhere) => false,
        Some(Difference::OneEnds(_)) => true,
        Some(Difference::OtherEnds(_)) => true,
        Some(Difference::In { .. }) => true,
    }
}

// Writes where two logs differ first, and their sums side by side, and answers whether they differ.
fn write_told<'a, O: Sink>(
    form: &CompareForm<'a>,
    names: &[ShortName],
    others: &[ShortName],
    difference: Option<Difference<'_>>,
    sides: &[Side<'_>],
    out: &mut O,
) -> Result<bool, JudgeStop<'a>>
    ensures written { IsWritten (beginning_text (asked_in form.now) names.now others.now difference.entry ++ sides_text (map side_in sides.now))
        result (O.taken out.old) (O.taken out.new) }
    ensures differs { IfOk result (λ d. d ≡ differs difference.entry) }
    ensures of_telling { IfErr result IsOfTelling }
    ensures unwritten { IfErr result (λ stop. (stop ≡ JudgeStop.WriteFault → ⊥) → out.new ≡ out.old) }
    ensures cause { result ≡ Err JudgeStop.WriteFault → Rose (O.faults out.old) (O.faults out.new) }
{
    let mut draft = Draft::new();
    put_beginning(&mut draft, out, form, names, others, difference);
    put_sides(&mut draft, out, sides);
    match draft.finish(out) {
        Ok(()) => Ok(differs(difference)),
        Err(_fault) => Err(JudgeStop::WriteFault),
    }
}

// Writes what is told of two logs, whose tables of sums are these.
fn tell_tables<'a, O: Sink>(
    alloc: Global,
    form: &CompareForm<'a>,
    one: &Summed,
    other: &Summed,
    table: &[u8],
    other_table: &[u8],
    out: &mut O,
) -> Result<bool, JudgeStop<'a>>
    requires one { IsSummed one.now }
    requires other { IsSummed other.now }
    requires table { table.now ≡ table_text (names_of one.now.records) one.now.sums }
    requires other_table { other_table.now ≡ table_text (names_of other.now.records) other.now.sums }
    ensures told { IsTold (asked_in form.now) one.now.bytes.items other.now.bytes.items result (O.taken out.old) (O.taken out.new) }
    ensures of_telling { IfErr result IsOfTelling }
    ensures unwritten { IfErr result (λ stop. (stop ≡ JudgeStop.WriteFault → ⊥) → out.new ≡ out.old) }
    ensures cause { result ≡ Err JudgeStop.WriteFault → Rose (O.faults out.old) (O.faults out.new) }
{
    let names = one.records.names();
    let others = other.records.names();
    let sides = match sides_in(alloc, table, other_table) {
        Ok(sides) => sides,
        Err(_memory) => return Err(JudgeStop::Memory),
    };
    match difference_of(alloc, names, others, &one.bytes, &other.bytes) {
        Ok(difference) => write_told(form, names, others, difference, &sides, out),
        Err(_memory) => Err(JudgeStop::Memory),
    }
}

/// Writes what is told of two logs, and answers whether they differ.
pub(crate) fn tell<'a, O: Sink>(
    alloc: Global,
    form: &CompareForm<'a>,
    one: &Summed,
    other: &Summed,
    out: &mut O,
) -> Result<bool, JudgeStop<'a>>
    requires one { IsSummed one.now }
    requires other { IsSummed other.now }
    ensures told { IsTold (asked_in form.now) one.now.bytes.items other.now.bytes.items result (O.taken out.old) (O.taken out.new) }
    ensures of_telling { IfErr result IsOfTelling }
    ensures unwritten { IfErr result (λ stop. (stop ≡ JudgeStop.WriteFault → ⊥) → out.new ≡ out.old) }
    ensures cause { result ≡ Err JudgeStop.WriteFault → Rose (O.faults out.old) (O.faults out.new) }
{
    let table = match table_of(alloc, one.records.names(), &one.sums) {
        Ok(table) => table,
        Err(_memory) => return Err(JudgeStop::Memory),
    };
    match table_of(alloc, other.records.names(), &other.sums) {
        Ok(other_table) => tell_tables(
            alloc,
            form,
            one,
            other,
            table.bytes(),
            other_table.bytes(),
            out,
        ),
        Err(_memory) => Err(JudgeStop::Memory),
    }
}
