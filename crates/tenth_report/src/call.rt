// The call.
ghost use Rattle.std.specs.Prelude.{◌≡◌, ◌≤◌, ◌⊎◌, ℕ, true, List, Option, None, OnErr, Ok, IfErr, IsTrue, length, map, string_bytes};
ghost use Rattle.std.specs.Option.{ForSome};
ghost use Rattle.std.specs.Str.Lines.{lines};
ghost use Rattle.sig_io.specs.Draft.{IsDraft};
ghost use Rattle.sig_io.specs.Outside.{Rose};
ghost use Rattle.sig_io.specs.Seen.{seen};
ghost use Rattle.pua_model.specs.Plan.{groups_in};
ghost use Rattle.tenth_records.specs.Answers.{first_of, groups_of, is_live, left_told, name_of, next_of, record_told};
ghost use Rattle.tenth_records.specs.Header.{header_of};
ghost use Rattle.tenth_records.specs.Names.{plan_of_names};
ghost use Rattle.tenth_report.specs.Calls.{IsAnswered, IsReported, IsWritten, done_with};
ghost use Rattle.tenth_report.specs.Form.{IsTask, asked_in, form_of};
ghost use Rattle.tenth_report.specs.Kept.{counted, found_text, gathered_text};
ghost use Rattle.tenth_report.specs.Stops.{IsReadFault, IsWriteFault};
ghost use Rattle.tenth_report.specs.Tables.{rules_at, rules_by_tables};
ghost use Rattle.tenth_report.specs.Told.{is_some_breach};

use crate::finding::find_breaches;
use crate::form::{RecordForm, Task, form_of};
use crate::gathered_text::put_gathered;
use crate::gathering::{Gathered, gather_record};
use crate::search::Found;
use crate::stop::{RecordStop, ended_with, stop_of, write_note};
use crate::tables::{RecordTables, take_tables};
use crate::text::put_found;
use log_judge::Breach;
use pua_model::Plan;
use report_words::{JudgeStop, Status};
use sig_io::{Draft, Files, Sink};
use std::alloc::Global;
use tenth_records::TenthRecord;
use tenth_tables::limits_of;

// Gives a sink the rest of a text.
fn end<'a, O: Sink>(draft: Draft, out: &mut O) -> Result<(), RecordStop<'a>>
    ensures written { (start : Option (List ℕ)) (text : List ℕ) → IsDraft start (O.taken out.old) draft text →
        IsWritten text result start (O.taken out.new) }
    ensures later { O.faults out.old ≤ O.faults out.new }
    ensures cause { OnErr result (IsTrue draft.failed ⊎ Rose (O.faults out.old) (O.faults out.new)) }
{
    match draft.finish(out) {
        Ok(()) => Ok(()),
        Err(_fault) => Err(RecordStop::Judge(JudgeStop::WriteFault)),
    }
}

// Writes the breaches of a record.
fn write_found<'a, O: Sink>(
    plan: &Plan,
    csv: bool,
    found: &Found,
    out: &mut O,
) -> Result<(), RecordStop<'a>>
    requires { counted found.now.parts.items ≤ length found.now.breaches.items }
    ensures written { IsWritten (found_text csv plan.now.names found.now) result (O.taken out.old) (O.taken out.new) }
    ensures cause { OnErr result (Rose (O.faults out.old) (O.faults out.new)) }
{
    let mut draft = Draft::new();
    put_found(&mut draft, out, plan, csv, found);
    end(draft, out)
}

// Whether there are breaches.
fn is_some(found: &[Breach]) -> bool
    ensures { result ≡ is_some_breach found.now }
{
    match found {
        [] => false,
        [_, ..] => true,
    }
}

// Judges a record by its tables with this tolerance, and tells whether there are breaches.
fn judge_record<'a, F: Files, O: Sink>(
    alloc: Global,
    tables: &RecordTables,
    record: &mut TenthRecord,
    form: &RecordForm<'a>,
    tolerance: u32,
    files: &mut F,
    out: &mut O,
) -> Result<bool, RecordStop<'a>>
    requires times { length tables.now.times ≡ groups_in tables.now.plan }
    requires intergreens { tables.now.intergreens.count ≡ groups_in tables.now.plan }
    requires groups { groups_of record.old ≡ groups_in tables.now.plan }
    requires task { form.now.task ≡ Task.Breaches tolerance }
    requires tolerance { tolerance ≤ 90 }
    requires live { is_live record.old ≡ true }
    requires none { first_of record.old ≡ None }
    requires start { next_of record.old ≡ 0 }
    requires name { name_of record.old ≡ form.now.file.now }
    ensures judged { ForSome (F.told files.old) (λ file.
        header_of (lines (file form.now.file.now)) ≡ Ok tables.now.plan.names →
        rules_at file form.now.times.now form.now.intergreens.now (plan_of_names tables.now.plan.names) ≡ Ok (rules_by_tables tables.now) →
        left_told record.old (file form.now.file.now) ≡ record_told tables.now.plan.names (file form.now.file.now) →
        IsAnswered (asked_in form.now) file result (O.taken out.old) (O.taken out.new)) }
    ensures unwritten { IfErr result (λ stop. (stop ≡ RecordStop.Judge JudgeStop.WriteFault → ⊥) → out.new ≡ out.old) }
    ensures contents_stay { F.told files.new ≡ F.told files.old }
    ensures later { F.faults files.old ≤ F.faults files.new }
    ensures read { IsReadFault result → Rose (F.faults files.old) (F.faults files.new) }
    ensures write { IsWriteFault result → Rose (O.faults out.old) (O.faults out.new) }
{
    let found = match find_breaches(alloc, tables, record, tolerance, form.file, files) {
        Ok(found) => found,
        Err(stop) => return Err(stop),
    };
    match write_found(&tables.plan, form.csv, &found, out) {
        Ok(()) => Ok(is_some(&found.breaches)),
        Err(stop) => Err(stop),
    }
}

// Writes what came in a record.
fn write_gathered<'a, O: Sink>(
    tables: &RecordTables,
    csv: bool,
    gathered: &Gathered,
    out: &mut O,
) -> Result<(), RecordStop<'a>>
    requires times { length tables.now.times ≡ groups_in tables.now.plan }
    requires intergreens { tables.now.intergreens.count ≡ groups_in tables.now.plan }
    requires few { groups_in tables.now.plan ≤ 64 }
    ensures written { IsWritten (gathered_text csv tables.now.plan.names (rules_by_tables tables.now) gathered.now) result
        (O.taken out.old) (O.taken out.new) }
    ensures cause { OnErr result (Rose (O.faults out.old) (O.faults out.new)) }
{
    let limits = limits_of(&tables.times, &tables.intergreens);
    let mut draft = Draft::new();
    put_gathered(&mut draft, out, &tables.plan, &limits, csv, gathered);
    end(draft, out)
}

// Tells what came in a record, which breaks nothing.
fn tell_record<'a, F: Files, O: Sink>(
    alloc: Global,
    tables: &RecordTables,
    record: &mut TenthRecord,
    form: &RecordForm<'a>,
    files: &mut F,
    out: &mut O,
) -> Result<bool, RecordStop<'a>>
    requires times { length tables.now.times ≡ groups_in tables.now.plan }
    requires intergreens { tables.now.intergreens.count ≡ groups_in tables.now.plan }
    requires groups { groups_of record.old ≡ groups_in tables.now.plan }
    requires task { form.now.task ≡ Task.Protocol }
    requires live { is_live record.old ≡ true }
    requires none { first_of record.old ≡ None }
    requires start { next_of record.old ≡ 0 }
    requires name { name_of record.old ≡ form.now.file.now }
    ensures told { ForSome (F.told files.old) (λ file.
        header_of (lines (file form.now.file.now)) ≡ Ok tables.now.plan.names →
        rules_at file form.now.times.now form.now.intergreens.now (plan_of_names tables.now.plan.names) ≡ Ok (rules_by_tables tables.now) →
        left_told record.old (file form.now.file.now) ≡ record_told tables.now.plan.names (file form.now.file.now) →
        IsAnswered (asked_in form.now) file result (O.taken out.old) (O.taken out.new)) }
    ensures unwritten { IfErr result (λ stop. (stop ≡ RecordStop.Judge JudgeStop.WriteFault → ⊥) → out.new ≡ out.old) }
    ensures contents_stay { F.told files.new ≡ F.told files.old }
    ensures later { F.faults files.old ≤ F.faults files.new }
    ensures read { IsReadFault result → Rose (F.faults files.old) (F.faults files.new) }
    ensures write { IsWriteFault result → Rose (O.faults out.old) (O.faults out.new) }
{
    let gathered = match gather_record(alloc, tables.plan.groups(), record, form.file, files) {
        Ok(gathered) => gathered,
        Err(stop) => return Err(stop),
    };
    match write_gathered(tables, form.csv, &gathered, out) {
        Ok(()) => Ok(false),
        Err(stop) => Err(stop),
    }
}

// Does the task with a record and its tables, and tells whether there are breaches.
fn do_task<'a, F: Files, O: Sink>(
    alloc: Global,
    tables: &RecordTables,
    record: &mut TenthRecord,
    form: &RecordForm<'a>,
    files: &mut F,
    out: &mut O,
) -> Result<bool, RecordStop<'a>>
    requires times { length tables.now.times ≡ groups_in tables.now.plan }
    requires intergreens { tables.now.intergreens.count ≡ groups_in tables.now.plan }
    requires groups { groups_of record.old ≡ groups_in tables.now.plan }
    requires task { IsTask form.now.task }
    requires live { is_live record.old ≡ true }
    requires none { first_of record.old ≡ None }
    requires start { next_of record.old ≡ 0 }
    requires name { name_of record.old ≡ form.now.file.now }
    ensures done { ForSome (F.told files.old) (λ file.
        header_of (lines (file form.now.file.now)) ≡ Ok tables.now.plan.names →
        rules_at file form.now.times.now form.now.intergreens.now (plan_of_names tables.now.plan.names) ≡ Ok (rules_by_tables tables.now) →
        left_told record.old (file form.now.file.now) ≡ record_told tables.now.plan.names (file form.now.file.now) →
        IsAnswered (asked_in form.now) file result (O.taken out.old) (O.taken out.new)) }
    ensures unwritten { IfErr result (λ stop. (stop ≡ RecordStop.Judge JudgeStop.WriteFault → ⊥) → out.new ≡ out.old) }
    ensures contents_stay { F.told files.new ≡ F.told files.old }
    ensures later { F.faults files.old ≤ F.faults files.new }
    ensures read { IsReadFault result → Rose (F.faults files.old) (F.faults files.new) }
    ensures write { IsWriteFault result → Rose (O.faults out.old) (O.faults out.new) }
{
    match form.task {
        Task::Breaches { tolerance } => {
            judge_record(alloc, tables, record, form, tolerance, files, out)
        }
        Task::Protocol => tell_record(alloc, tables, record, form, files, out),
    }
}

// Does what is asked for, and tells whether there are breaches.
fn do_form<'a, F: Files, O: Sink>(
    alloc: Global,
    form: &RecordForm<'a>,
    files: &mut F,
    out: &mut O,
) -> Result<bool, RecordStop<'a>>
    requires task { IsTask form.now.task }
    ensures answered { ForSome (F.told files.old) (λ file.
        IsAnswered (asked_in form.now) file result (O.taken out.old) (O.taken out.new)) }
    ensures unwritten { IfErr result (λ stop. (stop ≡ RecordStop.Judge JudgeStop.WriteFault → ⊥) → out.new ≡ out.old) }
    ensures contents_stay { F.told files.new ≡ F.told files.old }
    ensures read { IsReadFault result → Rose (F.faults files.old) (F.faults files.new) }
    ensures write { IsWriteFault result → Rose (O.faults out.old) (O.faults out.new) }
{
    let (mut record, plan) = match TenthRecord::open(alloc, form.file, files) {
        Ok(opened) => opened,
        Err(stop) => return Err(stop_of(form.file, stop)),
    };
    let tables = match take_tables(alloc, plan, form.times, form.intergreens, files) {
        Ok(tables) => tables,
        Err(stop) => return Err(RecordStop::Judge(JudgeStop::Site(stop))),
    };
    do_task(alloc, &tables, &mut record, form, files, out)
}

// How a call ended that was done.
fn done_with(broken: bool) -> Status
    ensures { result ≡ done_with broken }
{
    if broken { Status::Broken } else { Status::Done }
}

/// Does what the words `breaches RECORD TIMES INTERGREENS [--amber-tolerance N] [--csv]` or
/// `protocol RECORD TIMES INTERGREENS [--csv]` say, and tells in a note why it stopped where it did.
///
/// It writes each breach of the record by the tables, or what came in it beside what they say; in words, or as a table with
/// `--csv`. The first line of the record, the times, the intergreens and the other lines of the record are read one after the
/// other, to the end, before the first byte is written; nothing is written where one is refused. No file is touched where the
/// words are no form.
pub fn report_record<F: Files, O: Sink, N: Sink>(
    alloc: Global,
    words: &[String],
    files: &mut F,
    out: &mut O,
    notes: &mut N,
) -> Status
    ensures reported { IsReported (map string_bytes words.now)
        (seen (F.told files.old) (F.told files.new) (F.faults files.old) (F.faults files.new))
        (seen (O.taken out.old) (O.taken out.new) (O.faults out.old) (O.faults out.new))
        (seen (N.taken notes.old) (N.taken notes.new) (N.faults notes.old) (N.faults notes.new))
        result }
    ensures unread { form_of (map string_bytes words.now) ≡ None → files.new ≡ files.old }
    ensures unwritten { (result ≡ Status.Done → ⊥) → (result ≡ Status.Broken → ⊥) → (result ≡ Status.WriteFault → ⊥) → out.new ≡ out.old }
    ensures contents_stay { F.told files.new ≡ F.told files.old }
{
    let Some(form) = form_of(words) else {
        write_note(&RecordStop::Judge(JudgeStop::Words), notes);
        return Status::Words;
    };
    match do_form(alloc, &form, files, out) {
        Ok(broken) => done_with(broken),
        Err(stop) => {
            write_note(&stop, notes);
            ended_with(&stop)
        }
    }
}
