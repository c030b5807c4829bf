// The call.
ghost use Rattle.std.specs.Prelude.{◌≡◌, ◌≤◌, ◌⊎◌, None, Some, Option, Err, IfErr, OnErr, length, map, string_bytes};
ghost use Rattle.std.specs.Option.{ForSome};
ghost use Rattle.sig_io.specs.Draft.{Puts};
ghost use Rattle.sig_io.specs.Outside.{Rose};
ghost use Rattle.sig_io.specs.Seen.{seen};
ghost use Rattle.report_seen.specs.DiagramCall.{IsWritten};
ghost use Rattle.sums_text.specs.Parts.{AreAllTextual};
ghost use Rattle.sums_text.specs.Words.{AreTextual};
ghost use Rattle.report_seen.specs.SumsForm.{HasSeconds, asked_in, form_of};
ghost use Rattle.report_seen.specs.SumsCall.{IsAnswered, IsReported, written_parts, written_text};

use crate::end::end;
use crate::parting::add_up_parts;
use crate::serve::serves_for;
use crate::stop::{Status, Stop, status_of, stop_of, write_stop};
use crate::summing::add_up;
use crate::sums_form::{SumsForm, form_of};
use log_read::{Begin, LogRecords};
use log_sums::LogSums;
use sig_io::{Draft, Files, Sink};
use sig_types::ShortName;
use std::alloc::Global;
use sums_text::{put_parts, put_parts_table, put_sums, put_table};

// Puts sums, of groups with these names, as a table or as lines.
fn put_asked<O: Sink>(
    draft: &mut Draft,
    sink: &mut O,
    csv: bool,
    names: &[ShortName],
    sums: &LogSums,
)
    requires { AreTextual (length names.now) sums.now }
    ensures { Puts O.taken O.faults draft.old draft.new sink.old sink.new (written_text csv names.now sums.now) }
{
    if csv {
        put_table(draft, sink, names, sums);
    } else {
        put_sums(draft, sink, names, sums);
    }
}

// Writes sums, of groups with these names, as a table or as lines.
fn write_sums<O: Sink>(
    csv: bool,
    names: &[ShortName],
    sums: &LogSums,
    out: &mut O,
) -> Result<(), Stop>
    requires { AreTextual (length names.now) sums.now }
    ensures written { IsWritten (written_text csv names.now sums.now) result (O.taken out.old) (O.taken out.new) }
    ensures stop { IfErr result (λ stop. stop ≡ Stop.WriteFault) }
    ensures cause { OnErr result (Rose (O.faults out.old) (O.faults out.new)) }
{
    let mut draft = Draft::new();
    put_asked(&mut draft, out, csv, names, sums);
    end(draft, out)
}

// Puts the sums of parts, of groups with these names, as a table or as lines.
fn put_asked_parts<O: Sink>(
    draft: &mut Draft,
    sink: &mut O,
    csv: bool,
    names: &[ShortName],
    parts: &[LogSums],
)
    requires { AreAllTextual (length names.now) parts.now }
    ensures { Puts O.taken O.faults draft.old draft.new sink.old sink.new (written_parts csv names.now parts.now) }
{
    if csv {
        put_parts_table(draft, sink, names, parts);
    } else {
        put_parts(draft, sink, names, parts);
    }
}

// Writes the sums of parts, of groups with these names, as a table or as lines.
fn write_parts<O: Sink>(
    csv: bool,
    names: &[ShortName],
    parts: &[LogSums],
    out: &mut O,
) -> Result<(), Stop>
    requires { AreAllTextual (length names.now) parts.now }
    ensures written { IsWritten (written_parts csv names.now parts.now) result (O.taken out.old) (O.taken out.new) }
    ensures stop { IfErr result (λ stop. stop ≡ Stop.WriteFault) }
    ensures cause { OnErr result (Rose (O.faults out.old) (O.faults out.new)) }
{
    let mut draft = Draft::new();
    put_asked_parts(&mut draft, out, csv, names, parts);
    end(draft, out)
}

// Does what is asked for of the whole log, or of some seconds.
fn do_whole<F: Files, O: Sink>(
    alloc: Global,
    form: &SumsForm<'_>,
    files: &mut F,
    out: &mut O,
) -> Result<(), Stop>
    requires { form.now.each ≡ None }
    ensures answered { ForSome (F.told files.old) (λ file.
        IsAnswered (asked_in form.now) file result (O.taken out.old) (O.taken out.new)) }
    ensures unwritten { IfErr result (λ stop. (stop ≡ Stop.WriteFault → ⊥) → out.new ≡ out.old) }
    ensures contents_stay { F.told files.new ≡ F.told files.old }
    ensures read { result ≡ Err Stop.ReadFault → Rose (F.faults files.old) (F.faults files.new) }
    ensures write { result ≡ Err Stop.WriteFault → Rose (O.faults out.old) (O.faults out.new) }
{
    let mut records = match LogRecords::open(alloc, files, form.log, Begin::AtOne) {
        Ok(records) => records,
        Err(stop) => return Err(stop_of(stop)),
    };
    let serves = match serves_for(alloc, records.names(), form.serves) {
        Ok(serves) => serves,
        Err(stop) => return Err(stop),
    };
    match add_up(alloc, &mut records, form.from, form.to, &serves, files) {
        Ok(sums) => write_sums(form.csv, records.names(), &sums, out),
        Err(stop) => Err(stop),
    }
}

// Does what is asked for of parts of so many seconds.
fn do_parts<F: Files, O: Sink>(
    alloc: Global,
    form: &SumsForm<'_>,
    each: u32,
    files: &mut F,
    out: &mut O,
) -> Result<(), Stop>
    requires each { form.now.each ≡ Some each }
    requires some { 1 ≤ each }
    ensures answered { ForSome (F.told files.old) (λ file.
        IsAnswered (asked_in form.now) file result (O.taken out.old) (O.taken out.new)) }
    ensures unwritten { IfErr result (λ stop. (stop ≡ Stop.WriteFault → ⊥) → out.new ≡ out.old) }
    ensures contents_stay { F.told files.new ≡ F.told files.old }
    ensures read { result ≡ Err Stop.ReadFault → Rose (F.faults files.old) (F.faults files.new) }
    ensures write { result ≡ Err Stop.WriteFault → Rose (O.faults out.old) (O.faults out.new) }
{
    let mut records = match LogRecords::open(alloc, files, form.log, Begin::AtOne) {
        Ok(records) => records,
        Err(stop) => return Err(stop_of(stop)),
    };
    let serves = match serves_for(alloc, records.names(), form.serves) {
        Ok(serves) => serves,
        Err(stop) => return Err(stop),
    };
    match add_up_parts(
        alloc,
        &mut records,
        form.from,
        each,
        form.to,
        &serves,
        files,
    ) {
        Ok(parts) => write_parts(form.csv, records.names(), &parts, out),
        Err(stop) => Err(stop),
    }
}

// Does what is asked for.
fn do_form<F: Files, O: Sink>(
    alloc: Global,
    form: &SumsForm<'_>,
    files: &mut F,
    out: &mut O,
) -> Result<(), Stop>
    requires { HasSeconds form.now.each }
    ensures answered { ForSome (F.told files.old) (λ file.
        IsAnswered (asked_in form.now) file result (O.taken out.old) (O.taken out.new)) }
    ensures unwritten { IfErr result (λ stop. (stop ≡ Stop.WriteFault → ⊥) → out.new ≡ out.old) }
    ensures contents_stay { F.told files.new ≡ F.told files.old }
    ensures read { result ≡ Err Stop.ReadFault → Rose (F.faults files.old) (F.faults files.new) }
    ensures write { result ≡ Err Stop.WriteFault → Rose (O.faults out.old) (O.faults out.new) }
{
    match form.each {
        Some(each) => do_parts(alloc, form, each, files, out),
        None => do_whole(alloc, form, files, out),
    }
}

/// Does what the words `sums LOG [FROM TO] [--each SECONDS] [--serves DETECTORS:GROUP] [--csv]` say, and tells in a note why it
/// stopped where it did.
///
/// It writes what groups, stages, refusals, faults and detectors of a log add up to, in all its seconds or in those from FROM to
/// TO, or in each part of these that has so many seconds, and what detectors saw that serve a group, line by line, or as a table
/// with a row for each number. The log is read to its end before the first byte is written; nothing is written where it is refused.
/// No file is touched where the words are no form.
pub fn report_sums<F: Files, O: Sink, N: Sink>(
    alloc: Global,
    words: &[String],
    files: &mut F,
    out: &mut O,
    notes: &mut N,
) -> Status
    ensures reported { IsReported (map string_bytes words.now)
        (seen (F.told files.old) (F.told files.new) (F.faults files.old) (F.faults files.new))
        (seen (O.taken out.old) (O.taken out.new) (O.faults out.old) (O.faults out.new))
        (seen (N.taken notes.old) (N.taken notes.new) (N.faults notes.old) (N.faults notes.new))
        result }
    ensures unread { form_of (map string_bytes words.now) ≡ None → files.new ≡ files.old }
    ensures unwritten { (result ≡ Status.Done → ⊥) → (result ≡ Status.WriteFault → ⊥) → out.new ≡ out.old }
    ensures contents_stay { F.told files.new ≡ F.told files.old }
{
    let Some(form) = form_of(words) else {
        write_stop(notes, words, &Stop::Words);
        return Status::Words;
    };
    match do_form(alloc, &form, files, out) {
        Ok(()) => Status::Done,
        Err(stop) => {
            write_stop(notes, words, &stop);
            status_of(&stop)
        }
    }
}
