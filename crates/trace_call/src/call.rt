// The top call.
ghost use Rattle.std.specs.Prelude.{◌≡◌, OnErr, map, string_bytes, IfErr, true, false, None};
ghost use Rattle.std.specs.Option.{ForSome};
ghost use Rattle.sig_io.specs.Draft.{Puts};
ghost use Rattle.sig_io.specs.Outside.{Rose};
ghost use Rattle.sig_io.specs.Seen.{seen};
ghost use Rattle.junction_run.specs.Answers.{may_write};
ghost use Rattle.junction_run.specs.Stop.{StopsWith};
ghost use Rattle.junction_run.specs.declared.status.Status.TheVariants as status;
ghost use Rattle.trace_call.specs.Call.{IsDone, IsTraced, usage_text, version_text};
ghost use Rattle.trace_call.specs.Form.{form_of};
ghost use Rattle.trace_call.specs.FormWords.{asked_in};
ghost use Rattle.trace_call.specs.Notes.{status_of};
ghost use Rattle.trace_call.specs.Written.{IsWritten};

use crate::end::end;
use crate::form::{Form, form_of};
use crate::how_ended::how_ended;
use crate::lines::lines;
use crate::prints::prints;
use crate::second::second;
use crate::stop::{Stop, status_of, write_stop};
use crate::values::values;
use junction_run::Status;
use sig_io::{Draft, Files, Sink, put_version};
use std::alloc::Global;

// Puts how it is called.
#[tactic(auto, unfolding(crate::specs::Call::usage_text))]
fn put_usage<O: Sink>(draft: &mut Draft, sink: &mut O)
    ensures { Puts O.taken O.faults draft.old draft.new sink.old sink.new usage_text }
{
    draft.put(
        sink,
        b"junction_trace values PROGRAM PUA TIMES INTERGREENS DETECTORS [NAME ..] [--from N] [--to N]\n",
    );
    draft.put(
        sink,
        b"    a table of the program's variables, timers and cells after each second, as CSV\n",
    );
    draft.put(
        sink,
        b"junction_trace how-ended PROGRAM PUA TIMES INTERGREENS DETECTORS [--csv]\n",
    );
    draft.put(
        sink,
        b"    for each end of a stage the line of the command that ended it, in words or as CSV\n",
    );
    draft.put(
        sink,
        b"junction_trace lines PROGRAM PUA TIMES INTERGREENS DETECTORS [--csv | --lcov] [--add DETECTORS ..]\n",
    );
    draft.put(
        sink,
        b"    how often its lines ran and its tests were answered: beside its text, as CSV or for lcov\n",
    );
    draft.put(
        sink,
        b"junction_trace second PROGRAM PUA TIMES INTERGREENS DETECTORS N\n",
    );
    draft.put(
        sink,
        b"    the listing of second N: what ran, was read, tested, assigned and commanded, in order\n",
    );
    draft.put(
        sink,
        b"junction_trace trace PROGRAM PUA TIMES INTERGREENS DETECTORS\n",
    );
    draft.put(
        sink,
        b"    what its TRACE statements print, a line for each call\n",
    );
    draft.put(
        sink,
        b"junction_trace --help | --version\n    this text; the version\n",
    );
}

// Writes how it is called.
fn write_usage<'a, O: Sink>(out: &mut O) -> Result<(), Stop<'a>>
    ensures written { IsWritten usage_text result (O.taken out.old) (O.taken out.new) }
    ensures cause { OnErr result (Rose (O.faults out.old) (O.faults out.new)) }
{
    let mut draft = Draft::new();
    put_usage(&mut draft, out);
    end(draft, out)
}

// Writes the version.
fn write_version<'a, O: Sink>(out: &mut O) -> Result<(), Stop<'a>>
    ensures written { IsWritten version_text result (O.taken out.old) (O.taken out.new) }
    ensures cause { OnErr result (Rose (O.faults out.old) (O.faults out.new)) }
{
    let mut draft = Draft::new();
    put_version(b"junction_trace", &mut draft, out);
    end(draft, out)
}

// Does what is asked for.
fn do_form<'a, F: Files, O: Sink>(
    alloc: Global,
    form: Form<'a>,
    files: &mut F,
    out: &mut O,
) -> Result<(), Stop<'a>>
    ensures done { ForSome (F.told files.old) (λ file.
        IsDone (asked_in form.entry) file result (O.taken out.old) (O.taken out.new)) }
    ensures unwritten { IfErr result (λ stop. may_write true (status_of stop) ≡ false → O.taken out.new ≡ O.taken out.old) }
    ensures contents_stay { F.told files.new ≡ F.told files.old }
    ensures read { StopsWith status_of status.ReadFault result → Rose (F.faults files.old) (F.faults files.new) }
    ensures write { StopsWith status_of status.WriteFault result → Rose (O.faults out.old) (O.faults out.new) }
{
    match form {
        Form::Help => write_usage(out),
        Form::Version => write_version(out),
        Form::Values { run, names, window } => values(alloc, run, names, window, files, out),
        Form::HowEnded { run, csv } => how_ended(alloc, run, csv, files, out),
        Form::Lines { run, style, added } => lines(alloc, run, style, added, files, out),
        Form::Second { run, second: n } => second(alloc, run, n, files, out),
        Form::Trace(run) => prints(alloc, run, files, out),
    }
}

/// Does what the words of the command line after the program's name say, and tells in a note why it stopped where it did.
///
/// - `values PROGRAM PUA TIMES INTERGREENS DETECTORS NAME .. --from N --to N` writes a table of the values that the names
///   choose, all where there are none, as each second from N to N leaves them. The files are read and judged as by
///   `junction run`, and then the names. All memory is taken before the first byte is written.
/// - `how-ended PROGRAM PUA TIMES INTERGREENS DETECTORS --csv` writes for each end of a stage in the run the line of the command
///   that ended it, in words where `--csv` is left out.
/// - `lines PROGRAM PUA TIMES INTERGREENS DETECTORS` writes how often the statements of each line of the program began and how
///   its tests were answered, once all seconds are made: beside the program's text, with `--csv` as a table, with `--lcov` as a
///   tracefile of LCOV. Behind these words each `--add DETECTORS` adds the counts of one more run.
/// - `second PROGRAM PUA TIMES INTERGREENS DETECTORS N` writes the listing of second N: what its pass did, in order, with what
///   became of each command, what the second changed, and its record; nothing where DETECTORS has fewer seconds.
/// - `trace PROGRAM PUA TIMES INTERGREENS DETECTORS` writes what the TRACE statements of the program print, a line for each call.
/// - `--help` and `--version` write how it is called, and the version.
///
/// No file is touched where the words are no form, and nothing is written before all files but those of detectors are accepted.
pub fn trace<F: Files, O: Sink, N: Sink>(
    alloc: Global,
    words: &[String],
    files: &mut F,
    out: &mut O,
    notes: &mut N,
) -> Status
    ensures traced { IsTraced (map string_bytes words.now)
        (seen (F.told files.old) (F.told files.new) (F.faults files.old) (F.faults files.new))
        (seen (O.taken out.old) (O.taken out.new) (O.faults out.old) (O.faults out.new))
        (seen (N.taken notes.old) (N.taken notes.new) (N.faults notes.old) (N.faults notes.new))
        result }
    ensures unread { form_of (map string_bytes words.now) ≡ None → files.new ≡ files.old }
    ensures unwritten { may_write true result ≡ false → O.taken out.new ≡ O.taken out.old }
    ensures contents_stay { F.told files.new ≡ F.told files.old }
{
    let form = match form_of(words) {
        Some(form) => form,
        None => {
            let stop = Stop::Words;
            write_stop(&stop, notes);
            return Status::Words;
        }
    };
    match do_form(alloc, form, files, out) {
        Ok(()) => Status::Done,
        Err(stop) => {
            write_stop(&stop, notes);
            status_of(&stop)
        }
    }
}
