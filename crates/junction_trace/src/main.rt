//! Tells what a program does inside: its `values` in each second of a run, `how-ended` each stage, which of its `lines` ran,
//! all that one `second` did, and what its `TRACE` statements print.
#![tactic(auto)]

use form_help::{TraceForm, help_asked, trace_form, trace_line, trace_more};
use junction_run::{LoadStop, PlayStop, Status, Stop as RunStop, exit_status};
use sig_io::{DiskFiles, ErrSink, Files, OutSink, Sink, put_each, words_of};
use std::alloc::Global;
use std::env;
use std::process::ExitCode;
use trace_call::{KeptFiles, Stop, trace, write_stop};

// Writes the help of a form where the words ask for it; None where they don't.
fn tell_help<O: Sink, N: Sink>(words: &[String], out: &mut O, notes: &mut N) -> Option<Status> {
    let form = trace_form(help_asked(words)?)?;
    match put_each(out, &[trace_line(form), b"\n", trace_more(form)]) {
        Ok(()) => Some(Status::Done),
        Err(_fault) => {
            write_stop(&Stop::Run(RunStop::Play(PlayStop::WriteFault)), notes);
            Some(Status::WriteFault)
        }
    }
}

// Whether words behind the files are names alone. Then the program doesn't have one of them, as its note has told.
fn are_names(form: TraceForm, words: &[String]) -> bool {
    let [_, _, _, _, _, _, names @ ..] = words else {
        return false;
    };
    for name in names {
        if name.as_str() == "--from" || name.as_str() == "--to" {
            return false;
        }
    }
    form == TraceForm::Values
}

// Tells below the note on words that are no form how the form is written that they begin.
fn tell_form<N: Sink>(words: &[String], notes: &mut N) {
    let begun = match words.first() {
        Some(word) => trace_form(word.as_str()),
        None => None,
    };
    let _fault = match begun {
        Some(form) if are_names(form, words) => Ok(()),
        Some(form) => put_each(notes, &[b"  ", trace_line(form), b"\n"]),
        None => put_each(notes, &[b"  see junction_trace --help\n"]),
    };
}

// Does what the words ask for. The plan, the times and the intergreens are kept as they are read, so that further runs of the
// same site read none of them once more.
fn answer<F: Files + Drop, O: Sink, N: Sink>(
    alloc: Global,
    words: &[String],
    files: F,
    out: &mut O,
    notes: &mut N,
) -> Status {
    if let Some(status) = tell_help(words, out, notes) {
        return status;
    }
    let (plan, times, intergreens) = match words {
        [_, _, plan, times, intergreens, ..] => {
            (plan.as_str(), times.as_str(), intergreens.as_str())
        }
        _ => ("", "", ""),
    };
    let mut kept = KeptFiles::new(alloc, files, plan, times, intergreens);
    let status = trace(alloc, words, &mut kept, out, notes);
    if status == Status::Words {
        tell_form(words, notes);
    }
    status
}

fn main(rt: HostRuntime) -> ExitCode {
    let alloc = rt.alloc();
    let stdout = rt.stdout();
    let stderr = rt.stderr();
    let files = DiskFiles::new(&rt);
    let mut out = OutSink::new(&stdout);
    let mut notes = ErrSink::new(&stderr);
    let status = match words_of(alloc, env::args(&rt)) {
        Ok(words) => answer(alloc, &words, files, &mut out, &mut notes),
        Err(_) => {
            write_stop(&Stop::Run(RunStop::Load(LoadStop::Memory)), &mut notes);
            Status::Memory
        }
    };
    ExitCode::from(exit_status(status))
}
