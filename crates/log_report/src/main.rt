//! Draws, sums, compares and judges logs: `diagram LOG FROM TO` writes an SVG signal timing diagram of these seconds, `text LOG FROM TO` the
//! same as characters, `sums LOG [FROM TO]` what groups, stages, refusals, faults and detectors add up to, and with `--lost` which starts
//! were asked for and lost, `compare LOG LOG` where
//! two logs differ first and the sums of both, `breaches LOG PUA TIMES INTERGREENS` what the log of any controller breaks of the rules of a junction,
//! `protocol LOG PUA TIMES INTERGREENS` what came in it, `breaches` and `protocol` with `RECORD TIMES INTERGREENS` the same of a record
//! in tenths of a second, and `refusals LOG PUA TIMES INTERGREENS` why commands and turns were
//! refused.
#![tactic(auto)]

use form_help::{ReportForm, help_asked, report_form, report_line, report_more};
use report_judged::{has_site, report_breaches, report_protocol, report_refusals, report_site};
use report_seen::{
    Status, Stop, exit_status, lost_form, report, report_compare, report_lost, report_sums,
    write_stop,
};
use sig_io::{DiskFiles, ErrSink, Files, OutSink, Sink, put_each, words_of};
use std::alloc::Global;
use std::env;
use std::process::ExitCode;
use tenth_report::{is_record_call, report_record};

// Writes the help of a form where the words ask for it, and answers the exit status; None where they don't.
fn tell_help<O: Sink, N: Sink>(words: &[String], out: &mut O, notes: &mut N) -> Option<u8> {
    let form = report_form(help_asked(words)?)?;
    match put_each(out, &[report_line(form), b"\n", report_more(form)]) {
        Ok(()) => Some(exit_status(Status::Done)),
        Err(_fault) => {
            write_stop(notes, words, &Stop::WriteFault);
            Some(exit_status(Status::WriteFault))
        }
    }
}

// The exit status of a call whose note on words that are no form doesn't tell how its form is written: that is told here, in a
// line below the note.
fn end_judged<N: Sink>(form: ReportForm, status: report_words::Status, notes: &mut N) -> u8 {
    if status == report_words::Status::Words {
        let _fault = put_each(notes, &[b"  ", report_line(form), b"\n"]);
    }
    report_words::exit_status(status)
}

// Whether the form of this word takes a record in tenths too.
fn has_record_form(word: &str) -> bool {
    word == "breaches" || word == "protocol"
}

// Does what the words ask for, and answers the exit status.
fn answer<F: Files, O: Sink, N: Sink>(
    alloc: Global,
    words: &[String],
    files: &mut F,
    out: &mut O,
    notes: &mut N,
) -> u8 {
    if let Some(status) = tell_help(words, out, notes) {
        return status;
    }
    match words.first() {
        Some(_) if lost_form(words).is_some() => {
            exit_status(report_lost(alloc, words, files, out, notes))
        }
        Some(word) if word.as_str() == "sums" => {
            exit_status(report_sums(alloc, words, files, out, notes))
        }
        Some(word) if has_record_form(word) && is_record_call(words) => {
            report_words::exit_status(report_record(alloc, words, files, out, notes))
        }
        Some(word) if word.as_str() == "breaches" => {
            let status = report_breaches(alloc, words, files, out, notes);
            end_judged(ReportForm::Breaches, status, notes)
        }
        Some(word) if word.as_str() == "protocol" => {
            let status = report_protocol(alloc, words, files, out, notes);
            end_judged(ReportForm::Protocol, status, notes)
        }
        Some(word) if word.as_str() == "refusals" => {
            let status = report_refusals(alloc, words, files, out, notes);
            end_judged(ReportForm::Refusals, status, notes)
        }
        Some(word) if word.as_str() == "compare" => {
            let status = report_compare(alloc, words, files, out, notes);
            end_judged(ReportForm::Compare, status, notes)
        }
        _ if has_site(words) => {
            report_words::exit_status(report_site(alloc, words, files, out, notes))
        }
        _ => exit_status(report(alloc, words, files, out, notes)),
    }
}

fn main(rt: HostRuntime) -> ExitCode {
    let alloc = rt.alloc();
    let stdout = rt.stdout();
    let stderr = rt.stderr();
    let mut files = DiskFiles::new(&rt);
    let mut out = OutSink::new(&stdout);
    let mut notes = ErrSink::new(&stderr);
    let status = match words_of(alloc, env::args(&rt)) {
        Ok(words) => answer(alloc, &words, &mut files, &mut out, &mut notes),
        Err(_) => {
            write_stop(&mut notes, &[], &Stop::Memory);
            exit_status(Status::Memory)
        }
    };
    ExitCode::from(status)
}
