// The programs whose calls the cases make. Nothing else here knows them.
use crate::driven::tell_driven;
use junction_live::{begins_live, live};
use junction_net::{begins_net, net};
use junction_run::{Status, junction};
use report_judged::{has_site, report_breaches, report_protocol, report_refusals, report_site};
use report_seen::{lost_form, report, report_compare, report_lost, report_sums};
use sig_io::{Files, FreeGate, GrowSink, Sink, put_all};
use site_check::{check_junction, check_status};
use std::alloc::Global;
use std::thread::Threads;
use tenth_report::{is_record_call, report_record};
use test_calls::logs::tells_log;
use trace_call::trace;

// Whether the form of this word takes a record in tenths too.
fn has_record_form(word: &str) -> bool {
    word == "breaches" || word == "protocol"
}

// The exit status of a call of `log_report`.
fn report_log<F: Files, O: Sink, N: Sink>(
    alloc: Global,
    words: &[String],
    files: &mut F,
    out: &mut O,
    notes: &mut N,
) -> u8 {
    match words.first() {
        Some(_) if lost_form(words).is_some() => {
            report_seen::exit_status(report_lost(alloc, words, files, out, notes))
        }
        Some(word) if word.as_str() == "sums" => {
            report_seen::exit_status(report_sums(alloc, words, files, out, notes))
        }
        Some(word) if has_record_form(word) && is_record_call(words) => {
            report_words::exit_status(report_record(alloc, words, files, out, notes))
        }
        Some(word) if word.as_str() == "breaches" => {
            report_words::exit_status(report_breaches(alloc, words, files, out, notes))
        }
        Some(word) if word.as_str() == "protocol" => {
            report_words::exit_status(report_protocol(alloc, words, files, out, notes))
        }
        Some(word) if word.as_str() == "refusals" => {
            report_words::exit_status(report_refusals(alloc, words, files, out, notes))
        }
        Some(word) if word.as_str() == "compare" => {
            report_words::exit_status(report_compare(alloc, words, files, out, notes))
        }
        _ if has_site(words) => {
            report_words::exit_status(report_site(alloc, words, files, out, notes))
        }
        _ => report_seen::exit_status(report(alloc, words, files, out, notes)),
    }
}

// The exit status of a comparison of a log with what the calls of the library add up to.
fn compare_calls<F: Files>(alloc: Global, names: &[String], files: &mut F) -> u8 {
    junction_run::exit_status(match tells_log(alloc, names, files) {
        Ok(true) => Status::Done,
        Ok(false) | Err(_) => Status::RefusedFile,
    })
}

// The exit status of seconds that a caller decides, whose log and masks are written.
fn drive_calls<F: Files, O: Sink>(
    alloc: Global,
    names: &[String],
    files: &mut F,
    out: &mut O,
) -> u8 {
    let mut told = GrowSink::new(alloc);
    let status = match tell_driven(alloc, names, files, &mut told) {
        Ok(true) => Status::Done,
        Ok(false) | Err(_) => Status::RefusedFile,
    };
    let _put = put_all(out, told.bytes());
    junction_run::exit_status(status)
}

// The status of a call of `junction`.
fn run_junction<R: Threads + Sync, F: Files, O: Sink + Send, N: Sink>(
    threads: &R,
    alloc: Global,
    words: &[String],
    files: &mut F,
    out: &mut O,
    notes: &mut N,
) -> Status {
    if begins_live(words) {
        live(threads, alloc, words, files, out, notes, &FreeGate)
    } else if begins_net(words) {
        net(threads, alloc, words, files, out, notes, &FreeGate)
    } else {
        junction(alloc, words, files, out, notes)
    }
}

/// The exit status of a call with these words.
pub fn call<R: Threads + Sync, F: Files, O: Sink + Send, N: Sink>(
    threads: &R,
    alloc: Global,
    words: &[String],
    files: &mut F,
    out: &mut O,
    notes: &mut N,
) -> u8 {
    match words {
        [first, site @ ..] if first.as_str() == "check" => {
            check_status(check_junction(alloc, site, files, out, notes))
        }
        [first, asked @ ..] if first.as_str() == "report" => {
            report_log(alloc, asked, files, out, notes)
        }
        [first, asked @ ..] if first.as_str() == "trace" => {
            junction_run::exit_status(trace(alloc, asked, files, out, notes))
        }
        [first, names @ ..] if first.as_str() == "calls" => compare_calls(alloc, names, files),
        [first, names @ ..] if first.as_str() == "driven" => drive_calls(alloc, names, files, out),
        [first, asked @ ..] if first.as_str() == "by_live" => {
            junction_run::exit_status(live(threads, alloc, asked, files, out, notes, &FreeGate))
        }
        [first, asked @ ..] if first.as_str() == "by_net" => {
            junction_run::exit_status(net(threads, alloc, asked, files, out, notes, &FreeGate))
        }
        _ => junction_run::exit_status(run_junction(threads, alloc, words, files, out, notes)),
    }
}
