//! Runs cases of whole calls: each has files, words, and what the call has to end with and to write.
//!
//! The words of this program name files of cases, which are read one after another; a word `=NAME` runs those cases alone whose
//! names begin so. `case` says what a file of cases holds. Each case has a line, `ok` and its name or what differs, and the last
//! line counts them. The exit status is 0 where none failed.
#![tactic(auto)]

mod call;
mod case;
mod driven;
mod faults;
mod foretold;
mod judge;
mod list;
mod masks;
mod programs;
mod second;
mod texts;
mod watched;

use case::{Case, read_cases};
use judge::is_met;
use sig_io::{DiskFiles, OutSink, put_all, read_whole};
use std::alloc::AllocError;
use std::env;
use std::process::ExitCode;
use std::thread::Threads;

// No file of cases has more bytes.
const MOST: usize = 1 << 20;

// Runs each case that is asked for, tells of it, and answers how many passed and how many failed.
fn run<R: Threads + Sync>(
    rt: &HostRuntime,
    threads: &R,
    cases: &[Case],
    only: &str,
    told: &mut String,
) -> Result<(u32, u32), AllocError> {
    let mut passed = 0u32;
    let mut failed = 0u32;
    let Some(mut base) = cases.first() else {
        return Ok((passed, failed));
    };
    for case in cases {
        if case.is_base {
            base = case;
        }
        if case.name.as_str().starts_with(only) {
            if is_met(rt, threads, base, case, told)? {
                passed = passed.saturating_add(1);
            } else {
                failed = failed.saturating_add(1);
            }
        }
    }
    Ok((passed, failed))
}

// Adds the cases of a file. Answers whether it could be read.
fn add_cases(rt: &HostRuntime, name: &str, cases: &mut Vec<Case>) -> Result<bool, AllocError> {
    let Ok(text) = read_whole(rt.alloc(), &mut DiskFiles::new(rt), name, MOST) else {
        return Ok(false);
    };
    read_cases(rt.alloc(), &text, cases)?;
    Ok(true)
}

// Adds the cases of the files that the words name. Answers the beginning of the names that are asked for, or None where a file
// can't be read, of which it tells.
fn read_all<'a>(
    rt: &HostRuntime,
    words: &'a [String],
    cases: &mut Vec<Case>,
    told: &mut String,
) -> Result<Option<&'a str>, AllocError> {
    let mut only = "";
    for word in words {
        match word.as_str().strip_prefix("=") {
            Some(name) => only = name,
            None => {
                if !add_cases(rt, word.as_str(), cases)? {
                    write!(told, "{word} can't be read\n")?;
                    return Ok(None);
                }
            }
        }
    }
    Ok(Some(only))
}

// Reads the cases of the files that the words name, and runs them. Answers whether none failed.
fn run_words<R: Threads + Sync>(
    rt: &HostRuntime,
    threads: &R,
    words: &[String],
    cases: &mut Vec<Case>,
    told: &mut String,
) -> Result<bool, AllocError> {
    let Some(only) = read_all(rt, words, cases, told)? else {
        return Ok(false);
    };
    let (passed, failed) = run(rt, threads, cases, only, told)?;
    write!(told, "{passed} passed, {failed} failed\n")?;
    Ok(failed == 0)
}

// Frees the words and the cases.
fn free_read(_words: Vec<String>, _cases: Vec<Case>) {}

// Runs the cases that the words of the program ask for. Answers whether none failed.
fn run_all<R: Threads + Sync>(
    rt: &HostRuntime,
    threads: &R,
    told: &mut String,
) -> Result<bool, AllocError> {
    let Ok(args) = env::args(rt) else {
        write!(told, "the words can't be read\n")?;
        return Ok(false);
    };
    let words: Vec<String> = args.skip(1).collect(rt.alloc())?;
    let mut cases = Vec::new(rt.alloc());
    let none_failed = run_words(rt, threads, &words, &mut cases, told);
    free_read(words, cases);
    none_failed
}

fn main(rt: HostRuntime) -> ExitCode {
    let stdout = rt.stdout();
    let mut told = String::new(rt.alloc());
    let are_met = run_all(&rt, &rt, &mut told);
    let put = put_all(&mut OutSink::new(&stdout), told.as_bytes());
    match (are_met, put) {
        (Ok(true), Ok(())) => ExitCode::from(0),
        _ => ExitCode::from(1),
    }
}
