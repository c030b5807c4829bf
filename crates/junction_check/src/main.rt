//! Checks the files of a junction before they are run: for each file its first refusal, and warnings for what a run accepts in
//! silence.
//!
//! Its exit status is the number of the `CheckStatus` that `check_junction` answers, or of `Memory` where the words can't be
//! had, which is noted.
#![tactic(auto)]

use sig_io::{DiskFiles, ErrSink, OutSink, words_of};
use site_check::{check_junction, check_status, refuse_for_memory};
use std::env;
use std::process::ExitCode;

fn main(rt: HostRuntime) -> ExitCode {
    let alloc = rt.alloc();
    let stdout = rt.stdout();
    let stderr = rt.stderr();
    let mut files = DiskFiles::new(&rt);
    let mut out = OutSink::new(&stdout);
    let mut notes = ErrSink::new(&stderr);
    let status = match words_of(alloc, env::args(&rt)) {
        Ok(words) => check_junction(alloc, &words, &mut files, &mut out, &mut notes),
        Err(_) => refuse_for_memory(&mut notes),
    };
    ExitCode::from(check_status(status))
}
