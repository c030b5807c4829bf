//! A traffic signal controller on the command line: what its words ask for, over the files of the system.
//!
//! Its exit status is the number of the `Status` that the top call `program` answers, or of `Memory` where the words can't be
//! had.
#![tactic(auto)]

mod top;

use junction_run::{LoadStop, Status, Stop, exit_status, write_stop};
use sig_io::{DiskFiles, ErrSink, FreeGate, OutSink, words_of};
use std::env;
use std::process::ExitCode;
use top::program;

fn main(rt: HostRuntime) -> ExitCode {
    let alloc = rt.alloc();
    let stdout = rt.stdout();
    let stderr = rt.stderr();
    let mut files = DiskFiles::new(&rt);
    let mut out = OutSink::new(&stdout);
    let mut notes = ErrSink::new(&stderr);
    let status = match words_of(alloc, env::args(&rt)) {
        Ok(words) => program(
            &rt, alloc, &words, &mut files, &mut out, &mut notes, &FreeGate,
        ),
        Err(_) => {
            write_stop(&Stop::Load(LoadStop::Memory), &mut notes);
            Status::Memory
        }
    };
    ExitCode::from(exit_status(status))
}
