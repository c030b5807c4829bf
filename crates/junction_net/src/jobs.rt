// The runs of the junctions of a list, beside each other.
ghost use Rattle.std.specs.Prelude.{◌≡◌, ◌<◌, ◌≤◌, All, IfOk, length, true};
ghost use Rattle.junction_net.specs.Jobs.{HasAnswered, HaveRun, IsReady, Ran};
ghost use Rattle.junction_net.specs.Rows.{words_in};

use crate::rows::Names;
use junction_run::{Status, junction};
use sig_io::{Gate, GrowSink, SureFiles};
use std::alloc::{AllocError, Global};
use std::thread;
use std::thread::Threads;

const RUN: &str = "run";

/// A junction of the list: the words of its run, the files that were read for it, and what its run wrote and answered.
#[derive(Drop)]
pub(crate) struct Job {
    pub(crate) words: Vec<String>,
    pub(crate) files: SureFiles,
    pub(crate) log: GrowSink,
    pub(crate) note: GrowSink,
    /// What the run answered; want of memory before it.
    pub(crate) status: Status,
}

/// The job of a junction over its files, before its run.
pub(crate) fn job_of(alloc: Global, names: &Names, files: SureFiles) -> Result<Job, AllocError>
    ensures ready { IfOk result (λ job. IsReady (words_in names.now) job) }
    ensures files { IfOk result (λ job. job.files ≡ files) }
{
    let words = Vec::from_array(
        alloc,
        [
            String::from_str(alloc, RUN)?,
            names.program.clone()?,
            names.plan.clone()?,
            names.times.clone()?,
            names.intergreens.clone()?,
            names.detectors.clone()?,
        ],
    )?;
    Ok(Job {
        words,
        files,
        log: GrowSink::new(alloc),
        note: GrowSink::new(alloc),
        status: Status::Memory,
    })
}

// Runs a junction over its own files.
fn run_job<G: Gate>(alloc: Global, number: u8, job: &mut Job, gate: &G)
    ensures { Ran job.old job.new }
{
    gate.pass(number, 0);
    job.status = junction(
        alloc,
        &job.words,
        &mut job.files,
        &mut job.log,
        &mut job.note,
    );
}

/// Runs each junction over its own files, in a thread of its own where one can be had; where none can be had they run one after
/// the other.
pub(crate) fn run_jobs<R: Threads + Sync, G: Gate>(
    rt: &R,
    alloc: Global,
    jobs: &mut [Job],
    gate: &G,
)
    requires { length jobs.old ≤ 16 }
    ensures ran { HaveRun jobs.old jobs.new }
    ensures count { length jobs.new ≡ length jobs.old }
{
    let one = |k: usize, job: &mut Job|
        requires { k < 16 }
        ensures { Ran job.entry.now job.exit.now }
    { run_job(alloc, k as u8 + 1, job, gate) };
    thread::for_each_mut(rt, jobs, 16, &one);
}

// Whether a run came to its end, with its note taken whole. Over files that were read whole, all else is want of memory.
fn has_answered(job: &Job) -> bool
    ensures { result ≡ true → HasAnswered job.now }
{
    match job.status {
        Status::Done | Status::RefusedFile | Status::RefusedLine => !job.note.has_failed(),
        Status::Memory | Status::Words | Status::ReadFault | Status::WriteFault | Status::TooLong =>
            false,
    }
}

/// Whether all runs came to their end, with their notes taken whole.
pub(crate) fn have_answered(jobs: &[Job]) -> bool
    ensures { result ≡ true → All HasAnswered jobs.now }
{
    for job in jobs {
        if !has_answered(job) {
            return false;
        }
    }
    true
}
