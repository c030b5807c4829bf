// What the runs of the junctions answered, written.
ghost use Rattle.std.specs.Prelude.{◌≡◌, ◌≤◌, ℕ, OnOk, OnErr, length, map};
ghost use Rattle.std.specs.Io.KnownBytes.{append_known};
ghost use Rattle.sig_io.specs.Draft.{IsCut};
ghost use Rattle.sig_io.specs.Outside.{HasCause, Rose};
ghost use Rattle.junction_net.specs.Jobs.{result_of};
ghost use Rattle.junction_net.specs.Results.{job_text, net_notes, net_text};

use crate::jobs::Job;
use itoa::Buffer;
use junction_run::exit_status;
use sig_io::{Failed, Sink, put_all, put_each};

// Gives the sink the line of a junction and its log, up to a fault.
fn put_job<O: Sink>(number: u8, job: &Job, out: &mut O) -> Result<(), Failed>
    ensures ok { OnOk result (O.taken out.new ≡ append_known (O.taken out.old) (job_text number (result_of job.now))) }
    ensures fault { OnErr result ((n : ℕ) × IsCut (O.taken out.old) (O.taken out.new) n (job_text number (result_of job.now))) }
    ensures cause { HasCause (O.faults out.old) (O.faults out.new) result }
{
    let mut digits = Buffer::new();
    let mut digit = Buffer::new();
    let head: &[u8] = b"JUNCTION ";
    let blank: &[u8] = b" ";
    let end: &[u8] = b"\n";
    let pieces: [&[u8]; 6] = [
        head,
        digits.format(number).as_bytes(),
        blank,
        digit.format(exit_status(job.status)).as_bytes(),
        end,
        job.log.bytes(),
    ];
    put_each(out, &pieces)
}

/// Gives the sink the lines and logs of the junctions in the order of the list, up to a fault.
pub(crate) fn put_jobs<O: Sink>(jobs: &[Job], out: &mut O) -> Result<(), Failed>
    requires { length jobs.now ≤ 16 }
    ensures ok { OnOk result (O.taken out.new ≡ append_known (O.taken out.old) (net_text (map result_of jobs.now))) }
    ensures fault { OnErr result ((n : ℕ) × IsCut (O.taken out.old) (O.taken out.new) n (net_text (map result_of jobs.now))) }
    ensures cause { HasCause (O.faults out.old) (O.faults out.new) result }
{
    let mut number = 0;
    for job in jobs {
        number += 1;
        match put_job(number, job, out) {
            Ok(()) => {}
            Err(_) => return Err(Failed),
        }
    }
    Ok(())
}

/// Gives the sink the notes of the junctions in the order of the list, up to a fault, which changes nothing else.
pub(crate) fn write_notes<N: Sink>(jobs: &[Job], notes: &mut N)
    ensures notes { (Rose (N.faults notes.old) (N.faults notes.new) → ⊥) →
        N.taken notes.new ≡ append_known (N.taken notes.old) (net_notes (map result_of jobs.now)) }
{
    for job in jobs {
        if put_all(notes, job.note.bytes()).is_err() {
            return;
        }
    }
}
