// The call `net`, and what its parts answer.
ghost use Rattle.std.specs.Prelude.{◌≡◌, ◌≤◌, Err, Ok, IfErr, IfOk, false, map, string_bytes};
ghost use Rattle.std.specs.Option.{ForSome};
ghost use Rattle.std.specs.Io.KnownBytes.{append_known};
ghost use Rattle.sig_io.specs.Outside.{Rose};
ghost use Rattle.sig_io.specs.Seen.{seen};
ghost use Rattle.junction_run.specs.Answers.{may_write};
ghost use Rattle.junction_run.specs.declared.status.Status.TheVariants as status;
ghost use Rattle.junction_net.specs.Jobs.{result_of};
ghost use Rattle.junction_net.specs.Load.{ReachedIn, files_of_jobs};
ghost use Rattle.junction_net.specs.Net.{ResultsOf, measured};
ghost use Rattle.junction_net.specs.NetAnswers.{NetAnswer, NetAnswers};
ghost use Rattle.junction_net.specs.Results.{net_text};
ghost use Rattle.junction_net.specs.Runs.{IsCutRun};
ghost use Rattle.junction_net.specs.Stop.{IsStop, StopsWith, stop_status};

use crate::form::net_form;
use crate::jobs::{Job, have_answered, run_jobs};
use crate::load::{Unread, load_jobs, take_list};
use crate::rows::List;
use crate::stop::{NetStop, stop_status, write_stop};
use crate::write::{put_jobs, write_notes};
use junction_run::laws::answers_are_right;
use junction_run::{Status, write_words};
use sig_io::{Files, Gate, Sink};
use std::alloc::Global;
use std::thread::Threads;

// Reads the files of the junctions, runs them beside each other, and then writes what they answered.
fn run_list<'a, R: Threads + Sync, F: Files, O: Sink, G: Gate>(
    rt: &R,
    alloc: Global,
    list: &'a List,
    files: &mut F,
    out: &mut O,
    gate: &G,
) -> Result<Vec<Job>, NetStop<'a>>
    ensures results { ForSome (F.told files.old) (λ file.
        IfOk result (λ jobs. ResultsOf file (measured file list.now) (Ok (map result_of jobs.items)))) }
    ensures text { IfOk result (λ jobs.
        O.taken out.new ≡ append_known (O.taken out.old) (net_text (map result_of jobs.items))) }
    ensures stop { ForSome (F.told files.old) (λ file. IfErr result (λ stop.
        IsStop (λ u. measured file list.now ≡ Err u) (ReachedIn file (files_of_jobs list.now)) stop)) }
    ensures cut { ForSome (F.told files.old) (λ file.
        StopsWith status.WriteFault result → IsCutRun file (measured file list.now) (O.taken out.old) (O.taken out.new)) }
    ensures unwritten { IfErr result (λ stop. may_write false (stop_status stop) ≡ false → O.taken out.new ≡ O.taken out.old) }
    ensures no_refusal { StopsWith status.RefusedFile result → ⊥ }
    ensures contents_stay { F.told files.new ≡ F.told files.old }
    ensures later_files { F.faults files.old ≤ F.faults files.new }
    ensures read { StopsWith status.ReadFault result → Rose (F.faults files.old) (F.faults files.new) }
    ensures write { StopsWith status.WriteFault result → Rose (O.faults out.old) (O.faults out.new) }
{
    let mut jobs = match load_jobs(alloc, list, files) {
        Ok(jobs) => jobs,
        Err(unread) => return Err(NetStop::Unread(unread)),
    };
    // The files of a run give one thing, so its status, log and note are of one answer.
    answers_are_right();
    run_jobs(rt, alloc, &mut jobs, gate);
    if !have_answered(&jobs) {
        return Err(NetStop::Unread(Unread::Memory));
    }
    match put_jobs(&jobs, out) {
        Ok(()) => Ok(jobs),
        Err(_) => Err(NetStop::WriteFault),
    }
}

// Takes a list and runs its junctions, and writes the notes.
fn answer_word<R: Threads + Sync, F: Files, O: Sink, N: Sink, G: Gate>(
    rt: &R,
    alloc: Global,
    word: &str,
    files: &mut F,
    out: &mut O,
    notes: &mut N,
    gate: &G,
) -> Status
    ensures answer { NetAnswer word.now
        (seen (F.told files.old) (F.told files.new) (F.faults files.old) (F.faults files.new))
        (seen (O.taken out.old) (O.taken out.new) (O.faults out.old) (O.faults out.new))
        (seen (N.taken notes.old) (N.taken notes.new) (N.faults notes.old) (N.faults notes.new))
        result }
    ensures no_words { result ≡ Status.Words → ⊥ }
    ensures contents_stay { F.told files.new ≡ F.told files.old }
{
    let list = match take_list(alloc, word, files) {
        Ok(list) => list,
        Err(stop) => {
            write_stop(&stop, notes);
            return stop_status(&stop);
        }
    };
    match run_list(rt, alloc, &list, files, out, gate) {
        Ok(jobs) => {
            write_notes(&jobs, notes);
            Status::Done
        }
        Err(stop) => {
            write_stop(&stop, notes);
            stop_status(&stop)
        }
    }
}

/// Does what the words say, over these files: `out` gains what the junctions of a list answer, in the order of the list, and
/// `notes` the notes of those that refused a file or a line, or one line unless all was done.
///
/// The words are those of the command line without the program's name: `net LIST`. LIST is read, at most 1,048,576 bytes, and
/// judged. Then, line by line, all files are read in the order PUA, TIMES, INTERGREENS, PROGRAM, DETECTORS, at most 1,048,576
/// bytes of each and 16,777,216 of DETECTORS. Then each junction is run as `junction` runs it, over the files that were read, in
/// a thread of its own where one can be had; before junction j, counted from 1, `gate.pass(j, 0)` is called. When all have ended,
/// `out` gains for each junction `JUNCTION j STATUS`, a line feed and its log. Where one of them wanted memory nothing is written.
pub fn net<R: Threads + Sync, F: Files, O: Sink, N: Sink, G: Gate>(
    rt: &R,
    alloc: Global,
    words: &[String],
    files: &mut F,
    out: &mut O,
    notes: &mut N,
    gate: &G,
) -> Status
    ensures answers { NetAnswers (map string_bytes words.now)
        (seen (F.told files.old) (F.told files.new) (F.faults files.old) (F.faults files.new))
        (seen (O.taken out.old) (O.taken out.new) (O.faults out.old) (O.faults out.new))
        (seen (N.taken notes.old) (N.taken notes.new) (N.faults notes.old) (N.faults notes.new))
        result }
    ensures unread { result ≡ Status.Words → files.new ≡ files.old }
    ensures unwritten { result ≡ Status.Words → out.new ≡ out.old }
    ensures contents_stay { F.told files.new ≡ F.told files.old }
{
    match net_form(words) {
        Some(word) => answer_word(rt, alloc, word, files, out, notes, gate),
        None => {
            write_words(notes);
            Status::Words
        }
    }
}
