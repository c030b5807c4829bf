// The top call.
ghost use Rattle.std.specs.Prelude.{◌≡◌, ◌≤◌, true, false, Some, IfErr, map, string_bytes};
ghost use Rattle.std.specs.Option.{ForSome};
ghost use Rattle.sig_io.specs.Outside.{Rose};
ghost use Rattle.sig_io.specs.Seen.{seen};
ghost use Rattle.junction_run.specs.Answers.{FormAnswer, JunctionAnswers, may_write};
ghost use Rattle.junction_run.specs.Ended.{IsEnded};
ghost use Rattle.junction_run.specs.Form.{files_of, reads_lines, writes_lines};
ghost use Rattle.junction_run.specs.FormWords.{form_in};
ghost use Rattle.junction_run.specs.Guarded.{IsSafe};
ghost use Rattle.junction_run.specs.Stop.{StopsAmong, StopsWith, status_of};
ghost use Rattle.junction_run.specs.declared.status.Status.TheVariants as status;

use crate::audit::audit;
use crate::compile::compile_file;
use crate::form::{Form, form_of};
use crate::notes::{write_stop, write_words};
use crate::run::run;
use crate::sample::sample;
use crate::status::Status;
use crate::stop::{Stop, status_of};
use sig_io::{Files, Sink};
use std::alloc::Global;

// Does what a form asks for.
fn do_form<'a, F: Files, O: Sink>(
    alloc: Global,
    form: &Form<'a>,
    files: &mut F,
    out: &mut O,
) -> Result<(), Stop<'a>>
    ensures ended { ForSome (F.told files.old) (λ file.
        IsEnded (form_in form.now) file result (O.taken out.old) (O.taken out.new)) }
    ensures safe { IsSafe (form_in form.now) (O.taken out.old) (O.taken out.new) }
    ensures unwritten { IfErr result (λ stop.
        may_write (writes_lines (form_in form.now)) (status_of stop) ≡ false → O.taken out.new ≡ O.taken out.old) }
    ensures line { StopsWith status_of status.RefusedLine result → reads_lines (form_in form.now) ≡ true }
    ensures word { IfErr result (λ stop. StopsAmong (files_of (form_in form.now)) stop) }
    ensures contents_stay { F.told files.new ≡ F.told files.old }
    ensures later_files { F.faults files.old ≤ F.faults files.new }
    ensures later_out { O.faults out.old ≤ O.faults out.new }
    ensures read { StopsWith status_of status.ReadFault result → Rose (F.faults files.old) (F.faults files.new) }
    ensures write { StopsWith status_of status.WriteFault result → Rose (O.faults out.old) (O.faults out.new) }
{
    match form {
        Form::Play {
            source,
            site,
            detectors,
        } => run(alloc, source, site, detectors, files, out),
        Form::Compile { program } => compile_file(alloc, program, files, out),
        Form::Sample {
            program,
            site,
            seed,
            seconds,
        } => sample(alloc, program, site, *seed, *seconds, files, out),
        Form::Audit { log, site } => audit(alloc, log, site, files, out),
    }
}

// Does what a form asks for, and writes the note unless all was done.
fn answer_form<F: Files, O: Sink, N: Sink>(
    alloc: Global,
    form: &Form<'_>,
    files: &mut F,
    out: &mut O,
    notes: &mut N,
) -> Status
    ensures answer { FormAnswer (form_in form.now)
        (seen (F.told files.old) (F.told files.new) (F.faults files.old) (F.faults files.new))
        (seen (O.taken out.old) (O.taken out.new) (O.faults out.old) (O.faults out.new))
        (seen (N.taken notes.old) (N.taken notes.new) (N.faults notes.old) (N.faults notes.new))
        result }
    ensures no_words { result ≡ Status.Words → ⊥ }
    ensures contents_stay { F.told files.new ≡ F.told files.old }
{
    match do_form(alloc, form, files, out) {
        Ok(()) => Status::Done,
        Err(stop) => {
            write_stop(&stop, notes);
            status_of(&stop)
        }
    }
}

/// Does what the words say, over these files: `out` gains the text, and `notes` one line unless all was done.
///
/// The words are those of the command line without the program's name, in one of these forms. Files are read in the order that
/// is told, at most 1,048,576 bytes of each (2,097,152 of CODE), and each is judged before the next one is read. All memory is
/// taken before the first byte is written.
///
/// - `run PROGRAM PUA TIMES INTERGREENS DETECTORS` writes the log of the program on the detector file. After PUA, TIMES,
///   INTERGREENS and PROGRAM the header is written, and then for each line of DETECTORS the record of its second.
/// - `compile PROGRAM` writes the code file of the program: the text of a valid code that does in each pass what the program
///   does.
/// - `exec CODE PUA TIMES INTERGREENS DETECTORS` writes the log of a code, whoever wrote it, as `run` writes that of a program.
///   After PUA, TIMES and INTERGREENS the code is read and verified.
/// - `sample PROGRAM PUA TIMES INTERGREENS SEED SECONDS` writes what the records of SECONDS seconds, 0 to 604,800, add up to,
///   in which detectors 1 to 12 have fronts and rears drawn from SEED, 0 to 18,446,744,073,709,551,615. The files are read as
///   by `run`.
/// - `audit LOG PUA TIMES INTERGREENS` writes whether the pictures of a log, whoever wrote it, keep the rules of the guard, and
///   what the guard makes of each interstage of the plan. After PUA, TIMES and INTERGREENS the log is read line by line to its
///   end, before the first byte is written; it has no limit but that of its lines.
pub fn junction<F: Files, O: Sink, N: Sink>(
    alloc: Global,
    words: &[String],
    files: &mut F,
    out: &mut O,
    notes: &mut N,
) -> Status
    ensures answers { JunctionAnswers (map string_bytes words.now)
        (seen (F.told files.old) (F.told files.new) (F.faults files.old) (F.faults files.new))
        (seen (O.taken out.old) (O.taken out.new) (O.faults out.old) (O.faults out.new))
        (seen (N.taken notes.old) (N.taken notes.new) (N.faults notes.old) (N.faults notes.new))
        result }
    ensures unread { result ≡ Status.Words → files.new ≡ files.old }
    ensures unwritten { result ≡ Status.Words → out.new ≡ out.old }
    ensures contents_stay { F.told files.new ≡ F.told files.old }
{
    match form_of(words) {
        Some(form) => answer_form(alloc, &form, files, out, notes),
        None => {
            write_words(notes);
            Status::Words
        }
    }
}
