// The command that writes a code file.
ghost use Rattle.std.specs.Prelude.{◌≡◌, ◌≤◌, false, IfErr};
ghost use Rattle.std.specs.Option.{ForSome};
ghost use Rattle.sig_io.specs.Outside.{Rose};
ghost use Rattle.junction_run.specs.Answers.{may_write};
ghost use Rattle.junction_run.specs.Ended.{IsEnded};
ghost use Rattle.junction_run.specs.Form.{Compile, files_of};
ghost use Rattle.junction_run.specs.Stop.{StopsAmong, StopsWith, status_of};
ghost use Rattle.junction_run.specs.declared.status.Status.TheVariants as status;

use crate::program::take_program;
use crate::stop::{PlayStop, Stop};
use code_file::{code_has_text, write_code};
use sig_io::{Files, Sink};
use std::alloc::Global;

/// Compiles a program, and writes the text of its code. All memory is taken before the first byte is written.
pub(crate) fn compile_file<'a, F: Files, O: Sink>(
    alloc: Global,
    program: &'a str,
    files: &mut F,
    out: &mut O,
) -> Result<(), Stop<'a>>
    ensures ended { ForSome (F.told files.old) (λ file.
        IsEnded (Compile program.now) file result (O.taken out.old) (O.taken out.new)) }
    ensures unwritten { IfErr result (λ stop. may_write false (status_of stop) ≡ false → O.taken out.new ≡ O.taken out.old) }
    ensures line { StopsWith status_of status.RefusedLine result → ⊥ }
    ensures word { IfErr result (λ stop. StopsAmong (files_of (Compile program.now)) stop) }
    ensures contents_stay { F.told files.new ≡ F.told files.old }
    ensures later_files { F.faults files.old ≤ F.faults files.new }
    ensures later_out { O.faults out.old ≤ O.faults out.new }
    ensures read { StopsWith status_of status.ReadFault result → Rose (F.faults files.old) (F.faults files.new) }
    ensures write { StopsWith status_of status.WriteFault result → Rose (O.faults out.old) (O.faults out.new) }
{
    let compiled = match take_program(alloc, program, files) {
        Ok(compiled) => compiled,
        Err(stop) => return Err(Stop::Load(stop)),
    };
    // Their contracts tell that the code is valid, and that its text is read again as this code.
    compiled.code();
    code_has_text(&compiled);
    match write_code(&compiled, out) {
        Ok(()) => Ok(()),
        Err(_fault) => Err(Stop::Play(PlayStop::WriteFault)),
    }
}
