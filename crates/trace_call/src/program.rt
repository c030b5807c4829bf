// A program that is told of.
ghost use Rattle.std.specs.Prelude.{◌≡◌, ◌≤◌, IfErr, IfOk, length};
ghost use Rattle.std.specs.Option.{ForSome};
ghost use Rattle.sig_io.specs.Outside.{Rose};
ghost use Rattle.junction_run.specs.Stop.{IsAt, StopsWith, load_status};
ghost use Rattle.junction_run.specs.declared.status.Status.TheVariants as status;
ghost use Rattle.trace_call.specs.Loaded.{IsToldFile, IsToldText};

use code_verify::Verified;
use junction_run::{LoadStop, judge_source, read_file};
use sig_io::{Files, TEXT_LIMIT};
use std::alloc::Global;
use vap_check::Checked;
use vap_compile::compile;

/// A program that was read: its text, what it was checked to be, and the code that does what it does.
#[derive(Drop)]
pub struct Program {
    pub text: Vec<u8>,
    pub checked: Checked,
    pub code: Verified,
}

// Judges the text of a program, and compiles it.
fn judge_program<'a>(
    alloc: Global,
    text: &[u8],
    word: &'a str,
) -> Result<(Checked, Verified), LoadStop<'a>>
    requires { length text.now ≤ 1048576 }
    ensures text { IsToldText text.now result }
    ensures word { IfErr result (λ stop. IsAt word.now stop) }
{
    let checked = match judge_source(alloc, text, word) {
        Ok(checked) => checked,
        Err(stop) => return Err(stop),
    };
    match compile(alloc, &checked) {
        Ok(code) => Ok((checked, code)),
        Err(_memory) => Err(LoadStop::Memory),
    }
}

/// Reads and judges a program, and compiles it.
pub(crate) fn take_program<'a, F: Files>(
    alloc: Global,
    word: &'a str,
    files: &mut F,
) -> Result<Program, LoadStop<'a>>
    ensures program { ForSome (F.told files.old) (λ file. IsToldFile word.now (file word.now) result) }
    ensures short { IfOk result (λ taken. length taken.text.items ≤ 1048576) }
    ensures word { IfErr result (λ stop. IsAt word.now stop) }
    ensures contents_stay { F.told files.new ≡ F.told files.old }
    ensures later { F.faults files.old ≤ F.faults files.new }
    ensures cause { StopsWith load_status status.ReadFault result → Rose (F.faults files.old) (F.faults files.new) }
{
    let text = match read_file(alloc, files, word, TEXT_LIMIT) {
        Ok(text) => text,
        Err(stop) => return Err(stop),
    };
    match judge_program(alloc, &text, word) {
        Ok((checked, code)) => Ok(Program {
            text,
            checked,
            code,
        }),
        Err(stop) => Err(stop),
    }
}
