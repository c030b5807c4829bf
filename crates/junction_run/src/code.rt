// The code of a command.
ghost use Rattle.std.specs.Prelude.{◌≡◌, ◌≤◌, ◌<◌, ℕ, List, IfOk, IfErr, Ok};
ghost use Rattle.std.specs.Option.{ForSome};
ghost use Rattle.sig_io.specs.Outside.{Rose};
ghost use Rattle.code_file.specs.Reading.{code_of};
ghost use Rattle.code_verify.specs.First.{RefusedBy};
ghost use Rattle.vap_code.specs.Codes.{code_in};
ghost use Rattle.vap_code.specs.Valid.{HasShape, Valid};
ghost use Rattle.junction_run.specs.Codes.{CodeIs, instr_line};
ghost use Rattle.junction_run.specs.Form.{CodeFile};
ghost use Rattle.junction_run.specs.Sites.{IsCodeText, IsSourceFile};
ghost use Rattle.junction_run.specs.Stop.{IsAt, IsRefusedBy, StopsWith, load_status};
ghost use Rattle.junction_run.specs.declared.status.Status.TheVariants as status;

use crate::file::{CODE_LIMIT, read_file};
use crate::stop::{LoadStop, Reason};
use code_file::{CodeRefusal, read_code};
use code_verify::{Verified, VerifyRefusal, verify};
use sig_io::Files;
use std::alloc::Global;
use vap_code::Code;

// The line of the instruction at a place. Lines count from 1, and before the first instruction stand those of the header, VARS,
// TIMERS, ARRAYS, ROUTINES and CODE, and one for each array and each start.
fn instr_line(code: &Code, place: u32) -> u32
    requires shape { HasShape (code_in code.now) }
    requires place { place < 65536 }
    ensures { result ≡ instr_line (code_in code.now) place }
{
    7 + code.arrays.len() as u32 + code.starts.len() as u32 + place
}

// Why a code that was read is not accepted.
fn stop_of<'a>(code: &Code, refusal: VerifyRefusal, word: &'a str) -> LoadStop<'a>
    requires shape { HasShape (code_in code.now) }
    requires refused { RefusedBy (code_in code.now) refusal }
    ensures refused { (text : List ℕ) → code_of text ≡ Ok (code_in code.now) → IsRefusedBy CodeIs text result }
    ensures word { IsAt word.now result }
{
    match refusal {
        VerifyRefusal::Memory => LoadStop::Memory,
        VerifyRefusal::At { place, why } => LoadStop::Refused {
            word,
            line: instr_line(code, place),
            reason: Reason::Verify(why),
        },
    }
}

// Verifies a code that was read.
fn verify_code<'a>(alloc: Global, code: Code, word: &'a str) -> Result<Verified, LoadStop<'a>>
    requires { HasShape (code_in code) }
    ensures accepted { IfOk result (λ v. (v ≡ code_in code) × Valid (code_in code)) }
    ensures refused { (text : List ℕ) → code_of text ≡ Ok (code_in code) → IfErr result (λ stop. IsRefusedBy CodeIs text stop) }
    ensures word { IfErr result (λ stop. IsAt word.now stop) }
{
    match verify(alloc, code) {
        Ok(code) => Ok(code),
        Err((code, refusal)) => Err(stop_of(&code, refusal, word)),
    }
}

// Judges the text of a code: it is read, and then verified.
fn judge_code<'a>(alloc: Global, text: &[u8], word: &'a str) -> Result<Verified, LoadStop<'a>>
    ensures text { IsCodeText text.now result }
    ensures word { IfErr result (λ stop. IsAt word.now stop) }
{
    match read_code(alloc, text) {
        Ok(code) => verify_code(alloc, code, word),
        Err(CodeRefusal::Memory) => Err(LoadStop::Memory),
        Err(CodeRefusal::At { line, why }) => Err(LoadStop::Refused {
            word,
            line,
            reason: Reason::Code(why),
        }),
    }
}

/// Reads and judges a code.
pub(crate) fn take_code<'a, F: Files>(
    alloc: Global,
    word: &'a str,
    files: &mut F,
) -> Result<Verified, LoadStop<'a>>
    ensures code { ForSome (F.told files.old) (λ file. IsSourceFile (CodeFile word.now) (file word.now) result) }
    ensures word { IfErr result (λ stop. IsAt word.now stop) }
    ensures contents_stay { F.told files.new ≡ F.told files.old }
    ensures later { F.faults files.old ≤ F.faults files.new }
    ensures cause { StopsWith load_status status.ReadFault result → Rose (F.faults files.old) (F.faults files.new) }
{
    let text = match read_file(alloc, files, word, CODE_LIMIT) {
        Ok(text) => text,
        Err(stop) => return Err(stop),
    };
    judge_code(alloc, &text, word)
}
