// The program of a command.
ghost use Rattle.std.specs.Prelude.{◌≡◌, ◌≤◌, ℕ, List, All, IfOk, IfErr, length};
ghost use Rattle.std.specs.Option.{ForSome};
ghost use Rattle.sig_io.specs.Outside.{Rose};
ghost use Rattle.vap_ast.specs.Parsed.{Parsed, IsLine};
ghost use Rattle.vap_ast.specs.Tree.{program_of};
ghost use Rattle.vap_check.specs.Accepted.{Accepted};
ghost use Rattle.vap_check.specs.Numbers.{checked_of};
ghost use Rattle.vap_check.specs.Readings.{with_readings};
ghost use Rattle.vap_lex.specs.Kept.{HasLine};
ghost use Rattle.vap_lex.specs.Tokens.{HasTokens};
ghost use Rattle.vap_lex.specs.declared.token.Token.{Token};
ghost use Rattle.vap_parse.specs.Grammar.{Accepts};
ghost use Rattle.junction_run.specs.Form.{ProgramFile};
ghost use Rattle.junction_run.specs.Sites.{IsRefusedProgram, IsCheckedText, IsProgramText, IsSourceFile};
ghost use Rattle.junction_run.specs.Stop.{IsAt, StopsWith, load_status};
ghost use Rattle.junction_run.specs.declared.status.Status.TheVariants as status;

use crate::file::read_file;
use crate::stop::{LoadStop, Reason};
use code_verify::Verified;
use sig_io::{Files, TEXT_LIMIT};
use std::alloc::Global;
use vap_ast::Program;
use vap_check::{CheckRefusal, Checked, check};
use vap_compile::compile;
use vap_lex::{LexRefusal, Tokens, tokens};
use vap_parse::{ParseRefusal, parse};

fn judge_tokens<'a>(alloc: Global, text: &[u8], word: &'a str) -> Result<Tokens, LoadStop<'a>>
    requires { length text.now ≤ 1048576 }
    ensures tokens { IfOk result (λ ts. HasTokens text.now ts) }
    ensures lines { IfOk result (λ ts. All (λ t. HasLine (length text.now) t) ts) }
    ensures refused { IfErr result (λ stop. IsRefusedProgram text.now stop) }
    ensures word { IfErr result (λ stop. IsAt word.now stop) }
{
    match tokens(alloc, text) {
        Ok(tokens) => Ok(tokens),
        Err(LexRefusal::Memory) => Err(LoadStop::Memory),
        Err(LexRefusal::At { line, why }) => Err(LoadStop::Refused {
            word,
            line,
            reason: Reason::Lex(why),
        }),
    }
}

fn judge_tree<'a>(alloc: Global, tokens: &Tokens, word: &'a str) -> Result<Program, LoadStop<'a>>
    ensures tree { IfOk result (λ p. Accepts tokens.now (program_of p)) }
    ensures parsed { (most : ℕ) → All (λ t. IsLine most t.line) tokens.now → IfOk result (λ p. Parsed most (program_of p)) }
    ensures refused { (text : List ℕ) → HasTokens text tokens.now → IfErr result (λ stop. IsRefusedProgram text stop) }
    ensures word { IfErr result (λ stop. IsAt word.now stop) }
{
    match parse(alloc, tokens) {
        Ok(program) => Ok(program),
        Err(ParseRefusal::Memory) => Err(LoadStop::Memory),
        Err(ParseRefusal::At { line, why }) => Err(LoadStop::Refused {
            word,
            line,
            reason: Reason::Parse(why),
        }),
    }
}

fn check_tree<'a>(alloc: Global, program: Program, word: &'a str) -> Result<Checked, LoadStop<'a>>
    requires { Parsed 1048577 (program_of program) }
    ensures tree { IfOk result (λ c. program_of c.tree ≡ with_readings (program_of program)) }
    ensures accepted { IfOk result (λ c. Accepted (program_of c.tree) × (c ≡ checked_of c.tree)) }
    ensures refused { (text : List ℕ) (tokens : List Token) → HasTokens text tokens → Accepts tokens (program_of program) →
        IfErr result (λ stop. IsRefusedProgram text stop) }
    ensures word { IfErr result (λ stop. IsAt word.now stop) }
{
    match check(alloc, program) {
        Ok(checked) => Ok(checked),
        Err(CheckRefusal::Memory) => Err(LoadStop::Memory),
        Err(CheckRefusal::At { line, why }) => Err(LoadStop::Refused {
            word,
            line,
            reason: Reason::Check(why),
        }),
    }
}

/// The checked program of a text: its tokens, their tree, its readings of the cycle, and the checks. The error is its refusal, at
/// the file of that name, or `Memory`.
pub fn judge_source<'a>(alloc: Global, text: &[u8], word: &'a str) -> Result<Checked, LoadStop<'a>>
    requires { length text.now ≤ 1048576 }
    ensures text { IsCheckedText text.now result }
    ensures word { IfErr result (λ stop. IsAt word.now stop) }
{
    let tokens = match judge_tokens(alloc, text, word) {
        Ok(tokens) => tokens,
        Err(stop) => return Err(stop),
    };
    let program = match judge_tree(alloc, &tokens, word) {
        Ok(program) => program,
        Err(stop) => return Err(stop),
    };
    check_tree(alloc, program, word)
}

// Frees a program, in one step of a way out.
fn free_checked(_checked: Checked) {}

// Judges the text of a program, and compiles it.
fn judge_program<'a>(alloc: Global, text: &[u8], word: &'a str) -> Result<Verified, LoadStop<'a>>
    requires { length text.now ≤ 1048576 }
    ensures text { IsProgramText text.now result }
    ensures word { IfErr result (λ stop. IsAt word.now stop) }
{
    let checked = match judge_source(alloc, text, word) {
        Ok(checked) => checked,
        Err(stop) => return Err(stop),
    };
    match compile(alloc, &checked) {
        Ok(code) => {
            free_checked(checked);
            Ok(code)
        }
        Err(_memory) => {
            free_checked(checked);
            Err(LoadStop::Memory)
        }
    }
}

/// Reads and judges a program, and compiles it.
pub(crate) fn take_program<'a, F: Files>(
    alloc: Global,
    word: &'a str,
    files: &mut F,
) -> Result<Verified, LoadStop<'a>>
    ensures program { ForSome (F.told files.old) (λ file. IsSourceFile (ProgramFile word.now) (file word.now) result) }
    ensures word { IfErr result (λ stop. IsAt word.now stop) }
    ensures contents_stay { F.told files.new ≡ F.told files.old }
    ensures later { F.faults files.old ≤ F.faults files.new }
    ensures cause { StopsWith load_status status.ReadFault result → Rose (F.faults files.old) (F.faults files.new) }
{
    let text = match read_file(alloc, files, word, TEXT_LIMIT) {
        Ok(text) => text,
        Err(stop) => return Err(stop),
    };
    judge_program(alloc, &text, word)
}
