// Where in a code statements begin and tests are answered.
ghost use Rattle.std.specs.Prelude.{◌≡◌, ◌++◌, ℕ, All, IfOk, length};
ghost use Rattle.std.specs.Option.{IfSome, option_to_list};
ghost use Rattle.vap_code.specs.Valid.{is_call};
ghost use Rattle.trace_watch.specs.Places.{IsWithin, line_after, statement_at, statements_in, test_at, tests_in};

use std::alloc::{AllocError, Global};
use vap_code::Instr;

/// A place of a code, and the line of the text from which it comes.
#[derive(Clone, Copy)]
pub struct Mark {
    pub place: usize,
    pub line: u32,
}

// Whether an instruction calls a subroutine.
fn is_call(instr: Instr) -> bool
    ensures { result ≡ is_call instr }
{
    matches!(instr, Instr::Call(_))
}

// The statement that begins with an instruction, if one does.
fn statement_at(place: usize, behind_call: bool, instr: Instr) -> Option<Mark>
    ensures mark { option_to_list result ≡ statement_at place behind_call instr }
    ensures place { IfSome result (λ m. m.place ≡ place) }
{
    match instr {
        Instr::Tick(line) if !behind_call => Some(Mark { place, line }),
        _ => None,
    }
}

// The test that an instruction answers, if it does.
fn test_at(place: usize, line: u32, instr: Instr) -> Option<Mark>
    ensures mark { option_to_list result ≡ test_at place line instr }
    ensures place { IfSome result (λ m. m.place ≡ place) }
{
    match instr {
        Instr::JumpZero(_) => Some(Mark { place, line }),
        _ => None,
    }
}

// The line after an instruction.
fn line_after(line: u32, instr: Instr) -> u32
    ensures { result ≡ line_after line instr }
{
    match instr {
        Instr::Tick(next) => next,
        _ => line,
    }
}

// Adds a mark, if there is one.
fn add(marks: &mut Vec<Mark>, mark: Option<Mark>) -> Result<(), AllocError>
    ensures added { IfOk result (λ _. marks.new.items ≡ marks.old.items ++ option_to_list mark) }
    ensures within { (places : ℕ) → All (IsWithin places) marks.old.items → IfSome mark (IsWithin places) →
        All (IsWithin places) marks.new.items }
{
    if let Some(mark) = mark {
        marks.push(mark)?;
    }
    Ok(())
}

/// Where the statements of a code begin, in the order in which they stand there.
pub fn statements_in(alloc: Global, instrs: &[Instr]) -> Result<Vec<Mark>, AllocError>
    ensures marks { IfOk result (λ marks. marks.items ≡ statements_in instrs.now) }
    ensures within { IfOk result (λ marks. All (IsWithin (length instrs.now)) marks.items) }
{
    let mut marks = Vec::new(alloc);
    let mut behind_call = false;
    for place in 0..instrs.len() {
        let instr = instrs[place];
        add(&mut marks, statement_at(place, behind_call, instr))?;
        behind_call = is_call(instr);
    }
    Ok(marks)
}

/// Where the tests of a code are answered, in the order in which they stand there.
pub fn tests_in(alloc: Global, instrs: &[Instr]) -> Result<Vec<Mark>, AllocError>
    ensures marks { IfOk result (λ marks. marks.items ≡ tests_in instrs.now) }
    ensures within { IfOk result (λ marks. All (IsWithin (length instrs.now)) marks.items) }
{
    let mut marks = Vec::new(alloc);
    let mut line = 0;
    for place in 0..instrs.len() {
        let instr = instrs[place];
        add(&mut marks, test_at(place, line, instr))?;
        line = line_after(line, instr);
    }
    Ok(marks)
}
