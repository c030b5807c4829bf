// A file, line by line.
ghost use Rattle.std.specs.Prelude.{◌≡◌, ◌<◌, ◌^◌, ◌-◌, length, IfOk, IfErr, None, ◌∷◌};
ghost use Rattle.std.specs.Str.Lines.{lines, strip_carriage_return};
ghost use Rattle.pua_reader.specs.Accepted.{refusal_of, plan_of_text, RefusedAs, without_mark};

use crate::draft::PlanDraft;
use crate::refusal::PuaRefusal;
use pua_model::Plan;
use sig_types::text::cut_at;
use std::alloc::Global;

// A byte order mark at the beginning is passed over.
fn without_mark(bytes: &[u8]) -> &[u8]
    ensures { result.now ≡ without_mark bytes.now }
{
    if bytes.starts_with(&[0xEF, 0xBB, 0xBF]) {
        let (_, rest) = bytes.split_at(3);
        rest
    } else {
        bytes
    }
}

// A line without the carriage return at its end, if it has one.
fn without_return(line: &[u8]) -> &[u8]
    ensures { result.now ≡ strip_carriage_return line.now }
{
    if !line.is_empty() && line[line.len() - 1] == b'\r' {
        &line[..line.len() - 1]
    } else {
        line
    }
}

// The first line, and what stands after it.
fn first_line(text: &[u8]) -> (&[u8], &[u8])
    requires { 0 < length text.now }
    ensures lines { lines text.now ≡ result.0.now ∷ lines result.1.now }
    ensures rest { length result.1.now < length text.now }
{
    match cut_at(b'\n', text) {
        Some((line, rest)) => (without_return(line), rest),
        None => (text, &[]),
    }
}

/// The plan of a PUA file, or why the file is refused: the first refusal of its lines and section ends. Reads the bytes once,
/// and keeps nothing of a file that it refuses.
pub fn read_plan(alloc: Global, bytes: &[u8]) -> Result<Plan, PuaRefusal>
    requires { length bytes.now < 2 ^ 32 - 1 }
    ensures accepted { IfOk result (λ plan. (refusal_of bytes.now ≡ None) × (plan ≡ plan_of_text bytes.now)) }
    ensures refused { IfErr result (λ refusal. RefusedAs refusal (refusal_of bytes.now)) }
{
    let mut rest = without_mark(bytes);
    let mut draft = PlanDraft::empty(alloc);
    while !rest.is_empty() {
        let (line, more) = first_line(rest);
        draft.take_line(alloc, line)?;
        rest = more;
    }
    draft.finish(alloc)
}
