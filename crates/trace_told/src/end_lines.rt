// The observer that keeps the lines of commands.
ghost use Rattle.std.specs.Prelude.{◌≡◌, ◌<◌, [], List, ℤ, ℕ, None, Some, ◌==◌, ◌&&◌, IfSome, slice_get, slice_index_or};
ghost use Rattle.trace_told.specs.EndLines.{HasNoted, IsNumber, begun_in, commanded, kept_or, pair_place, stage_in};

use sig_types::{CommandKind, StageNo, StagePlace};
use vap_code::Instr;
use vap_vm::{Head, Machine, Observer, Sight};

const PAIRS: usize = 1024;

/// For each pair of stages the line of the first command of a pass for the interstage between them.
#[derive(Drop)]
pub struct FirstLines {
    lines: [Option<u32>; PAIRS],
}

// The stage that a number names, where a plan has as many stages as it can have.
fn stage_in(number: i32) -> Option<u8>
    ensures stage { result ≡ stage_in number }
    ensures number { IfSome result IsNumber }
{
    if number < 1 || 32 < number {
        None
    } else {
        Some(number.unsigned_abs() as u8)
    }
}

// The stages between which an instruction commands an interstage, if it does; these are the two operands on top.
fn commanded(instr: Instr, top: Option<i32>, under: Option<i32>) -> Option<(u8, u8)>
    ensures pair { (operands : List ℤ) → top ≡ slice_get operands 0 → under ≡ slice_get operands 1 → result ≡ commanded instr operands }
    ensures numbers { IfSome result (λ pair. IsNumber pair.0 × IsNumber pair.1) }
{
    if !matches!(instr, Instr::Do(CommandKind::Interstage)) {
        return None;
    }
    let (Some(y), Some(x)) = (top, under) else {
        return None;
    };
    match (stage_in(x), stage_in(y)) {
        (Some(from), Some(to)) => Some((from, to)),
        _ => None,
    }
}

// Where the line of a pair of stages is kept.
fn place_of(from: u8, to: u8) -> usize
    requires from { IsNumber from }
    requires to { IsNumber to }
    ensures place { result ≡ pair_place from to }
    ensures below { result < 1024 }
{
    (from as usize - 1) * 32 + (to as usize - 1)
}

// Keeps the line of a command between two stages, where none is kept yet.
fn note(lines: &mut [Option<u32>; PAIRS], from: u8, to: u8, line: u32)
    requires from { IsNumber from }
    requires to { IsNumber to }
    ensures { (a b : ℕ) → IsNumber a → IsNumber b → slice_index_or lines.new (pair_place a b) None
        ≡ kept_or (slice_index_or lines.old (pair_place a b) None) (from == a && to == b) line }
{
    let place = place_of(from, to);
    if lines[place].is_none() {
        lines[place] = Some(line);
    }
}

impl FirstLines {
    /// No command was seen yet.
    pub(crate) fn new() -> FirstLines
        ensures { HasNoted result [] }
    {
        FirstLines {
            lines: [None; PAIRS],
        }
    }

    /// The line of the first command from one stage to another; 0 where there is none.
    pub(crate) fn line(&self, from: StageNo, to: StageNo) -> u32
        requires from { IsNumber from.0 }
        requires to { IsNumber to.0 }
        ensures { (line : ℕ) → slice_index_or self.now.lines (pair_place from.0 to.0) None ≡ Some line → result ≡ line }
    {
        match self.lines[place_of(from.0, to.0)] {
            Some(line) => line,
            None => 0,
        }
    }
}

impl Observer for FirstLines {
    ghost use Rattle.trace_told.specs.EndLines.{HasNoted};

    ghost saw = { λ first lines sights. HasNoted lines sights };

    fn look(&mut self, instr: Instr, head: &Head, machine: &Machine) {
        let sight = Sight::of(instr, head, machine);
        match commanded(instr, sight.operand(0), sight.operand(1)) {
            Some(stages) => note(&mut self.lines, stages.0, stages.1, sight.line()),
            None => {}
        }
    }
}

/// The stages of an interstage that is in its first second.
pub(crate) fn begun(place: StagePlace) -> Option<(StageNo, StageNo)>
    ensures { result ≡ begun_in place }
{
    match place {
        StagePlace::NoPlan | StagePlace::Stage(_) => None,
        StagePlace::Inter { from, to, t } => { if t == 0 { Some((from, to)) } else { None } }
    }
}
