// The counts, the arrays, the starts of routines and the lines of ticks.

ghost use Rattle.std.specs.Prelude.{◌≡◌, ℕ, ◌≤◌, ◌<◌, ◌↔◌, length, map, sum, IsTrue, slice_index};
ghost use Rattle.std.specs.List.{All};
ghost use Rattle.sig_types.specs.Limits.{most_array_cells, most_cells};
ghost use Rattle.code_verify.specs.Shape.{CountsFit, ArraysFit, StartsFit};
ghost use Rattle.vap_code.specs.Codes.{code_in};
ghost use Rattle.vap_code.specs.Valid.{HasShape, rise as rise_of, line_fits as line_fits_of, instr_at};

use sig_types::limits::{
    LAST_LINE, MOST_ARRAY_CELLS, MOST_ARRAYS, MOST_CELLS, MOST_INSTRS, MOST_ROUTINES, MOST_TIMERS,
    MOST_VARIABLES,
};
use vap_code::{Code, Instr, Operand, operand_of};

/// Whether all counts are within their limits, the starts begin with 0, rise and lie in the code, and each tick has a line
/// that a program can have, 1 to 1,048,577.
pub fn has_shape(code: &Code) -> bool
    ensures { IsTrue result ↔ HasShape (code_in code.now) }
{
    counts_fit(code)
        && arrays_fit(&code.arrays)
        && starts_fit(&code.starts, code.instrs.len())
        && lines_fit(&code.instrs)
}

fn counts_fit(code: &Code) -> bool
    ensures { IsTrue result ↔ CountsFit (code_in code.now) }
{
    code.instrs.len() <= usize::from(MOST_INSTRS)
        && code.starts.len() <= usize::from(MOST_ROUTINES)
        && code.vars <= MOST_VARIABLES
        && code.timers <= MOST_TIMERS
}

fn arrays_fit(arrays: &[Vec<i32>]) -> bool
    ensures { IsTrue result ↔ ArraysFit (map (λ a. a.items) arrays.now) }
{
    arrays.len() <= usize::from(MOST_ARRAYS) && cells_fit(arrays) && all_cells_fit(arrays)
}

// Whether each array has 1 to 1,024 cells.
fn cells_fit(arrays: &[Vec<i32>]) -> bool
    ensures { IsTrue result ↔ All (λ a. (1 ≤ length a.items) × (length a.items ≤ most_array_cells)) arrays.now }
{
    for array in arrays {
        if array.len() < 1 || array.len() > usize::from(MOST_ARRAY_CELLS) {
            return false;
        }
    }
    true
}

// Whether all arrays together have at most 4,096 cells.
fn all_cells_fit(arrays: &[Vec<i32>]) -> bool
    ensures { IsTrue result ↔ (sum (map (λ a. length a.items) arrays.now) ≤ most_cells) }
{
    let mut room = usize::from(MOST_CELLS);
    for array in arrays {
        if array.len() > room {
            return false;
        }
        room -= array.len();
    }
    true
}

fn starts_fit(starts: &[u16], all: usize) -> bool
    ensures { IsTrue result ↔ StartsFit starts.now all }
{
    starts.len() > 0 && starts[0] == 0 && rise(starts) && lie_inside(starts, all)
}

// Whether each start is greater than the one before.
fn rise(starts: &[u16]) -> bool
    ensures { result ≡ rise_of starts.now }
{
    for k in 1..starts.len() {
        if starts[k - 1] >= starts[k] {
            return false;
        }
    }
    true
}

fn lie_inside(starts: &[u16], all: usize) -> bool
    ensures { IsTrue result ↔ ((k : ℕ) → k < length starts.now → slice_index starts.now k < all) }
{
    for start in starts {
        if *start as usize >= all {
            return false;
        }
    }
    true
}

fn lines_fit(instrs: &[Instr]) -> bool
    ensures { IsTrue result ↔
        ((p : ℕ) → p < length instrs.now → IsTrue (line_fits_of (instr_at instrs.now p))) }
{
    for p in 0..instrs.len() {
        if !line_fits(instrs[p]) {
            return false;
        }
    }
    true
}

fn line_fits(instr: Instr) -> bool
    ensures { result ≡ line_fits_of instr }
{
    match operand_of(instr) {
        Operand::Line(line) => 1 <= line && line <= LAST_LINE,
        Operand::Nothing | Operand::Value(_) | Operand::Place(_) | Operand::Routine(_) => true,
        Operand::Variable(_) | Operand::Array(_) | Operand::Timer(_) => true,
        Operand::Reading(_) | Operand::Command(_) => true,
    }
}
