// The heights, stretches and command counts of all places.

ghost use Rattle.std.specs.Prelude.{◌≡◌, ℕ, ◌+◌, ◌-◌, ◌<◌, ◌≤◌, length, slice_index, slice_index_or, drop, IfOk, Option, None, true, if◌then◌else◌};
ghost use Rattle.std.specs.Option.{option_or};
ghost use Rattle.sig_types.specs.Limits.{most_instrs};
ghost use Rattle.vap_code.specs.Codes.{code_in};
ghost use Rattle.vap_code.specs.Valid.{from_first, height_after as height_after_of, begins as begins_at, greatest as greatest_of, later_at, is_tick as is_tick_of, instr_at};
ghost use Rattle.code_verify.specs.Tables.{first_jump, brings, number_of, counts_back as counts_back_of, IsTables, JumpsAhead};
ghost use Rattle.vap_code.specs.declared.VerifyWhy.TheVariants.{Shape};
ghost use Rattle.vap_code.specs.Valid.{Passed, HasShape};

use crate::instrs::{goes_on, is_tick, leaves, target};
use crate::places::{begins, has_next};
use std::alloc::{AllocError, Global};
use vap_code::{Code, Instr};

/// What the checks look up.
#[derive(Drop)]
pub struct Tables {
    pub heights: Vec<usize>,
    pub stretches: Vec<usize>,
    pub command_counts: Vec<usize>,
}

impl Tables {
    /// The tables of a code that has Shape and whose jumps lead ahead or to a tick.
    pub fn of(alloc: Global, code: &Code) -> Result<Tables, AllocError>
        requires shape { HasShape (code_in code.now) }
        requires passed { Passed 3 (code_in code.now) }
        ensures { IfOk result (λ t. IsTables (code_in code.now) t) }
    {
        Ok(Tables {
            heights: heights(alloc, &code.instrs, &code.starts)?,
            stretches: counts_back(alloc, &code.instrs, &code.starts, Number::Stretch)?,
            command_counts: counts_back(alloc, &code.instrs, &code.starts, Number::Commands)?,
        })
    }
}

// The height of each place.
fn heights(alloc: Global, instrs: &[Instr], starts: &[u16]) -> Result<Vec<usize>, AllocError>
    requires at_most { length instrs.now ≤ most_instrs }
    requires first { begins_at starts.now 0 ≡ true }
    ensures table { IfOk result
        (λ v. v.items ≡ from_first (height_after_of instrs.now starts.now) (length instrs.now)) }
    ensures long { IfOk result (λ v. length v.items ≡ length instrs.now) }
    ensures low { IfOk result (λ v. (k : ℕ) → k < length v.items → slice_index v.items k ≤ k) }
{
    let mut heights = Vec::with_capacity(alloc, instrs.len())?;
    let mut brought = nothing_brought(alloc, instrs.len())?;
    for p in 0..instrs.len() {
        let height = height_after(instrs, starts, &heights, brought[p]);
        keep_jump(&mut brought, instrs[p], height);
        heights.push(height)?;
    }
    Ok(heights)
}

// No jump yet, for each place.
fn nothing_brought(alloc: Global, all: usize) -> Result<Vec<Option<usize>>, AllocError>
    ensures long { IfOk result (λ v. length v.items ≡ all) }
    ensures none { IfOk result (λ v. (t : ℕ) → slice_index_or v.items t None ≡ None) }
{
    let mut brought = Vec::with_capacity(alloc, all)?;
    for _place in 0..all {
        brought.push(None)?;
    }
    Ok(brought)
}

// The height of the place after those whose heights are given, where `brought` is what the lowest of them that jumps to it
// leaves.
fn height_after(
    instrs: &[Instr],
    starts: &[u16],
    heights: &[usize],
    brought: Option<usize>,
) -> usize
    requires inside { length heights.now < length instrs.now }
    requires at_most { length instrs.now ≤ most_instrs }
    requires first { begins_at starts.now 0 ≡ true }
    requires low { (k : ℕ) → k < length heights.now → slice_index heights.now k ≤ k }
    requires brought { brought ≡ first_jump instrs.now heights.now (length heights.now) }
    ensures exact { result ≡ height_after_of instrs.now starts.now heights.now }
    ensures low { result ≤ length heights.now }
{
    let p = heights.len();
    if begins(starts, p) {
        return 0;
    }
    let before = instrs[p - 1];
    if goes_on(before) {
        leaves(heights[p - 1], before)
    } else {
        brought.unwrap_or(0)
    }
}

// Keeps what a jump brings to its target, unless a lower place jumps there.
fn keep_jump(brought: &mut Vec<Option<usize>>, instr: Instr, height: usize)
    requires { height ≤ most_instrs }
    ensures long { length brought.new.items ≡ length brought.old.items }
    ensures kept { (t : ℕ) → t < length brought.old.items →
        slice_index_or brought.new.items t None ≡
        option_or (slice_index_or brought.old.items t None) (brings instr height t) }
{
    if let Some(t) = target(instr) {
        if t < brought.len() && brought[t].is_none() {
            brought[t] = Some(leaves(height, instr));
        }
    }
}

/// What is counted from the last place back.
#[derive(Clone, Copy)]
pub enum Number {
    Stretch,
    Commands,
}

// The stretch, or the command count, of each place.
fn counts_back(
    alloc: Global,
    instrs: &[Instr],
    starts: &[u16],
    number: Number,
) -> Result<Vec<usize>, AllocError>
    requires at_most { length instrs.now ≤ most_instrs }
    requires starts { (k : ℕ) → k < length starts.now →
        slice_index starts.now k < length instrs.now }
    requires ahead { JumpsAhead instrs.now }
    ensures table { IfOk result (λ v. v.items ≡ counts_back_of number instrs.now starts.now) }
    ensures long { IfOk result (λ v. length v.items ≡ length instrs.now) }
{
    let all = instrs.len();
    let mut table = vec![in alloc; 0usize; all]?;
    for done in 0..all {
        let p = all - 1 - done;
        let later = greatest(instrs, starts, &table, p);
        table[p] = with_instr(number, instrs[p], later);
    }
    Ok(table)
}

// The number of an instruction, from the greatest among its successors.
fn with_instr(number: Number, instr: Instr, later: usize) -> usize
    requires { later ≤ most_instrs }
    ensures exact { result ≡ number_of number instr later }
    ensures low { result ≤ later + 1 }
{
    match (number, instr) {
        (_, Instr::Tick(_)) => 0,
        (Number::Stretch, Instr::Ret) | (Number::Stretch, Instr::Call(_)) => 1,
        (Number::Stretch, _) => 1 + later,
        (Number::Commands, Instr::Ret) | (Number::Commands, Instr::Call(_)) => 0,
        (Number::Commands, Instr::Do(_)) => 1 + later,
        (Number::Commands, _) => later,
    }
}

// The greatest number among the successors of a place, where a tick has none.
fn greatest(instrs: &[Instr], starts: &[u16], table: &[usize], p: usize) -> usize
    requires place { p < length instrs.now }
    requires long { length table.now ≡ length instrs.now }
    requires at_most { length instrs.now ≤ most_instrs }
    requires starts { (k : ℕ) → k < length starts.now →
        slice_index starts.now k < length instrs.now }
    requires ahead { JumpsAhead instrs.now }
    ensures exact { result ≡
        greatest_of instrs.now starts.now p (later_at instrs.now p (drop (p + 1) table.now)) }
    ensures low { (most : ℕ) → ((k : ℕ) → slice_index_or table.now k 0 ≤ most) → result ≤ most }
{
    let instr = instrs[p];
    let jumped = match target(instr) {
        Some(t) => number_at(instrs, table, t),
        None => 0,
    };
    let fallen = if goes_on(instr) && has_next(starts, instrs.len(), p) {
        number_at(instrs, table, p + 1)
    } else {
        0
    };
    if jumped < fallen { fallen } else { jumped }
}

// The number of a place, 0 at a tick.
fn number_at(instrs: &[Instr], table: &[usize], q: usize) -> usize
    requires q { q < length instrs.now }
    requires long { length table.now ≡ length instrs.now }
    ensures { result ≡
        (if is_tick_of (instr_at instrs.now q) then 0 else slice_index_or table.now q 0) }
{
    if is_tick(instrs[q]) { 0 } else { table[q] }
}
