// The sums of parts, record by record.
ghost use Rattle.std.specs.Prelude.{◌≡◌, ◌+◌, ◌-◌, ◌^◌, ◌<◌, ◌≤◌, ◌++◌, ◌∷◌, [], ℕ, List, IfOk, OnOk, length, min};
ghost use Rattle.sig_types.specs.declared.record.Record.{Record};
ghost use Rattle.log_sums.specs.declared.serves.Serve.{Serve};
ghost use Rattle.log_sums.specs.declared.sums.LogSums.{LogSums};
ghost use Rattle.log_sums.specs.Adding.{AddsUpTo};
ghost use Rattle.log_sums.specs.PartsAdding.{IsOver, PartsUpTo};

use crate::adding::take_record;
use crate::laws::sums_are_of_records;
use crate::restart::restart;
use crate::serves::Serve;
use crate::sums::LogSums;
use sig_types::{Memory, Record};
use std::alloc::Global;
use std::mem;

/// What the parts of a log add up to. It takes memory for each part.
#[derive(Drop)]
pub struct PartSums {
    /// How many seconds a part has, from 1.
    pub each: u32,
    /// The last second that counts.
    pub to: u32,
    /// The sums of the parts that are over.
    pub over: Vec<LogSums>,
    /// Those of the part that isn't.
    pub current: LogSums,
}

// The last second of a part that has so many seconds behind this one.
fn end_behind(second: u32, seconds: u32, to: u32) -> u32
    ensures { result ≡ min to (second + seconds) }
{
    to.min(second.saturating_add(seconds))
}

// One less.
fn less_one(n: u32) -> u32
    ensures { result ≡ n - 1 }
{
    n.saturating_sub(1)
}

// Puts the sums of a part at the end.
fn put_over(parts: &mut Vec<LogSums>, sums: LogSums) -> Result<(), Memory>
    ensures { OnOk result (parts.new.items ≡ parts.old.items ++ sums ∷ []) }
{
    match parts.push(sums) {
        Ok(()) => Ok(()),
        Err(_) => Err(Memory),
    }
}

impl PartSums {
    ghost use Rattle.log_sums.specs.Parts.{AreParts};

    /// Those of no record, where the first part begins with second `from`, each has `each` seconds, and none goes on
    /// behind `to`. In each these detectors are asked for because they serve a group.
    pub fn none(
        alloc: Global,
        from: u32,
        each: u32,
        to: u32,
        serves: &[Serve],
    ) -> Result<PartSums, Memory>
        ensures { IfOk result (λ x. (groups : ℕ) → groups ≤ 64 → 1 ≤ each → PartsUpTo groups from each to serves.now [] x) }
    {
        let end = end_behind(from, less_one(each), to);
        let over = Vec::new(alloc);
        let current = LogSums::serving(alloc, from, end, serves)?;
        Ok(PartSums {
            each,
            to,
            over,
            current,
        })
    }

    /// The sums of all parts, where the log ends.
    pub fn finish(self) -> Result<Vec<LogSums>, Memory>
        ensures { IfOk result (λ v. (groups from each to : ℕ) (serves : List Serve) (records : List Record) → 1 ≤ each →
            PartsUpTo groups from each to serves records self → AreParts groups from each to serves records v.items) }
    {
        sums_are_of_records();
        let PartSums {
            each: _,
            to: _,
            mut over,
            current,
        } = self;
        put_over(&mut over, current)?;
        Ok(over)
    }
}

// The sums of a part, where the log goes on behind it.
fn close(mut sums: LogSums) -> LogSums
    ensures sums { (groups from to : ℕ) (records : List Record) (r : Record) → to ≤ length records → AddsUpTo groups from to records sums →
        IsOver groups from to (records ++ r ∷ []) result }
    ensures serves { result.serves.items ≡ sums.serves.items }
{
    sums.goes_on = true;
    sums
}

// Begins a part with a record.
fn begin_part(alloc: Global, parts: &mut PartSums, rec: &Record) -> Result<(), Memory>
    requires past { parts.old.current.to < rec.now.second.0 }
    requires less { parts.old.current.to < parts.old.to }
    ensures { OnOk result ((groups from each to : ℕ) (serves : List Serve) (records : List Record) → groups ≤ 64 → 1 ≤ each →
        length rec.now.picture ≡ groups → rec.now.second.0 ≡ length records + 1 → rec.now.second.0 < 2 ^ 31 →
        PartsUpTo groups from each to serves records parts.old → PartsUpTo groups from each to serves (records ++ rec.now ∷ []) parts.new) }
{
    let end = end_behind(parts.current.to, parts.each, parts.to);
    let mut next = restart(alloc, &parts.current, end)?;
    take_record(alloc, &mut next, rec)?;
    let over = close(mem::replace(&mut parts.current, next));
    put_over(&mut parts.over, over)?;
    Ok(())
}

/// Takes the next record of a log. It begins a part where the one before is over, but none behind the last second that counts.
///
/// It answers `Memory` where there is no room for a part more, or for something that never came before.
pub fn take_part(alloc: Global, parts: &mut PartSums, rec: &Record) -> Result<(), Memory>
    ensures { OnOk result ((groups from each to : ℕ) (serves : List Serve) (records : List Record) → groups ≤ 64 → 1 ≤ each →
        length rec.now.picture ≡ groups → rec.now.second.0 ≡ length records + 1 → rec.now.second.0 < 2 ^ 31 →
        PartsUpTo groups from each to serves records parts.old → PartsUpTo groups from each to serves (records ++ rec.now ∷ []) parts.new) }
{
    if parts.current.to < rec.second.0 && parts.current.to < parts.to {
        return begin_part(alloc, parts, rec);
    }
    take_record(alloc, &mut parts.current, rec)?;
    Ok(())
}
