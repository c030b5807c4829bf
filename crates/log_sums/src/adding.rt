// Sums, record by record.
ghost use Rattle.std.specs.Prelude.{◌≡◌, ◌+◌, ◌-◌, ◌*◌, ◌^◌, ◌<◌, ◌≤◌, ◌++◌, ◌∷◌, [], Bool, ℕ, List, OnOk, filter, length, map, slice_index_or};
ghost use Rattle.sig_types.specs.declared.aspect.Aspect.{Aspect};
ghost use Rattle.sig_types.specs.declared.record.Record.{Record};
ghost use Rattle.sig_types.specs.declared.refused.Fault.{Fault};
ghost use Rattle.sig_types.specs.declared.refused.StageRefusal.{StageRefusal};
ghost use Rattle.sig_types.specs.declared.refused.TurnRefusal.{TurnRefusal};
ghost use Rattle.sig_types.specs.Counts.{count_in, fronts, rears};
ghost use Rattle.log_sums.specs.declared.detector.DetectorSums.{DetectorSums};
ghost use Rattle.log_sums.specs.declared.group.GroupSums.{GroupSums};
ghost use Rattle.log_sums.specs.Detectors.{AreDetectorSums};
ghost use Rattle.log_sums.specs.Groups.{AreGroupSums};
ghost use Rattle.log_sums.specs.Keys.{command_code, fault_code, turn_code};
ghost use Rattle.log_sums.specs.Tallies.{AreTallies};
ghost use Rattle.log_sums.specs.Adding.{AddsUp, AddsUpTo};
ghost use Rattle.log_sums.specs.Adding.{AreRefusalsShown};
ghost use Rattle.log_sums.specs.Early.{TellsEarly};
ghost use Rattle.log_sums.specs.Serves.{serves_of};
ghost use Rattle.log_sums.specs.Told.{alone, fault_items};

use crate::detector::DetectorSums;
use crate::early::early_of;
use crate::group::GroupSums;
use crate::items::{commands_of, rules_of, turns_of};
use crate::serves::show_serves;
use crate::sums::LogSums;
use crate::tally::{Tally, show_items};
use sig_types::{Fault, Frame, Memory, Picture, Record, StageRefusal, StageRefusals, TurnRefusal};
use std::alloc::Global;

// Takes what the groups show in a second.
fn show_groups(groups: &mut [GroupSums; 64], from: u32, second: u32, picture: &Picture)
    ensures { (a : ℕ → Aspect) (n g : ℕ) (d : GroupSums) → second ≡ n + 1 → second < 2 ^ 31 → g < length picture.now →
        a second ≡ slice_index_or picture.now g Aspect.Red → AreGroupSums a from n (slice_index_or groups.old g d) →
        AreGroupSums a from second (slice_index_or groups.new g d) }
{
    for place in 0..picture.len() {
        let at = usize::from(place);
        groups[at] = groups[at].show(from, second, picture.get(place));
    }
}

// Takes what the detectors count in a second.
fn show_detectors(detectors: &mut [DetectorSums; 64], from: u32, second: u32, frame: &Frame)
    ensures size { length detectors.new ≡ 64 }
    ensures each { (f r : ℕ → ℕ) (n p : ℕ) (d : DetectorSums) → second ≡ n + 1 → second < 2 ^ 31 → p < 64 →
        f second ≡ count_in fronts (p + 1) frame.now → r second ≡ count_in rears (p + 1) frame.now →
        AreDetectorSums f r from n (slice_index_or detectors.old p d) → AreDetectorSums f r from second (slice_index_or detectors.new p d) }
{
    for place in 0..64u8 {
        let (fronts, rears) = frame.get(place);
        let at = usize::from(place);
        detectors[at] = detectors[at].show(from, second, fronts, rears);
    }
}

// Takes the refused stage commands of a second.
fn show_commands(
    alloc: Global,
    tallies: &mut Vec<Tally<StageRefusal>>,
    from: u32,
    second: u32,
    stages: &StageRefusals,
) -> Result<(), Memory>
    ensures { OnOk result ((a : ℕ → List StageRefusal) (n : ℕ) → second ≡ n + 1 → second < 2 ^ 31 → a second ≡ stages.now →
        AreTallies command_code a from n tallies.old.items → AreTallies command_code a from second tallies.new.items) }
{
    let items = commands_of(alloc, stages)?;
    show_items(tallies, from, second, items.as_slice())
}

// Takes the refused turns of a second.
fn show_turns(
    tallies: &mut Vec<Tally<TurnRefusal>>,
    from: u32,
    second: u32,
    turns: &[TurnRefusal],
) -> Result<(), Memory>
    requires { length turns.now ≤ 64 }
    ensures { OnOk result ((a : ℕ → List TurnRefusal) (n : ℕ) → second ≡ n + 1 → second < 2 ^ 31 → a second ≡ turns.now →
        AreTallies turn_code a from n tallies.old.items → AreTallies turn_code a from second tallies.new.items) }
{
    show_items(tallies, from, second, turns)
}

// Takes the fault of a second, if it has one.
fn show_fault(
    tallies: &mut Vec<Tally<Fault>>,
    from: u32,
    second: u32,
    fault: Option<Fault>,
) -> Result<(), Memory>
    ensures { OnOk result ((a : ℕ → List Fault) (n : ℕ) → second ≡ n + 1 → second < 2 ^ 31 → a second ≡ fault_items fault →
        AreTallies fault_code a from n tallies.old.items → AreTallies fault_code a from second tallies.new.items) }
{
    match fault {
        Some(fault) => show_items(tallies, from, second, &[fault]),
        None => show_items(tallies, from, second, &[]),
    }
}

// Takes the refused turns of a second whose groups had no green yet.
fn show_early(
    alloc: Global,
    tallies: &mut Vec<Tally<TurnRefusal>>,
    groups: &[GroupSums; 64],
    from: u32,
    rec: &Record,
) -> Result<(), Memory>
    ensures { OnOk result ((early : ℕ → Bool) (a : ℕ → List TurnRefusal) (n : ℕ) → TellsEarly (length rec.now.picture) groups.now early →
        rec.now.second.0 ≡ n + 1 → rec.now.second.0 < 2 ^ 31 → a rec.now.second.0 ≡ map alone (filter (λ r. early r.group.0) rec.now.turns) →
        AreTallies turn_code a from n tallies.old.items → AreTallies turn_code a from rec.now.second.0 tallies.new.items) }
{
    let items = early_of(alloc, groups, rec.picture.len(), &rec.turns)?;
    show_turns(tallies, from, rec.second.0, items.as_slice())?;
    Ok(())
}

// Takes the refusals of a second.
fn show_refusals(alloc: Global, sums: &mut LogSums, rec: &Record) -> Result<(), Memory>
    ensures { OnOk result (AreRefusalsShown rec.now sums.old sums.new) }
{
    show_commands(
        alloc,
        &mut sums.commands,
        sums.from,
        rec.second.0,
        &rec.stages,
    )?;
    let turns = turns_of(alloc, &rec.turns)?;
    let rules = rules_of(alloc, turns.as_slice())?;
    show_turns(&mut sums.turns, sums.from, rec.second.0, turns.as_slice())?;
    show_turns(&mut sums.rules, sums.from, rec.second.0, rules.as_slice())
}

// Takes a second that counts, or is before those.
fn take_second(alloc: Global, sums: &mut LogSums, rec: &Record) -> Result<(), Memory>
    ensures adds { OnOk result ((groups : ℕ) (records : List Record) → length rec.now.picture ≡ groups → rec.now.second.0 ≡ length records + 1 →
        rec.now.second.0 < 2 ^ 31 → AddsUp groups sums.old.from records sums.old →
        AddsUp groups sums.old.from (records ++ rec.now ∷ []) sums.new) }
    ensures from { OnOk result (sums.new.from ≡ sums.old.from) }
    ensures to { OnOk result (sums.new.to ≡ sums.old.to) }
    ensures goes_on { OnOk result (sums.new.goes_on ≡ sums.old.goes_on) }
    ensures serves { OnOk result (serves_of sums.new.serves.items ≡ serves_of sums.old.serves.items) }
{
    let from = sums.from;
    let second = rec.second.0;
    sums.seconds = second;
    show_groups(&mut sums.groups, from, second, &rec.picture);
    show_detectors(&mut sums.detectors, from, second, &rec.frame);
    show_serves(&mut sums.serves, from, second, &rec.picture, &rec.frame);
    show_items(&mut sums.places, from, second, &[rec.place])?;
    show_fault(&mut sums.faults, from, second, rec.fault)?;
    show_early(alloc, &mut sums.early, &sums.groups, from, rec)?;
    show_refusals(alloc, sums, rec)?;
    Ok(())
}

/// Takes the next record of a log. What is behind the last second that counts is told by that alone, that the log goes on.
pub fn take_record(alloc: Global, sums: &mut LogSums, rec: &Record) -> Result<(), Memory>
    ensures sums { OnOk result ((groups from to : ℕ) (records : List Record) → length rec.now.picture ≡ groups → rec.now.second.0 ≡ length records + 1 →
        rec.now.second.0 < 2 ^ 31 → AddsUpTo groups from to records sums.old → AddsUpTo groups from to (records ++ rec.now ∷ []) sums.new) }
    ensures serves { OnOk result (serves_of sums.new.serves.items ≡ serves_of sums.old.serves.items) }
{
    if rec.second.0 > sums.to {
        sums.goes_on = true;
        return Ok(());
    }
    take_second(alloc, sums, rec)?;
    Ok(())
}
