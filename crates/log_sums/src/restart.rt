// Sums that begin to count anew, and know what was before.
ghost use Rattle.std.specs.Prelude.{◌≡◌, ◌+◌, ◌^◌, ◌<◌, ◌≤◌, Bool, ℕ, List, IfOk, length, slice_index_or};
ghost use Rattle.sig_types.specs.declared.aspect.Aspect.{Aspect};
ghost use Rattle.sig_types.specs.declared.record.Record.{Record};
ghost use Rattle.log_sums.specs.declared.detector.DetectorSums.{DetectorSums};
ghost use Rattle.log_sums.specs.declared.group.GroupSums.{GroupSums};
ghost use Rattle.log_sums.specs.Detectors.{AreDetectorSums};
ghost use Rattle.log_sums.specs.Groups.{AreGroupSums};
ghost use Rattle.log_sums.specs.Spells.{AreGaps, AreSpells};
ghost use Rattle.log_sums.specs.Adding.{AddsUp, AddsUpTo};
ghost use Rattle.log_sums.specs.Serves.{serves_of};

use crate::detector::DetectorSums;
use crate::figures::Figures;
use crate::gaps::Gaps;
use crate::group::GroupSums;
use crate::restart_serves::restart_serves;
use crate::restart_tallies::restart_tallies;
use crate::spells::Spells;
use crate::sums::LogSums;
use sig_types::Memory;
use std::alloc::Global;

// Spells that count from the next second on.
fn restart_spells(spells: Spells) -> Spells
    ensures { (h : ℕ → Bool) (from n : ℕ) → AreSpells h from n spells → AreSpells h (n + 1) n result }
{
    Spells {
        run: spells.run,
        held: Figures::none(),
        begun: Figures::none(),
        over: Figures::none(),
    }
}

// Gaps that count from the next second on.
fn restart_gaps(gaps: Gaps) -> Gaps
    ensures { (h : ℕ → Bool) (from n : ℕ) → AreGaps h from n gaps → AreGaps h (n + 1) n result }
{
    Gaps {
        last: gaps.last,
        gaps: Figures::none(),
        ages: Figures::none(),
    }
}

// Sums of a group that count from the next second on.
fn restart_group(sums: GroupSums) -> GroupSums
    ensures { (a : ℕ → Aspect) (from n : ℕ) → AreGroupSums a from n sums → AreGroupSums a (n + 1) n result }
{
    GroupSums {
        greens: restart_spells(sums.greens),
        reds: restart_spells(sums.reds),
        cycles: restart_gaps(sums.cycles),
    }
}

// Sums of a detector that count from the next second on.
fn restart_detector(sums: DetectorSums) -> DetectorSums
    ensures { (f r : ℕ → ℕ) (from n : ℕ) → AreDetectorSums f r from n sums → AreDetectorSums f r (n + 1) n result }
{
    DetectorSums {
        fronts: Figures::none(),
        fronts_so_far: sums.fronts_so_far,
        rears_so_far: sums.rears_so_far,
        occupied: restart_spells(sums.occupied),
        detected: restart_gaps(sums.detected),
    }
}

// The same of all groups.
fn restart_groups(groups: &mut [GroupSums; 64])
    ensures { (a : ℕ → Aspect) (from n g : ℕ) (d : GroupSums) → g < 64 → AreGroupSums a from n (slice_index_or groups.old g d) →
        AreGroupSums a (n + 1) n (slice_index_or groups.new g d) }
{
    for place in 0..64usize {
        groups[place] = restart_group(groups[place]);
    }
}

// The same of all detectors.
fn restart_detectors(detectors: &mut [DetectorSums; 64])
    ensures size { length detectors.new ≡ 64 }
    ensures each { (f r : ℕ → ℕ) (from n p : ℕ) (d : DetectorSums) → p < 64 → AreDetectorSums f r from n (slice_index_or detectors.old p d) →
        AreDetectorSums f r (n + 1) n (slice_index_or detectors.new p d) }
{
    for place in 0..64usize {
        detectors[place] = restart_detector(detectors[place]);
    }
}

/// Sums of the same records, which count from the second behind them to `to`.
pub(crate) fn restart(alloc: Global, sums: &LogSums, to: u32) -> Result<LogSums, Memory>
    ensures sums { IfOk result (λ x. (groups from : ℕ) (records : List Record) → groups ≤ 64 → length records < 2 ^ 31 → length records ≤ to →
        AddsUp groups from records sums.now → AddsUpTo groups (length records + 1) to records x) }
    ensures serves { IfOk result (λ x. serves_of x.serves.items ≡ serves_of sums.now.serves.items) }
{
    let mut groups = sums.groups;
    restart_groups(&mut groups);
    let mut detectors = sums.detectors;
    restart_detectors(&mut detectors);
    let places = restart_tallies(alloc, &sums.places)?;
    let commands = restart_tallies(alloc, &sums.commands)?;
    let turns = restart_tallies(alloc, &sums.turns)?;
    let rules = restart_tallies(alloc, &sums.rules)?;
    let faults = restart_tallies(alloc, &sums.faults)?;
    let early = restart_tallies(alloc, &sums.early)?;
    let serves = restart_serves(alloc, &sums.serves)?;
    Ok(LogSums {
        from: sums.seconds.saturating_add(1),
        to,
        seconds: sums.seconds,
        goes_on: false,
        groups,
        detectors,
        places,
        commands,
        turns,
        rules,
        early,
        faults,
        serves,
    })
}
