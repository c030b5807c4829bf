// What the records of a log add up to.
ghost use Rattle.std.specs.Prelude.{◌≡◌, ◌<◌, ◌≤◌, ℕ, [], IfOk, length, slice_index_or};
ghost use Rattle.sig_types.specs.declared.aspect.Aspect.{Aspect};
ghost use Rattle.log_sums.specs.declared.detector.DetectorSums.{DetectorSums};
ghost use Rattle.log_sums.specs.declared.group.GroupSums.{GroupSums};
ghost use Rattle.log_sums.specs.Detectors.{AreDetectorSums};
ghost use Rattle.log_sums.specs.Groups.{AreGroupSums};

use crate::detector::DetectorSums;
use crate::group::GroupSums;
use crate::serves::{Serve, Served, none_served};
use crate::tally::Tally;
use sig_types::{Fault, Memory, StagePlace, StageRefusal, TurnRefusal};
use std::alloc::Global;

/// What the records of a log add up to. It takes memory for each stage, interstage and kind of refusal and fault, and none for a
/// second.
#[derive(Drop)]
pub struct LogSums {
    /// The first second that counts.
    pub from: u32,
    /// The last one.
    pub to: u32,
    /// How many seconds were taken, from second 1 on.
    pub seconds: u32,
    /// Whether the log goes on behind the last second that counts.
    pub goes_on: bool,
    /// What each group showed; of those that there are.
    pub groups: [GroupSums; 64],
    /// What each detector counted.
    pub detectors: [DetectorSums; 64],
    /// The stages and interstages.
    pub places: Vec<Tally<StagePlace>>,
    /// The refused stage commands.
    pub commands: Vec<Tally<StageRefusal>>,
    /// The refused turns.
    pub turns: Vec<Tally<TurnRefusal>>,
    /// The same by group and rule, whatever group stood in the way.
    pub rules: Vec<Tally<TurnRefusal>>,
    /// Those of groups that had no green yet, from the first second on.
    pub early: Vec<Tally<TurnRefusal>>,
    /// The faults.
    pub faults: Vec<Tally<Fault>>,
    /// The detectors that are asked for because they serve a group.
    pub serves: Vec<Served>,
}

// The sums of 64 groups over no second.
fn no_groups() -> [GroupSums; 64]
    ensures { (g : ℕ) (d : GroupSums) (a : ℕ → Aspect) (from : ℕ) → g < 64 → AreGroupSums a from 0 (slice_index_or result g d) }
{
    [GroupSums::none(); 64]
}

// The sums of 64 detectors over no second.
fn no_detectors() -> [DetectorSums; 64]
    ensures size { length result ≡ 64 }
    ensures each { (p : ℕ) (d : DetectorSums) (f r : ℕ → ℕ) (from : ℕ) → p < 64 → AreDetectorSums f r from 0 (slice_index_or result p d) }
{
    [DetectorSums::none(); 64]
}

impl LogSums {
    ghost use Rattle.log_sums.specs.Adding.{AddsUpTo};
    ghost use Rattle.log_sums.specs.Serves.{serves_of};

    /// Those of no second, where the seconds from `from` to `to` count, and no detectors are asked for.
    pub fn none(alloc: Global, from: u32, to: u32) -> LogSums
        ensures sums { (groups : ℕ) → groups ≤ 64 → AddsUpTo groups from to [] result }
        ensures serves { result.serves.items ≡ [] }
    {
        let groups = no_groups();
        let detectors = no_detectors();
        let places = Vec::new(alloc);
        let commands = Vec::new(alloc);
        let turns = Vec::new(alloc);
        let rules = Vec::new(alloc);
        let early = Vec::new(alloc);
        let faults = Vec::new(alloc);
        let serves = Vec::new(alloc);
        LogSums {
            from,
            to,
            seconds: 0,
            goes_on: false,
            groups,
            detectors,
            places,
            commands,
            turns,
            rules,
            early,
            faults,
            serves,
        }
    }

    /// The same, where these detectors are asked for because they serve a group.
    pub fn serving(alloc: Global, from: u32, to: u32, serves: &[Serve]) -> Result<LogSums, Memory>
        ensures sums { IfOk result (λ x. (groups : ℕ) → groups ≤ 64 → AddsUpTo groups from to [] x) }
        ensures serves { IfOk result (λ x. serves_of x.serves.items ≡ serves.now) }
    {
        let served = none_served(alloc, serves)?;
        let mut sums = LogSums::none(alloc, from, to);
        sums.serves = served;
        Ok(sums)
    }
}
