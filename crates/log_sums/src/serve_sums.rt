// What the fronts of detectors add up to that serve a group.
ghost use Rattle.std.specs.Prelude.{◌≡◌, ◌+◌, ◌*◌, ◌^◌, ◌<◌, ◌≤◌, ◌==◌, ℕ, if◌then◌else◌};
ghost use Rattle.sig_types.specs.declared.aspect.Aspect.{Aspect};

use crate::figures::Figures;
use crate::group::is_green;
use crate::long_figures::{LongFigures, long_counted};
use crate::spells::run_with;
use sig_types::Aspect;

/// What the fronts of detectors add up to that serve a group.
#[derive(Clone, Copy)]
pub struct ServeSums {
    /// For how many seconds the group has been green without a break, up to the last one; 0 where it isn't green in that.
    pub run: u32,
    /// The fronts so far of the green that runs.
    pub served: u64,
    /// How many seconds there are from the first front since the last green up to the last second; 0 where there is none.
    pub waiting: u32,
    /// The fronts in green.
    pub in_green: u64,
    /// All others.
    pub not_in_green: u64,
    /// The fronts of each green that is over, and one more.
    pub per_green: LongFigures,
    /// From the first front since a green to the beginning of the next one.
    pub waits: Figures,
}

// The fronts where it is green.
fn fronts_in(green: bool, fronts: u64) -> u64
    ensures { result ≡ (if green then fronts else 0) }
{
    if green { fronts } else { 0 }
}

// The fronts where it isn't.
fn fronts_out(green: bool, fronts: u64) -> u64
    ensures { result ≡ (if green then 0 else fronts) }
{
    if green { 0 } else { fronts }
}

// The fronts of the green that runs, with a second more.
fn served_with(served: u64, green: bool, fronts: u64) -> u64
    ensures { served + fronts < 2 ^ 64 → result ≡ (if green then served + fronts else 0) }
{
    if green {
        served.saturating_add(fronts)
    } else {
        0
    }
}

// The fronts of a green that is over where it isn't green any more, and one more.
fn served_by(run: u32, served: u64, green: bool) -> u64
    ensures { served < 2 ^ 63 → result ≡ (if green then 0 else (if run == 0 then 0 else served + 1)) }
{
    if green || run == 0 {
        0
    } else {
        served.saturating_add(1)
    }
}

// 1 where there is a front.
fn one_for(fronts: u64) -> u32
    ensures { result ≡ (if fronts == 0 then 0 else 1) }
{
    if fronts == 0 { 0 } else { 1 }
}

// How many seconds there are from the first front since the last green, with a second more.
fn waiting_with(waiting: u32, green: bool, fronts: u64) -> u32
    ensures { waiting < 2 ^ 31 →
        result ≡ (if green then 0 else (if waiting == 0 then (if fronts == 0 then 0 else 1) else waiting + 1)) }
{
    if green {
        0
    } else if waiting == 0 {
        one_for(fronts)
    } else {
        waiting.saturating_add(1)
    }
}

// How long it took from the first front to the green that begins.
fn waited(waiting: u32, green: bool) -> u32
    ensures { result ≡ (if green then waiting else 0) }
{
    if green { waiting } else { 0 }
}

impl ServeSums {
    ghost use Rattle.log_sums.specs.ServeSums.{AreServeSums};

    /// Those of no second.
    pub fn none() -> ServeSums
        ensures { (a : ℕ → Aspect) (f : ℕ → ℕ) (from : ℕ) → AreServeSums a f from 0 result }
    {
        ServeSums {
            run: 0,
            served: 0,
            waiting: 0,
            in_green: 0,
            not_in_green: 0,
            per_green: LongFigures::none(),
            waits: Figures::none(),
        }
    }

    /// Those with a second more, in which the group shows this, and there are so many fronts; they count from a second on.
    pub fn show(self, from: u32, second: u32, aspect: Aspect, fronts: u64) -> ServeSums
        ensures { (a : ℕ → Aspect) (f : ℕ → ℕ) (n : ℕ) → second ≡ n + 1 → second < 2 ^ 20 → fronts < 2 ^ 38 → a second ≡ aspect →
            f second ≡ fronts → AreServeSums a f from n self → AreServeSums a f from second result }
    {
        let green = is_green(aspect);
        let over = served_by(self.run, self.served, green);
        ServeSums {
            run: run_with(self.run, green),
            served: served_with(self.served, green, fronts),
            waiting: waiting_with(self.waiting, green, fronts),
            in_green: self
                .in_green
                .saturating_add(long_counted(from, second, fronts_in(green, fronts))),
            not_in_green: self
                .not_in_green
                .saturating_add(long_counted(from, second, fronts_out(green, fronts))),
            per_green: self
                .per_green
                .with(second, long_counted(from, second, over)),
            waits: self
                .waits
                .with_from(from, second, waited(self.waiting, green)),
        }
    }
}
