// The gaps between the seconds in which a condition holds.
ghost use Rattle.std.specs.Prelude.{◌≡◌, ◌+◌, ◌-◌, ◌^◌, ◌<◌, ◌≤◌, ◌==◌, Bool, ℕ, if◌then◌else◌};

use crate::figures::Figures;

/// The gaps between the seconds in which a condition holds.
#[derive(Clone, Copy)]
pub struct Gaps {
    /// The last second in which it holds; 0 where it never did.
    pub last: u32,
    /// The seconds from one in which it holds to the next one.
    pub gaps: Figures,
    /// In each second, how many there are from the last one in which it holds, both counted.
    pub ages: Figures,
}

// The last second in which it holds, with a second more.
fn last_with(last: u32, second: u32, holds: bool) -> u32
    ensures { result ≡ (if holds then second else last) }
{
    if holds { second } else { last }
}

// How many seconds there are from the last one to this one; 0 where there was none.
fn since_last(last: u32, second: u32) -> u32
    ensures { result ≡ (if last == 0 then 0 else second - last) }
{
    if last == 0 {
        0
    } else {
        second.saturating_sub(last)
    }
}

// How many seconds there are from the last one to this one, where it holds in that too.
fn gap_with(last: u32, second: u32, holds: bool) -> u32
    ensures { result ≡ (if holds then (if last == 0 then 0 else second - last) else 0) }
{
    if holds { since_last(last, second) } else { 0 }
}

// How many seconds there are from the last one up to this one.
fn age_of(last: u32, second: u32) -> u32
    ensures { second < 2 ^ 31 → result ≡ (if last == 0 then 0 else second + 1 - last) }
{
    since_last(last, second.saturating_add(1))
}

impl Gaps {
    ghost use Rattle.log_sums.specs.Spells.{AreGaps};

    /// Those of no second.
    pub fn none() -> Gaps
        ensures { (h : ℕ → Bool) (from : ℕ) → AreGaps h from 0 result }
    {
        Gaps {
            last: 0,
            gaps: Figures::none(),
            ages: Figures::none(),
        }
    }

    /// Those with a second more, which count from a second on.
    pub fn show(self, from: u32, second: u32, holds: bool) -> Gaps
        ensures { (h : ℕ → Bool) (n : ℕ) → second ≡ n + 1 → second < 2 ^ 31 → h second ≡ holds → AreGaps h from n self →
            AreGaps h from second result }
    {
        let last = last_with(self.last, second, holds);
        Gaps {
            last,
            gaps: self
                .gaps
                .with_from(from, second, gap_with(self.last, second, holds)),
            ages: self.ages.with_from(from, second, age_of(last, second)),
        }
    }
}
