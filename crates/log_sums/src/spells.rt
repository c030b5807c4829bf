// The spells of a condition.
ghost use Rattle.std.specs.Prelude.{◌≡◌, ◌+◌, ◌^◌, ◌<◌, ◌≤◌, ◌&&◌, ◌==◌, Bool, ℕ, if◌then◌else◌};

use crate::figures::Figures;

/// The spells of a condition: the runs of seconds in which it holds.
#[derive(Clone, Copy)]
pub struct Spells {
    /// For how many seconds it has held without a break, up to the last one; 0 where it doesn't hold in that.
    pub run: u32,
    /// The seconds in which it holds, 1 for each.
    pub held: Figures,
    /// The seconds in which a spell begins, 1 for each.
    pub begun: Figures,
    /// The seconds of each spell that is over.
    pub over: Figures,
}

// 1 where it holds.
pub(crate) fn one_if(holds: bool) -> u32
    ensures { result ≡ (if holds then 1 else 0) }
{
    if holds { 1 } else { 0 }
}

// For how many seconds it holds without a break, with a second more.
pub(crate) fn run_with(run: u32, holds: bool) -> u32
    ensures { run < 2 ^ 31 → result ≡ (if holds then run + 1 else 0) }
{
    if holds { run.saturating_add(1) } else { 0 }
}

// How many seconds a spell has that is over where it doesn't hold any more.
fn over_with(run: u32, holds: bool) -> u32
    ensures { result ≡ (if holds then 0 else run) }
{
    if holds { 0 } else { run }
}

impl Spells {
    ghost use Rattle.log_sums.specs.Spells.{AreSpells, begins};

    /// Those of no second.
    pub fn none() -> Spells
        ensures { (h : ℕ → Bool) (from : ℕ) → AreSpells h from 0 result }
    {
        Spells {
            run: 0,
            held: Figures::none(),
            begun: Figures::none(),
            over: Figures::none(),
        }
    }

    /// Whether a spell begins in the next second, where the condition holds in that or not.
    pub fn begins(self, holds: bool) -> bool
        ensures { result ≡ (holds && (self.run == 0)) }
    {
        holds && self.run == 0
    }

    /// Those with a second more, which count from a second on.
    pub fn show(self, from: u32, second: u32, holds: bool) -> Spells
        ensures { (h : ℕ → Bool) (n : ℕ) → second ≡ n + 1 → second < 2 ^ 31 → h second ≡ holds → AreSpells h from n self →
            AreSpells h from second result }
    {
        let begins = self.begins(holds);
        Spells {
            run: run_with(self.run, holds),
            held: self.held.with_from(from, second, one_if(holds)),
            begun: self.begun.with_from(from, second, one_if(begins)),
            over: self
                .over
                .with_from(from, second, over_with(self.run, holds)),
        }
    }
}
