// How often things came.
ghost use Rattle.std.specs.Prelude.{◌≡◌, ◌+◌, ◌-◌, ◌^◌, ◌<◌, ◌≤◌, ◌==◌, ◌&&◌, ◌++◌, ◌∷◌, [], not, min, true, false, List, ℕ, OnOk, length, if◌then◌else◌};
ghost use Rattle.std.specs.List.{list_any};
ghost use Rattle.log_sums.specs.Tallies.{AreCounts, AreTallies, AwaitItems, times_in, times_of};

use crate::figures::Figures;
use crate::key::Key;
use crate::spells::{one_if, run_with};
use sig_types::Memory;

/// How often something came.
#[derive(Clone, Copy)]
pub struct Counts {
    /// How often in each second: the sum is how often in all, and `count` in how many seconds.
    pub times: Figures,
    /// In how many seconds it came without a break, up to the last one; 0 where it didn't come in that.
    pub run: u32,
    /// The seconds in which such a run begins, 1 for each.
    pub begun: Figures,
    /// How long it came without a break, in each second; the greatest is the longest run.
    pub runs: Figures,
}

/// How often one thing came.
#[derive(Clone, Copy)]
pub struct Tally<K> {
    /// What came.
    pub key: K,
    /// How often.
    pub counts: Counts,
}

// Whether something came.
fn came(times: u32) -> bool
    ensures { result ≡ not (times == 0) }
{
    times != 0
}

// Whether a run begins.
fn begins(run: u32, holds: bool) -> bool
    ensures { result ≡ (holds && (run == 0)) }
{
    holds && run == 0
}

// The seconds of a run that lie in the seconds from `from` on.
fn stretch(run: u32, from: u32, second: u32) -> u32
    ensures { second < 2 ^ 31 → result ≡ min run (second + 1 - from) }
{
    run.min(second.saturating_add(1).saturating_sub(from))
}

impl Counts {
    /// Those of what never came.
    pub fn none() -> Counts
        ensures { (c : ℕ → ℕ) (from n : ℕ) → ((t : ℕ) → 1 ≤ t → t ≤ n → c t ≡ 0) → AreCounts c from n result }
    {
        Counts {
            times: Figures::none(),
            run: 0,
            begun: Figures::none(),
            runs: Figures::none(),
        }
    }

    /// Those with a second more, in which it came so often; they count from a second on.
    pub fn show(self, from: u32, second: u32, times: u32) -> Counts
        ensures { (c : ℕ → ℕ) (n : ℕ) → second ≡ n + 1 → second < 2 ^ 31 → c second ≡ times → AreCounts c from n self →
            AreCounts c from second result }
    {
        let holds = came(times);
        let run = run_with(self.run, holds);
        Counts {
            times: self.times.with_from(from, second, times),
            run,
            begun: self
                .begun
                .with_from(from, second, one_if(begins(self.run, holds))),
            runs: self
                .runs
                .with_from(from, second, stretch(run, from, second)),
        }
    }
}

// Whether there is a tally of what has this code.
fn has_tally<K: Key>(tallies: &[Tally<K>], code: u64) -> bool
    ensures { result ≡ list_any (λ x. K.code x.key == code) tallies.now }
{
    for tally in tallies {
        if tally.key.code() == code {
            return true;
        }
    }
    false
}

// How many of these have this code.
fn times_in<K: Key>(items: &[K], code: u64) -> u32
    requires { length items.now < 2 ^ 31 }
    ensures { result ≡ times_in K.code code items.now }
{
    let mut times: u32 = 0;
    for item in items {
        if item.code() == code {
            times += 1;
        }
    }
    times
}

// Puts a tally of what came, unless there is one; it is as if it never came.
fn add_key<K: Key>(tallies: &mut Vec<Tally<K>>, key: K) -> Result<(), Memory>
    ensures { OnOk result ((a : ℕ → List K) (from n : ℕ) (seen : List K) → AwaitItems K.code a from n seen tallies.old.items →
        AwaitItems K.code a from n (seen ++ key ∷ []) tallies.new.items) }
{
    if has_tally(tallies.as_slice(), key.code()) {
        return Ok(());
    }
    match tallies.push(Tally {
        key,
        counts: Counts::none(),
    }) {
        Ok(()) => Ok(()),
        Err(_) => Err(Memory),
    }
}

// Puts a tally of each of these that has none.
fn add_keys<K: Key>(tallies: &mut Vec<Tally<K>>, items: &[K]) -> Result<(), Memory>
    ensures { OnOk result ((a : ℕ → List K) (from n : ℕ) → AreTallies K.code a from n tallies.old.items →
        AwaitItems K.code a from n items.now tallies.new.items) }
{
    for item in items {
        add_key(tallies, *item)?;
    }
    Ok(())
}

// A tally with a second more, in which these came.
fn show_tally<K: Key>(tally: Tally<K>, from: u32, second: u32, items: &[K]) -> Tally<K>
    requires { length items.now < 2 ^ 31 }
    ensures key { result.key ≡ tally.key }
    ensures counts { (a : ℕ → List K) (n : ℕ) → second ≡ n + 1 → second < 2 ^ 31 → a second ≡ items.now →
        AreCounts (times_of K.code a (K.code tally.key)) from n tally.counts →
        AreCounts (times_of K.code a (K.code tally.key)) from second result.counts }
{
    let times = times_in(items, tally.key.code());
    Tally {
        key: tally.key,
        counts: tally.counts.show(from, second, times),
    }
}

// Counts what came in a second.
fn show_each<K: Key>(tallies: &mut [Tally<K>], from: u32, second: u32, items: &[K])
    requires { length items.now < 2 ^ 31 }
    ensures { (a : ℕ → List K) (n : ℕ) → second ≡ n + 1 → second < 2 ^ 31 → a second ≡ items.now →
        AwaitItems K.code a from n items.now tallies.old → AreTallies K.code a from second tallies.new }
{
    for tally in tallies.iter_mut() {
        *tally = show_tally(*tally, from, second, items);
    }
}

/// Counts what came in a second more; it counts from a second on.
///
/// It answers `Memory` where there is no room for one more that never came before.
pub fn show_items<K: Key>(
    tallies: &mut Vec<Tally<K>>,
    from: u32,
    second: u32,
    items: &[K],
) -> Result<(), Memory>
    requires { length items.now < 2 ^ 31 }
    ensures { OnOk result ((a : ℕ → List K) (n : ℕ) → second ≡ n + 1 → second < 2 ^ 31 → a second ≡ items.now →
        AreTallies K.code a from n tallies.old.items → AreTallies K.code a from second tallies.new.items) }
{
    add_keys(tallies, items)?;
    show_each(tallies.as_mut_slice(), from, second, items);
    Ok(())
}
