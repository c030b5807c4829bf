// Tallies that begin to count anew.
ghost use Rattle.std.specs.Prelude.{◌≡◌, ◌+◌, ◌<◌, ◌≤◌, ℕ, List, IfOk};
ghost use Rattle.log_sums.specs.Tallies.{AreCounts, AreTallies};

use crate::figures::Figures;
use crate::key::Key;
use crate::tally::{Counts, Tally};
use sig_types::Memory;
use std::alloc::Global;

// Counts from the next second on.
fn restart_counts(counts: Counts) -> Counts
    ensures { (c : ℕ → ℕ) (from n : ℕ) → AreCounts c from n counts → AreCounts c (n + 1) n result }
{
    Counts {
        times: Figures::none(),
        run: counts.run,
        begun: Figures::none(),
        runs: Figures::none(),
    }
}

// A tally that counts from the next second on.
fn restart_tally<K: Key>(tally: Tally<K>) -> Tally<K>
    ensures key { result.key ≡ tally.key }
    ensures counts { (c : ℕ → ℕ) (from n : ℕ) → AreCounts c from n tally.counts → AreCounts c (n + 1) n result.counts }
{
    Tally {
        key: tally.key,
        counts: restart_counts(tally.counts),
    }
}

// The same tallies.
fn copy_of<K: Key>(alloc: Global, tallies: &[Tally<K>]) -> Result<Vec<Tally<K>>, Memory>
    ensures { IfOk result (λ v. v.items ≡ tallies.now) }
{
    let mut copy = Vec::new(alloc);
    for tally in tallies {
        match copy.push(*tally) {
            Ok(()) => {}
            Err(_) => return Err(Memory),
        }
    }
    Ok(copy)
}

// Lets tallies count from the next second on.
fn restart_each<K: Key>(tallies: &mut [Tally<K>])
    ensures { (a : ℕ → List K) (from n : ℕ) → AreTallies K.code a from n tallies.old → AreTallies K.code a (n + 1) n tallies.new }
{
    for tally in tallies.iter_mut() {
        *tally = restart_tally(*tally);
    }
}

/// Tallies of the same things, which count from the next second on.
pub(crate) fn restart_tallies<K: Key>(
    alloc: Global,
    tallies: &[Tally<K>],
) -> Result<Vec<Tally<K>>, Memory>
    ensures { IfOk result (λ v. (a : ℕ → List K) (from n : ℕ) → AreTallies K.code a from n tallies.now → AreTallies K.code a (n + 1) n v.items) }
{
    let mut copy = copy_of(alloc, tallies)?;
    restart_each(copy.as_mut_slice());
    Ok(copy)
}
