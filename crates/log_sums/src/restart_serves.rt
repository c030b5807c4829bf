// What detectors saw that serve a group, where it begins to count anew.
ghost use Rattle.std.specs.Prelude.{◌≡◌, ◌+◌, ◌<◌, ◌≤◌, ℕ, IfOk, length, slice_index_or};
ghost use Rattle.sig_types.specs.declared.aspect.Aspect.{Aspect};
ghost use Rattle.log_sums.specs.ServeSums.{AreServeSums};
ghost use Rattle.log_sums.specs.declared.serves.Served.{Served};
ghost use Rattle.log_sums.specs.Serves.{serves_of};

use crate::figures::Figures;
use crate::long_figures::LongFigures;
use crate::serve_sums::ServeSums;
use crate::serves::Served;
use sig_types::Memory;
use std::alloc::Global;

// What they saw, from the next second on.
fn restart_sums(sums: ServeSums) -> ServeSums
    ensures { (a : ℕ → Aspect) (f : ℕ → ℕ) (from n : ℕ) → AreServeSums a f from n sums → AreServeSums a f (n + 1) n result }
{
    ServeSums {
        run: sums.run,
        served: sums.served,
        waiting: sums.waiting,
        in_green: 0,
        not_in_green: 0,
        per_green: LongFigures::none(),
        waits: Figures::none(),
    }
}

// The same detectors, and what they saw from the next second on.
fn restart_served(served: Served) -> Served
    ensures serve { result.serve ≡ served.serve }
    ensures sums { (a : ℕ → Aspect) (f : ℕ → ℕ) (from n : ℕ) → AreServeSums a f from n served.sums → AreServeSums a f (n + 1) n result.sums }
{
    Served {
        serve: served.serve,
        sums: restart_sums(served.sums),
    }
}

/// Those of the same detectors, which count from the next second on.
pub(crate) fn restart_serves(alloc: Global, serves: &[Served]) -> Result<Vec<Served>, Memory>
    ensures serves { IfOk result (λ v. serves_of v.items ≡ serves_of serves.now) }
    ensures sums { IfOk result (λ v. (a : ℕ → Aspect) (f : ℕ → ℕ) (from n i : ℕ) (d : Served) → i < length serves.now →
        AreServeSums a f from n (slice_index_or serves.now i d).sums → AreServeSums a f (n + 1) n (slice_index_or v.items i d).sums) }
{
    let mut copy = Vec::new(alloc);
    for served in serves {
        match copy.push(restart_served(*served)) {
            Ok(()) => {}
            Err(_) => return Err(Memory),
        }
    }
    Ok(copy)
}
