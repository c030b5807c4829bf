// What the seconds of a detector add up to.
ghost use Rattle.std.specs.Prelude.{◌≡◌, ◌+◌, ◌*◌, ◌^◌, ◌<◌, ◌≤◌, ◌&&◌, ◌||◌, ◌==◌, nat_lt, not, ℕ, if◌then◌else◌};

use crate::figures::Figures;
use crate::gaps::Gaps;
use crate::spells::Spells;

/// What the seconds of a detector add up to.
#[derive(Clone, Copy)]
pub struct DetectorSums {
    /// Its fronts.
    pub fronts: Figures,
    /// How many fronts it had from the first second on.
    pub fronts_so_far: u64,
    /// How many rears it had from the first second on.
    pub rears_so_far: u64,
    /// The spells in which it was occupied.
    pub occupied: Spells,
    /// The gaps between the seconds with a detection.
    pub detected: Gaps,
}

// Whether it is occupied that had so many fronts and rears.
fn is_occupied(fronts: u64, rears: u64) -> bool
    ensures { result ≡ nat_lt rears fronts }
{
    rears < fronts
}

// Whether it has a detection.
fn is_detected(fronts: u32, occupied: bool) -> bool
    ensures { result ≡ (not (fronts == 0) || occupied) }
{
    fronts != 0 || occupied
}

impl DetectorSums {
    ghost use Rattle.log_sums.specs.Detectors.{AreDetectorSums};

    /// Those of no second.
    pub fn none() -> DetectorSums
        ensures { (fronts rears : ℕ → ℕ) (from : ℕ) → AreDetectorSums fronts rears from 0 result }
    {
        DetectorSums {
            fronts: Figures::none(),
            fronts_so_far: 0,
            rears_so_far: 0,
            occupied: Spells::none(),
            detected: Gaps::none(),
        }
    }

    /// Those with a second more, in which it has these fronts and rears; they count from a second on.
    pub fn show(self, from: u32, second: u32, fronts: u32, rears: u32) -> DetectorSums
        ensures { (f r : ℕ → ℕ) (n : ℕ) → second ≡ n + 1 → second < 2 ^ 31 → f second ≡ fronts → r second ≡ rears →
            AreDetectorSums f r from n self → AreDetectorSums f r from second result }
    {
        let fronts_so_far = self.fronts_so_far.saturating_add(u64::from(fronts));
        let rears_so_far = self.rears_so_far.saturating_add(u64::from(rears));
        let occupied = is_occupied(fronts_so_far, rears_so_far);
        let detected = is_detected(fronts, occupied);
        DetectorSums {
            fronts: self.fronts.with_from(from, second, fronts),
            fronts_so_far,
            rears_so_far,
            occupied: self.occupied.show(from, second, occupied),
            detected: self.detected.show(from, second, detected),
        }
    }
}
