// The counts that the tick has loaded.
ghost use Rattle.std.specs.Prelude.{◌≡◌, ◌+◌, ◌*◌, ◌^◌, ◌<◌, true, replicate, slice_index_or, slice_set};
ghost use Rattle.det_board.specs.Passes.{GrowsTo, IsInFour, events_at as events_at_spec, events_from as events_from_spec, gain_of};

use sig_types::Frame;
use std::marker::Model;

// Most detectors count nothing in most seconds, so the sum of the fronts and rears of each four is kept: since none of them
// falls, one comparison tells that all have stayed.
/// The fronts and rears of 64 detectors. Contracts see them as the list of these pairs.
#[derive(Drop)]
pub struct Totals {
    counts: Frame,
    sums: [u64; 16],
}

impl Model for Totals {
    ghost use Rattle.std.specs.Prelude.{ℕ, List};
    ghost use Rattle.det_board.specs.Passes.{AreSums};

    ghost Value = { List (ℕ × ℕ) };

    ghost view = { λ t. t.counts };

    ghost invariant = { λ t. AreSums t.counts t.sums };
}

// The fronts and rears of a detector together.
fn events_at(counts: &Frame, place: u8) -> u64
    requires { place < 64 }
    ensures sum { result ≡ events_at_spec counts.now place }
    ensures few { result < 2 ^ 33 }
{
    let (fronts, rears) = counts.get(place);
    u64::from(fronts) + u64::from(rears)
}

// The fronts and rears of four detectors together, from this place on.
fn events_from(counts: &Frame, place: u8) -> u64
    requires { place + 3 < 64 }
    ensures { result ≡ events_from_spec counts.now place }
{
    let first = events_at(counts, place) + events_at(counts, place + 1);
    let last = events_at(counts, place + 2) + events_at(counts, place + 3);
    first + last
}

impl Totals {
    /// The counts of detectors that have counted nothing.
    pub fn zero() -> Totals
        ensures { result ≡ replicate 64 (0, 0) }
    {
        Totals {
            counts: Frame::empty(),
            sums: [0; 16],
        }
    }

    /// The fronts and rears at that place.
    pub fn get(&self, place: u8) -> (u32, u32)
        requires { place < 64 }
        ensures { result ≡ slice_index_or self.now place (0, 0) }
    {
        self.counts.get(place)
    }

    /// Whether the detectors of that four, which now have so many fronts and rears together, have counted nothing more.
    #[inline(always)]
    pub fn are_still(&self, four: u8, events: u64) -> bool
        requires { four < 16 }
        ensures { result ≡ true → events ≡ events_from_spec self.now (4 * four) }
    {
        events == self.sums[usize::from(four)]
    }

    /// Takes over the counts that the detector at that place now has, and answers what it gained.
    pub fn grow(&mut self, four: u8, place: u8, counts: (u32, u32)) -> (u32, u32)
        requires of_four { IsInFour four place }
        requires grows { GrowsTo self.old place counts }
        ensures counts { self.new ≡ slice_set self.old place counts }
        ensures gained { result ≡ gain_of self.old place counts }
    {
        let before = self.counts.get(place);
        self.counts.set(place, counts);
        self.sums[usize::from(four)] = events_from(&self.counts, 4 * four);
        (counts.0 - before.0, counts.1 - before.1)
    }
}
