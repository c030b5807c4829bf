// The detector counts of a second.
ghost use Rattle.std.specs.Prelude.{◌≡◌, ℕ, ◌<◌, ◌≤◌, List, length, replicate, slice_index_or, slice_set};
ghost use Rattle.sig_types.specs.Counts.{IsZeroOutside};

use std::marker::Model;

// Most seconds have counts of few detectors, so the places of the first and the last of them are kept beside the counts.
/// The fronts and rears of detectors 1 to 64 in one second; place p is detector p + 1. Contracts see it as the list of
/// these 64 pairs.
#[derive(Drop)]
pub struct Frame {
    counts: [(u32, u32); 64],
    low: u8,
    high: u8,
}

impl Model for Frame {
    ghost use Rattle.std.specs.Prelude.{◌≡◌, ◌≤◌, ℕ, List, length};
    ghost use Rattle.sig_types.specs.Counts.{IsZeroOutside};

    ghost Value = { List (ℕ × ℕ) };

    ghost view = { λ f. f.counts };

    ghost invariant = { λ f. (length f.counts ≡ 64) × (f.low ≤ 64) × (f.high ≤ 64) × IsZeroOutside f.low f.high f.counts };
}

// So many places are cleared or copied at once, whatever their counts: most sites have no more detectors, and a length that
// is known beforehand costs no guess.
const FEW: u8 = 16;

// Clears the first places.
fn clear_few(counts: &mut [(u32, u32)])
    requires { 16 ≤ length counts.old }
    ensures size { length counts.new ≡ length counts.old }
    ensures first { (p : ℕ) → p < 16 → slice_index_or counts.new p (0, 0) ≡ (0, 0) }
    ensures rest { (p : ℕ) → 16 ≤ p → slice_index_or counts.new p (0, 0) ≡ slice_index_or counts.old p (0, 0) }
{
    for place in 0..FEW {
        counts[usize::from(place)] = (0, 0);
    }
}

// Clears the places outside which there is nothing.
fn clear_span(counts: &mut [(u32, u32)], low: u8, high: u8)
    requires inside { high ≤ length counts.old }
    requires outside { IsZeroOutside low high counts.old }
    ensures size { length counts.new ≡ length counts.old }
    ensures zero { (p : ℕ) → slice_index_or counts.new p (0, 0) ≡ (0, 0) }
{
    for place in low..high {
        counts[usize::from(place)] = (0, 0);
    }
}

// Copies the first places.
fn copy_few(counts: &mut [(u32, u32)], other: &[(u32, u32)])
    requires size { 16 ≤ length counts.old }
    requires other { 16 ≤ length other.now }
    ensures size { length counts.new ≡ length counts.old }
    ensures first { (p : ℕ) → p < 16 → slice_index_or counts.new p (0, 0) ≡ slice_index_or other.now p (0, 0) }
    ensures rest { (p : ℕ) → 16 ≤ p → slice_index_or counts.new p (0, 0) ≡ slice_index_or counts.old p (0, 0) }
{
    let few = usize::from(FEW);
    counts[..few].copy_from_slice(&other[..few]);
}

// Copies the places outside which the other one has nothing over cleared ones.
fn copy_span(counts: &mut [(u32, u32)], other: &[(u32, u32)], low: u8, high: u8)
    requires size { high ≤ length counts.old }
    requires other { high ≤ length other.now }
    requires outside { IsZeroOutside low high other.now }
    requires zero { (p : ℕ) → slice_index_or counts.old p (0, 0) ≡ (0, 0) }
    ensures size { length counts.new ≡ length counts.old }
    ensures same { (p : ℕ) → slice_index_or counts.new p (0, 0) ≡ slice_index_or other.now p (0, 0) }
{
    for place in low..high {
        counts[usize::from(place)] = other[usize::from(place)];
    }
}

impl Frame {
    /// A second without a front or a rear.
    pub fn empty() -> Frame
        ensures { result ≡ replicate 64 (0, 0) }
    {
        Frame {
            counts: [(0, 0); 64],
            low: 64,
            high: 0,
        }
    }

    /// The fronts and rears at that place.
    pub fn get(&self, place: u8) -> (u32, u32)
        requires { place < 64 }
        ensures item { result ≡ slice_index_or self.now place (0, 0) }
        ensures length { length self.now ≡ 64 }
    {
        self.counts[usize::from(place)]
    }

    /// Two places, the second not counted, outside which no detector has a front or a rear. Where no detector has any, the first
    /// may be greater than the second.
    pub fn span(&self) -> (u8, u8)
        ensures outside { IsZeroOutside result.0 result.1 self.now }
        ensures low { result.0 ≤ 64 }
        ensures high { result.1 ≤ 64 }
        ensures length { length self.now ≡ 64 }
    {
        (self.low, self.high)
    }

    /// Puts fronts and rears at that place.
    pub fn set(&mut self, place: u8, item: (u32, u32))
        requires { place < 64 }
        ensures items { self.new ≡ slice_set self.old place item }
        ensures length { length self.new ≡ 64 }
    {
        self.counts[usize::from(place)] = item;
        if item.0 != 0 || item.1 != 0 {
            self.low = self.low.min(place);
            self.high = self.high.max(place + 1);
        }
    }

    /// Takes all fronts and rears away.
    pub fn clear(&mut self)
        ensures { self.new ≡ replicate 64 (0, 0) }
    {
        if self.high <= FEW {
            clear_few(&mut self.counts);
        } else {
            clear_span(&mut self.counts, self.low, self.high);
        }
        self.low = 64;
        self.high = 0;
    }

    /// The same counts.
    pub fn copy(&self) -> Frame
        ensures counts { result ≡ self.now }
        ensures length { length self.now ≡ 64 }
    {
        Frame {
            counts: self.counts,
            low: self.low,
            high: self.high,
        }
    }

    /// Takes over the counts of another frame.
    pub fn copy_from(&mut self, other: &Frame)
        ensures counts { self.new ≡ other.now }
        ensures length { length other.now ≡ 64 }
    {
        if self.high <= FEW && other.high <= FEW {
            copy_few(&mut self.counts, &other.counts);
        } else {
            clear_span(&mut self.counts, self.low, self.high);
            copy_span(&mut self.counts, &other.counts, other.low, other.high);
        }
        self.low = other.low;
        self.high = other.high;
    }
}
