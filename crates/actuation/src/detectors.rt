// All detectors.
ghost use Rattle.std.specs.Prelude.{◌≡◌, ◌+◌, ◌<◌, ◌≤◌, ℕ, length, replicate, slice_index_or, IsTrue, ◌↔◌};
ghost use Rattle.actuation.specs.Detector.{at, nothing, advanced, with_fronts_cleared, with_rears_cleared, CanTakeAt};

use crate::detector::{Detector, advance};
use sig_types::Frame;

const MOST_FRONTS: u64 = 2147483647;

/// No front, no rear, and nothing cleared.
pub fn unseen_detectors() -> [Detector; 64]
    ensures { result ≡ replicate 64 nothing }
{
    [Detector {
        fronts: 0,
        rears: 0,
        fronts_cleared: 0,
        rears_cleared: 0,
        occupied_since: 0,
        last_detected: 0,
    }; 64]
}

fn sum(old: u32, more: u32) -> u64
    ensures { result ≡ old + more }
{
    u64::from(old) + u64::from(more)
}

// Whether a detector's rears stay within its fronts, and these within their limit, with one more frame.
fn can_take_at(detectors: &[Detector; 64], frame: &Frame, place: u8) -> bool
    requires place { place < 64 }
    requires size { length detectors.now ≡ 64 }
    ensures holds { IsTrue result ↔ CanTakeAt detectors.now frame.now place }
    ensures size { length frame.now ≡ 64 }
{
    let old = detectors[place as usize];
    let new = frame.get(place);
    let fronts = sum(old.fronts, new.0);
    let rears = sum(old.rears, new.1);
    rears <= fronts && fronts <= MOST_FRONTS
}

/// Whether with one more frame each detector's rears stay within its fronts, and these within their limit.
pub fn can_take(detectors: &[Detector; 64], frame: &Frame) -> bool
    requires size { length detectors.now ≡ 64 }
    requires within { (p : ℕ) → p < 64 → (at detectors.now p).rears ≤ (at detectors.now p).fronts }
    requires at_most { (p : ℕ) → p < 64 → (at detectors.now p).fronts ≤ 2147483647 }
    ensures holds { IsTrue result ↔ ((p : ℕ) → p < 64 → CanTakeAt detectors.now frame.now p) }
    ensures size { IsTrue result → length frame.now ≡ 64 }
{
    let (low, high) = frame.span();
    for place in low..high {
        if !can_take_at(detectors, frame, place) {
            return false;
        }
    }
    true
}

/// Takes a frame into each detector.
pub fn advance_all(detectors: &mut [Detector; 64], frame: &Frame, second: u32)
    requires size { length detectors.old ≡ 64 }
    requires holds { (p : ℕ) → p < 64 → CanTakeAt detectors.old frame.now p }
    requires second { 1 ≤ second }
    ensures each { (p : ℕ) → p < 64 →
        at detectors.new p ≡ advanced (at detectors.old p) (slice_index_or frame.now p (0, 0)) second }
    ensures size { length detectors.new ≡ 64 }
{
    let (low, high) = frame.span();
    for place in low..high {
        advance(&mut detectors[place as usize], frame.get(place), second);
    }
}

/// Clears the fronts of the detector at that place.
pub fn clear_fronts_at(detectors: &mut [Detector; 64], place: usize)
    requires size { length detectors.old ≡ 64 }
    requires place { place < 64 }
    ensures here { at detectors.new place ≡ with_fronts_cleared (at detectors.old place) }
    ensures others { (p : ℕ) → p < 64 → (p ≡ place → ⊥) → at detectors.new p ≡ at detectors.old p }
    ensures size { length detectors.new ≡ 64 }
{
    let old = detectors[place];
    detectors[place] = Detector {
        fronts_cleared: old.fronts,
        ..old
    };
}

/// Clears the rears of the detector at that place.
pub fn clear_rears_at(detectors: &mut [Detector; 64], place: usize)
    requires size { length detectors.old ≡ 64 }
    requires place { place < 64 }
    ensures here { at detectors.new place ≡ with_rears_cleared (at detectors.old place) }
    ensures others { (p : ℕ) → p < 64 → (p ≡ place → ⊥) → at detectors.new p ≡ at detectors.old p }
    ensures size { length detectors.new ≡ 64 }
{
    let old = detectors[place];
    detectors[place] = Detector {
        rears_cleared: old.rears,
        ..old
    };
}
