// The detectors' readings.
ghost use Rattle.std.specs.Prelude.{◌≡◌, ◌+◌, ◌-◌, ◌<◌, ◌≤◌, ℕ, List, [], ◌∷◌, ◌++◌, length, true, IsTrue, ◌↔◌};
ghost use Rattle.sig_types.specs.Counts.{Counts, Takes, fronts, rears};
ghost use Rattle.sig_types.specs.Detectors.{Clear, ClearsUntil, is_detector, detector_reading};
ghost use Rattle.actuation.specs.Detector.{at, IsSized};

use crate::detector::{Detector, read};
use crate::detectors::{advance_all, can_take, clear_fronts_at, clear_rears_at, unseen_detectors};
use sig_types::{DetNo, Frame, MOST_SECONDS, ReadingKind};

/// The readings of detectors 1 to 64.
#[derive(Drop)]
pub struct Actuation {
    detectors: [Detector; 64],
    seconds: u32,
    ghost at_most: { seconds ≤ 604801 },
    ghost size: { length detectors ≡ 64 },
    ghost sized: { (p : ℕ) → p < 64 → IsSized seconds (at detectors p) },
}

impl Actuation {
    ghost use Rattle.actuation.specs.Stands.{StandsFor};

    /// No frame was taken, and nothing was cleared.
    #[tactic(auto, unfolding(crate::specs::Stands::StandsFor))]
    pub fn new() -> Actuation
        ensures { StandsFor result [] [] }
    {
        Actuation {
            detectors: unseen_detectors(),
            seconds: 0,
        }
    }

    /// Whether a further frame can be taken: fewer than 604,801 were taken, each detector's fronts so far stay within
    /// 2,147,483,647, and its rears so far within its fronts so far.
    #[tactic(auto, unfolding(crate::specs::Stands::StandsFor))]
    pub fn takes(&self, frame: &Frame) -> bool
        ensures { (frames : List Counts) (clears : List Clear) → StandsFor self.now frames clears →
            (IsTrue result ↔ Takes frames frame.now) }
    {
        self.seconds < MOST_SECONDS && can_take(&self.detectors, frame)
    }

    /// Takes the frame of the next second.
    #[tactic(auto, unfolding(crate::specs::Stands::StandsFor))]
    pub fn take(&mut self, frame: &Frame)
        requires { (frames : List Counts) × (clears : List Clear) × StandsFor self.old frames clears × Takes frames frame.now }
        ensures { (frames : List Counts) (clears : List Clear) → StandsFor self.old frames clears →
            StandsFor self.new (frames ++ frame.now ∷ []) clears }
    {
        let second = self.seconds + 1;
        advance_all(&mut self.detectors, frame, second);
        self.seconds = second;
    }

    /// A detector's reading in the second of the last frame; None exactly where the number names no detector. A clear in
    /// that second is not asked for yet.
    #[tactic(auto, unfolding(crate::specs::Stands::StandsFor))]
    pub fn reading(&self, kind: ReadingKind, d: i32) -> Option<i32>
        requires { is_detector kind ≡ true }
        ensures { (frames : List Counts) (clears : List Clear) → StandsFor self.now frames clears → 0 < length frames →
            ClearsUntil clears (length frames - 1) →
            result ≡ detector_reading frames clears kind d }
    {
        match DetNo::named(d) {
            None => None,
            Some(found) => Some(read(&self.detectors[found.0 as usize - 1], kind, self.seconds)),
        }
    }

    /// Clears a detector's fronts in the second of the last frame.
    #[tactic(auto, unfolding(crate::specs::Stands::StandsFor))]
    pub fn clear_fronts(&mut self, d: DetNo)
        requires some { 1 ≤ d.0 }
        requires most { d.0 ≤ 64 }
        ensures { (frames : List Counts) (clears : List Clear) → StandsFor self.old frames clears →
            StandsFor self.new frames (record { second = length frames; kind = fronts; detector = d.0 } ∷ clears) }
    {
        clear_fronts_at(&mut self.detectors, d.0 as usize - 1);
    }

    /// Clears a detector's rears in the second of the last frame.
    #[tactic(auto, unfolding(crate::specs::Stands::StandsFor))]
    pub fn clear_rears(&mut self, d: DetNo)
        requires some { 1 ≤ d.0 }
        requires most { d.0 ≤ 64 }
        ensures { (frames : List Counts) (clears : List Clear) → StandsFor self.old frames clears →
            StandsFor self.new frames (record { second = length frames; kind = rears; detector = d.0 } ∷ clears) }
    {
        clear_rears_at(&mut self.detectors, d.0 as usize - 1);
    }
}
