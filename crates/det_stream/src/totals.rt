// The counts so far of all detectors.
ghost use Rattle.std.specs.Prelude.{◌≡◌, ◌+◌, ◌*◌, ◌<◌, ◌≤◌, true, length, replicate, slice_set, OnOk};
ghost use Rattle.det_stream.specs.Entries.{IsJudged};
ghost use Rattle.det_stream.specs.Stream.{ahead_reason};
ghost use Rattle.det_stream.specs.Totals.{RearsWithinFronts, SilentWithinFronts, counts_at, least_ahead_in, with_counts};

use crate::refusal::StreamWhy;
use sig_types::{DetNo, Frame};
use std::marker::Model;

/// The fronts and rears of detectors 1 to 64 so far; place p is detector p + 1. Contracts see it as the list of these 64
/// pairs.
#[derive(Drop)]
pub struct Totals {
    counts: [(u32, u32); 64],
}

impl Model for Totals {
    ghost use Rattle.std.specs.Prelude.{◌≡◌, ℕ, List, length};

    ghost Value = { List (ℕ × ℕ) };

    ghost view = { λ t. t.counts };

    ghost invariant = { λ t. length t.counts ≡ 64 };
}

impl Totals {
    /// No front and no rear so far.
    pub fn zero() -> Totals
        ensures { result ≡ replicate 64 (0, 0) }
    {
        Totals {
            counts: [(0, 0); 64],
        }
    }

    /// The fronts and rears at that place.
    pub fn get(&self, place: u8) -> (u32, u32)
        requires { place < 64 }
        ensures item { result ≡ counts_at self.now place }
        ensures length { length self.now ≡ 64 }
    {
        self.counts[usize::from(place)]
    }

    /// Puts fronts and rears at that place.
    pub fn set(&mut self, place: u8, item: (u32, u32))
        requires { place < 64 }
        ensures { self.new ≡ slice_set self.old place item }
    {
        self.counts[usize::from(place)] = item;
    }
}

/// Adds fronts and rears to the counts so far at that place; whether `within` holds, and there aren't more rears than fronts
/// there then.
pub fn add_counts(totals: &mut Totals, place: u8, counts: (u32, u32), within: bool) -> bool
    requires place { place < 64 }
    requires so_far { ((counts_at totals.old place).0 ≤ 99 * 604799) × ((counts_at totals.old place).1 ≤ 99 * 604799) }
    requires few { (counts.0 ≤ 99) × (counts.1 ≤ 99) }
    ensures added { totals.new ≡ with_counts totals.old place counts }
    ensures size { length totals.old ≡ 64 }
    ensures fits { result ≡ true →
        (within ≡ true) × ((counts_at totals.old place).1 + counts.1 ≤ (counts_at totals.old place).0 + counts.0) }
{
    let (fronts, rears) = totals.get(place);
    let (fronts, rears) = (fronts + counts.0, rears + counts.1);
    totals.set(place, (fronts, rears));
    within && rears <= fronts
}

/// Finds the least detector with more rears than fronts in the counts so far, which have this frame's. Only detectors with
/// counts in it are asked.
pub fn judge_totals(totals: &Totals, frame: &Frame) -> Result<(), StreamWhy>
    requires { SilentWithinFronts frame.now totals.now }
    ensures judged { IsJudged (ahead_reason (least_ahead_in totals.now)) result }
    ensures within_fronts { OnOk result (RearsWithinFronts totals.now) }
{
    let (low, high) = frame.span();
    for place in low..high {
        let (fronts, rears) = totals.get(place);
        if fronts < rears {
            return Err(StreamWhy::RearsAhead(DetNo(place + 1)));
        }
    }
    Ok(())
}
