// The counts of a second, in plain numbers.
ghost use Rattle.std.specs.Prelude.{◌≡◌, ◌≤◌, ◌<◌, ◌+◌, ℕ, length, slice_index_or};
ghost use Rattle.junction_calls.specs.Numbers.{IsFrame};

use sig_types::Frame;

/// The fronts and the rears of detectors 1 to 64 in one second; place p is detector p + 1.
#[repr(C)]
#[derive(Clone, Copy)]
pub struct DetectorCounts {
    pub fronts: [u32; 64],
    pub rears: [u32; 64],
}

// The greatest of the sixteen counts from a place on.
fn most_from(counts: &[u32; 64], at: usize) -> u32
    requires { at + 16 ≤ 64 }
    ensures { (p : ℕ) → at ≤ p → p < at + 16 → slice_index_or counts.now p 0 ≤ result }
{
    let mut most = 0;
    for place in at..at + 16 {
        most = most.max(counts[place]);
    }
    most
}

// Puts the sixteen counts from a place on into a frame.
fn put_from(counts: &DetectorCounts, at: u8, frame: &mut Frame)
    requires room { at + 16 ≤ 64 }
    requires size { length frame.old ≡ 64 }
    ensures size { length frame.new ≡ 64 }
    ensures put { (p : ℕ) → at ≤ p → p < at + 16 →
        slice_index_or frame.new p (0, 0) ≡ (slice_index_or counts.now.fronts p 0, slice_index_or counts.now.rears p 0) }
    ensures before { (p : ℕ) → p < at → slice_index_or frame.new p (0, 0) ≡ slice_index_or frame.old p (0, 0) }
    ensures behind { (p : ℕ) → at + 16 ≤ p → slice_index_or frame.new p (0, 0) ≡ slice_index_or frame.old p (0, 0) }
{
    for place in at..at + 16 {
        let from = usize::from(place);
        frame.set(place, (counts.fronts[from], counts.rears[from]));
    }
}

/// The frame of these counts.
pub fn frame_of(counts: &DetectorCounts) -> Frame
    ensures { IsFrame counts.now result }
{
    let mut frame = Frame::empty();
    // sixteen at a time: most seconds have few counts
    for part in 0u8..4 {
        let at = 16 * part;
        let from = usize::from(at);
        if most_from(&counts.fronts, from) > 0 || most_from(&counts.rears, from) > 0 {
            put_from(counts, at, &mut frame);
        }
    }
    frame
}
