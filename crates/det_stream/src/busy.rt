// The lines in which a detector has counts.
ghost use Rattle.std.specs.Prelude.{◌≡◌, ◌≤◌, ◌++◌, length, map, IfOk, OnOk};
ghost use Rattle.det_stream.specs.Busy.{KeepsLine, AreSilent, counts_in_line, line_kept};
ghost use Rattle.det_stream.specs.Totals.{HasAtMost};

use sig_types::{Frame, Memory};
use std::alloc::Global;

// The halves of a line's number.
const HALF: u32 = 65536;

/// A line in which a detector has fronts or rears. It takes 6 bytes: the number of the line in two halves, and a byte for each
/// count, which is at most 99.
#[derive(Clone, Copy)]
pub struct BusyLine {
    high: u16,
    low: u16,
    /// The fronts and rears, each at most 99.
    pub counts: (u8, u8),
}

impl BusyLine {
    ghost use Rattle.det_stream.specs.Busy.{busy_line, line_number};

    // The line with this number, in which there are these counts.
    #[tactic(auto, unfolding(crate::specs::Busy::busy_line))]
    fn new(line: u32, counts: (u32, u32)) -> BusyLine
        requires { (counts.0 ≤ 99) × (counts.1 ≤ 99) }
        ensures { result ≡ busy_line line counts }
    {
        BusyLine {
            high: (line / HALF) as u16,
            low: (line % HALF) as u16,
            counts: (counts.0 as u8, counts.1 as u8),
        }
    }

    // The number of the line, from 0.
    #[tactic(auto, unfolding(crate::specs::Busy::line_number))]
    fn line(&self) -> u32
        ensures { result ≡ line_number self.now }
    {
        HALF * u32::from(self.high) + u32::from(self.low)
    }
}

/// Lists for 64 detectors, of no line. It answers `Memory` where there is no room for them.
pub fn no_lines(alloc: Global) -> Result<Vec<Vec<BusyLine>>, Memory>
    ensures { IfOk result (λ r. AreSilent (map (λ v. v.items) r.items)) }
{
    let mut detectors = Vec::new(alloc);
    for _place in 0..64u8 {
        if detectors.push(Vec::new(alloc)).is_err() {
            return Err(Memory);
        }
    }
    Ok(detectors)
}

// Puts a line after the earlier ones of a detector, where it has counts.
fn keep(lines: &mut Vec<BusyLine>, line: u32, counts: (u32, u32)) -> Result<(), Memory>
    requires { (counts.0 ≤ 99) × (counts.1 ≤ 99) }
    ensures { OnOk result (lines.new.items ≡ lines.old.items ++ line_kept line counts) }
{
    if counts.0 == 0 && counts.1 == 0 {
        return Ok(());
    }
    if lines.push(BusyLine::new(line, counts)).is_err() {
        return Err(Memory);
    }
    Ok(())
}

/// Puts the line of this frame, counted from 0, after the earlier ones of each detector that has counts in it. It answers
/// `Memory` where one of them has no room.
pub fn keep_line(detectors: &mut Vec<Vec<BusyLine>>, line: u32, frame: &Frame) -> Result<(), Memory>
    requires size { length detectors.old.items ≡ 64 }
    requires counts { HasAtMost 99 frame.now }
    ensures { OnOk result
        (KeepsLine line frame.now (map (λ v. v.items) detectors.old.items) (map (λ v. v.items) detectors.new.items)) }
{
    let (low, high) = frame.span();
    for place in low..high {
        match keep(&mut detectors[usize::from(place)], line, frame.get(place)) {
            Ok(()) => {}
            Err(memory) => return Err(memory),
        }
    }
    Ok(())
}

/// The counts in the line with this number, (0, 0) where none are kept.
pub fn counts_in(lines: &[BusyLine], line: usize) -> (u32, u32)
    ensures { result ≡ counts_in_line line lines.now }
{
    for busy in lines {
        if busy.line() as usize == line {
            return (u32::from(busy.counts.0), u32::from(busy.counts.1));
        }
    }
    (0, 0)
}
