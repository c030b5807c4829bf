// All frames of a detector file.
ghost use Rattle.std.specs.Prelude.{◌≡◌, ◌<◌, ◌≤◌, [], length, map, slice_index_or, IfOk, Err};
ghost use Rattle.std.specs.Option.{ForSome};
ghost use Rattle.sig_io.specs.Outside.{Rose};
ghost use Rattle.det_stream.specs.Answers.{IsReadAll};
ghost use Rattle.det_stream.specs.Busy.{busy_counts};
ghost use Rattle.sig_types.specs.Counts.{AreFrames};

use crate::busy::{BusyLine, counts_in, keep_line, no_lines};
use crate::lines::Lines;
use crate::refusal::StreamRefusal;
use sig_io::Files;
use sig_types::{Frame, Memory};
use std::alloc::Global;
use std::marker::Model;

/// The frames of a file, as the lines in which each detector has counts. Contracts see them as the list of frames.
#[derive(Drop)]
pub struct Frames {
    detectors: Vec<Vec<BusyLine>>,
    lines: u32,
}

impl Model for Frames {
    ghost use Rattle.std.specs.Prelude.{List, map};
    ghost use Rattle.sig_types.specs.Counts.{Counts};
    ghost use Rattle.det_stream.specs.Busy.{AreKept, frames_of};

    ghost Value = { List Counts };

    ghost view = { λ f. frames_of (map (λ v. v.items) f.detectors.items) f.lines };

    ghost invariant = { λ f. AreKept f.lines (map (λ v. v.items) f.detectors.items) };
}

impl Frames {
    /// The number of frames.
    pub fn len(&self) -> usize
        ensures { result ≡ length self.now }
    {
        self.lines as usize
    }

    /// The lines in which the detector at that place has counts, in their order.
    pub fn busy_lines(&self, place: u8) -> &[BusyLine]
        requires { place < 64 }
        ensures { map (λ b. b.counts) result.now ≡ busy_counts place self.now }
    {
        &self.detectors[usize::from(place)]
    }

    /// Puts the frame at that place, counted from 0, into a frame, whatever that had before. It searches the lines of each detector
    /// from the first one on.
    pub fn get(&self, place: usize, frame: &mut Frame)
        requires { place < length self.now }
        ensures { frame.new ≡ slice_index_or self.now place [] }
    {
        frame.clear();
        for detector in 0..64u8 {
            let lines = &self.detectors[usize::from(detector)];
            frame.set(detector, counts_in(lines, place));
        }
    }
}

/// Reads a detector file from its first line to its end: all its frames, or its first refused line.
///
/// It answers `Fault` only where a read failed.
pub fn read_all<F: Files>(alloc: Global, files: &mut F, name: &str) -> Result<Frames, StreamRefusal>
    ensures frames { IfOk result (λ f. AreFrames f) }
    ensures told { ForSome (F.told files.old) (λ file. IsReadAll (file name.now) result) }
    ensures contents_stay { F.told files.new ≡ F.told files.old }
    ensures later { F.faults files.old ≤ F.faults files.new }
    ensures cause { result ≡ Err StreamRefusal.Fault → Rose (F.faults files.old) (F.faults files.new) }
{
    let Ok(mut lines) = Lines::make(alloc, name) else {
        return Err(StreamRefusal::Memory);
    };
    let Ok(mut detectors) = no_lines(alloc) else {
        return Err(StreamRefusal::Memory);
    };
    let mut line = 0u32;
    loop {
        match lines.next_frame(files) {
            Ok(true) => {}
            Ok(false) => {
                return Ok(Frames {
                    detectors,
                    lines: line,
                });
            }
            Err(refusal) => return Err(refusal),
        }
        match keep_line(&mut detectors, line, lines.frame()) {
            Ok(()) => line += 1,
            Err(Memory) => return Err(StreamRefusal::Memory),
        }
    }
}
