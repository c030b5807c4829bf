// Detectors of a detector file that the program never reads.
ghost use Rattle.std.specs.Prelude.{◌≡◌, ◌≤◌, ◌++◌, ◌==◌, IfOk, OnOk};
ghost use Rattle.std.specs.List.{list_any};
ghost use Rattle.program_check.specs.Warnings as warnings_of;

use crate::calls::{Call, CallKind, Named, names};
use crate::detectors::{DetectorRead, detector_read};
use crate::warnings::{Meant, ProgramWarning, Warned, warn};
use det_stream::Frames;
use sig_types::DetNo;
use std::alloc::{AllocError, Global};

fn is_detector(named: Named) -> bool
    ensures { result ≡ warnings_of.is_detector named }
{
    match named {
        Named::Detector => true,
        Named::Group | Named::Stage | Named::Interstage | Named::Nothing => false,
    }
}

fn is_detector_reading(kind: CallKind) -> bool
    ensures { result ≡ warnings_of.is_detector_reading kind }
{
    match kind {
        CallKind::Reading(_) => is_detector(names(kind)),
        CallKind::Command(_) => false,
    }
}

// Whether a call reads a detector whose number is not known.
fn hides_detector(call: &Call) -> bool
    ensures { result ≡ warnings_of.hides_detector call.now }
{
    is_detector_reading(call.kind) && call.first.is_none()
}

fn hides_any(calls: &[Call]) -> bool
    ensures { result ≡ list_any warnings_of.hides_detector calls.now }
{
    calls.iter().any(|call| hides_detector(call))
}

// Puts the reading of a known detector behind the others.
fn note_read(call: &Call, reads: &mut Vec<DetectorRead>) -> Result<(), AllocError>
    ensures { OnOk result (reads.new.items ≡ reads.old.items
        ++ warnings_of.read_of_detector call.now) }
{
    let Some(detector) = detector_read(call) else {
        return Ok(());
    };
    reads.push(DetectorRead {
        line: call.line,
        kind: call.kind,
        detector,
    })?;
    Ok(())
}

// The readings of known detectors.
fn detector_reads(alloc: Global, calls: &[Call]) -> Result<Vec<DetectorRead>, AllocError>
    ensures { IfOk result (λ v. v.items ≡ warnings_of.detector_reads calls.now) }
{
    let mut reads = Vec::new(alloc);
    for call in calls {
        note_read(call, &mut reads)?;
    }
    Ok(reads)
}

// Whether one of these readings is of the detector.
fn is_read(reads: &[DetectorRead], detector: DetNo) -> bool
    ensures { result ≡ list_any (λ r. r.detector.0 == detector.0) reads.now }
{
    reads.iter().any(|read| read.detector.0 == detector.0)
}

// Warns of a detector that is not silent and that none of these readings reads.
fn warn_of_detector(
    frames: &Frames,
    reads: &[DetectorRead],
    detector: DetNo,
    warned: &mut Vec<Warned>,
) -> Result<(), AllocError>
    requires at_least { 1 ≤ detector.0 }
    requires at_most { detector.0 ≤ 64 }
    ensures { OnOk result
        (warned.new.items ≡ warned.old.items ++ warnings_of.unread_detector frames.now reads.now detector.0) }
{
    if frames.busy_lines(detector.0 - 1).is_empty() || is_read(reads, detector) {
        return Ok(());
    }
    warn(
        warned,
        0,
        Meant::Line,
        ProgramWarning::UnreadDetector(detector),
    )
}

// Warns of the first so many detectors, of those that are not silent and that none of these readings reads.
#[tactic(auto, unfolding(crate::specs::Warnings::first_unread))]
fn warn_of_first(
    frames: &Frames,
    reads: &[DetectorRead],
    many: u8,
    warned: &mut Vec<Warned>,
) -> Result<(), AllocError>
    requires { many ≤ 64 }
    ensures { OnOk result
        (warned.new.items ≡ warned.old.items ++ warnings_of.first_unread frames.now reads.now many) }
{
    for d in 0..many {
        warn_of_detector(frames, reads, DetNo(d + 1), warned)?;
    }
    Ok(())
}

/// Warns of the detectors that the program never reads and that are not silent, where there are frames and the program reads
/// others, each by a known number.
pub fn warn_of_unread(
    alloc: Global,
    calls: &[Call],
    frames: &Option<Frames>,
    warned: &mut Vec<Warned>,
) -> Result<(), AllocError>
    ensures { OnOk result (warned.new.items ≡ warned.old.items ++ warnings_of.unread_where frames.now calls.now) }
{
    let Some(frames) = frames else {
        return Ok(());
    };
    let reads = detector_reads(alloc, calls)?;
    if hides_any(calls) || reads.is_empty() {
        return Ok(());
    }
    warn_of_first(frames, &reads, 64, warned)
}
