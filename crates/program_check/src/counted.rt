// Commands and readings that want others: counts that are never cleared, a cycle that is never set, ways between stages.
ghost use Rattle.std.specs.Prelude.{◌≡◌, ◌++◌, List, flat_map, nat_eq, not, OnOk, IfOk};
ghost use Rattle.std.specs.List.{filter_map, list_any};
ghost use Rattle.sig_types.specs.Detectors as detectors_of;
ghost use Rattle.program_check.specs.Counted as counted;
ghost use Rattle.program_check.specs.Firsts.{firsts_beyond, unless_seen, with_key};
ghost use Rattle.program_check.specs.declared.detectors.DetectorRead.{DetectorRead};
ghost use Rattle.program_check.specs.Warnings.{knows_ways, ways_of};

use crate::called::all_calls;
use crate::calls::{Call, CallKind};
use crate::detectors::DetectorRead;
use crate::warnings::{Meant, ProgramWarning, Warned, warn};
use sig_types::{CommandKind, DetNo, ReadingKind};
use std::alloc::{AllocError, Global};
use vap_check::Checked;

/// What is counted of a detector until it is cleared.
#[derive(Clone, Copy, PartialEq, Eq)]
pub enum Count {
    Fronts,
    Rears,
}

/// Whether a command is of this kind.
pub fn is_same_command(kind: CommandKind, wanted: CommandKind) -> bool
    ensures { result ≡ counted.is_kind_of_command kind wanted }
{
    kind == wanted
}

/// Whether this is a command of this kind.
pub fn is_command(kind: CallKind, wanted: CommandKind) -> bool
    ensures { result ≡ counted.is_command wanted kind }
{
    match kind {
        CallKind::Command(kind) => is_same_command(kind, wanted),
        CallKind::Reading(_) => false,
    }
}

/// Whether a reading is of this kind.
pub fn is_same_kind(kind: ReadingKind, wanted: ReadingKind) -> bool
    ensures { result ≡ counted.is_kind_of_reading kind wanted }
{
    kind == wanted
}

fn is_reading(kind: CallKind, wanted: ReadingKind) -> bool
    ensures { result ≡ counted.is_reading wanted kind }
{
    match kind {
        CallKind::Command(_) => false,
        CallKind::Reading(kind) => is_same_kind(kind, wanted),
    }
}

fn reading_of(count: Count) -> ReadingKind
    ensures { result ≡ counted.reading_of count }
{
    match count {
        Count::Fronts => ReadingKind::FrontEnds,
        Count::Rears => ReadingKind::RearEnds,
    }
}

fn clearing_of(count: Count) -> CommandKind
    ensures { result ≡ counted.clearing_of count }
{
    match count {
        Count::Fronts => CommandKind::ClearFronts,
        Count::Rears => CommandKind::ClearRears,
    }
}

// The known detector of which a call reads this count.
fn count_detector(count: Count, call: &Call) -> Option<DetNo>
    ensures { detectors_of.detector_number result ≡ counted.count_detector count call.now }
{
    if is_reading(call.kind, reading_of(count)) {
        DetNo::named(call.first?)
    } else {
        None
    }
}

// Puts a reading of a detector behind the others, unless one of that detector was seen before.
fn note_first(
    read: DetectorRead,
    seen: &mut Vec<u8>,
    reads: &mut Vec<DetectorRead>,
) -> Result<(), AllocError>
    ensures seen { OnOk result (seen.new.items ≡ with_key nat_eq (λ r. r.detector.0) seen.old.items read) }
    ensures reads { OnOk result (reads.new.items ≡ reads.old.items ++ unless_seen nat_eq (λ r. r.detector.0) seen.old.items read) }
{
    if seen.contains(&read.detector.0) {
        return Ok(());
    }
    seen.push(read.detector.0)?;
    reads.push(read)?;
    Ok(())
}

// Puts a reading of this count behind the others, unless one of its detector was seen before.
fn note_count(
    count: Count,
    call: &Call,
    seen: &mut Vec<u8>,
    reads: &mut Vec<DetectorRead>,
) -> Result<(), AllocError>
    ensures { (rest : List DetectorRead) → OnOk result
        (reads.new.items ++ firsts_beyond nat_eq (λ r. r.detector.0) seen.new.items rest
        ≡ reads.old.items ++ firsts_beyond nat_eq (λ r. r.detector.0) seen.old.items (counted.count_read count call.now ++ rest)) }
{
    let Some(detector) = count_detector(count, call) else {
        return Ok(());
    };
    let read = DetectorRead {
        line: call.line,
        kind: call.kind,
        detector,
    };
    note_first(read, seen, reads)
}

// The first reading of this count of each known detector.
fn count_reads(alloc: Global, count: Count, calls: &[Call]) -> Result<Vec<DetectorRead>, AllocError>
    ensures { IfOk result (λ v. v.items ≡ counted.count_reads count calls.now) }
{
    let mut seen = Vec::new(alloc);
    let mut reads = Vec::new(alloc);
    for call in calls {
        note_count(count, call, &mut seen, &mut reads)?;
    }
    Ok(reads)
}

// Whether a number that is known is that of the detector.
fn may_be(detector: DetNo, number: Option<i32>) -> bool
    ensures { result ≡ counted.may_be detector.0 number }
{
    match number {
        Some(number) => number == i32::from(detector.0),
        None => true,
    }
}

// Whether a command clears this count of the detector, or may do so.
fn clears(count: Count, detector: DetNo, call: &Call) -> bool
    ensures { result ≡ counted.clears count detector.0 call.now }
{
    is_command(call.kind, clearing_of(count)) && may_be(detector, call.first)
}

// Whether a command clears this count of the detector.
fn is_cleared(count: Count, detector: DetNo, calls: &[Call]) -> bool
    ensures { result ≡ list_any (counted.clears count detector.0) calls.now }
{
    calls.iter().any(|call| clears(count, detector, call))
}

// Warns of a reading of a count that no command clears.
fn warn_of_read(
    count: Count,
    calls: &[Call],
    read: &DetectorRead,
    warned: &mut Vec<Warned>,
) -> Result<(), AllocError>
    ensures { OnOk result (warned.new.items ≡ warned.old.items ++ counted.never_cleared count calls.now read.now) }
{
    if is_cleared(count, read.detector, calls) {
        return Ok(());
    }
    warn(
        warned,
        read.line,
        Meant::First(read.kind, i32::from(read.detector.0)),
        ProgramWarning::NeverCleared(count, read.detector),
    )
}

// Warns of the readings of a count that no command clears.
fn warn_of_reads(
    count: Count,
    calls: &[Call],
    reads: &[DetectorRead],
    warned: &mut Vec<Warned>,
) -> Result<(), AllocError>
    ensures { OnOk result (warned.new.items ≡ warned.old.items ++ flat_map (counted.never_cleared count calls.now) reads.now) }
{
    for read in reads {
        warn_of_read(count, calls, read, warned)?;
    }
    Ok(())
}

/// Warns of the counts that are read and never cleared, of each detector at its first reading.
pub fn warn_of_counts(
    alloc: Global,
    calls: &[Call],
    warned: &mut Vec<Warned>,
) -> Result<(), AllocError>
    ensures { OnOk result (warned.new.items ≡ warned.old.items ++ counted.uncleared calls.now) }
{
    let fronts = count_reads(alloc, Count::Fronts, calls)?;
    warn_of_reads(Count::Fronts, calls, &fronts, warned)?;
    let rears = count_reads(alloc, Count::Rears, calls)?;
    warn_of_reads(Count::Rears, calls, &rears, warned)
}

// A reading of the cycle.
fn cycle_kind(kind: CallKind) -> Option<ReadingKind>
    ensures { result ≡ counted.cycle_kind kind }
{
    match kind {
        CallKind::Command(_) => None,
        CallKind::Reading(kind) => match kind {
            ReadingKind::CycleSecond | ReadingKind::CycleLength => Some(kind),
            ReadingKind::Detection
            | ReadingKind::Occupancy
            | ReadingKind::Headway
            | ReadingKind::FrontEnds
            | ReadingKind::RearEnds
            | ReadingKind::IsRed
            | ReadingKind::IsRedAmber
            | ReadingKind::IsGreen
            | ReadingKind::IsAmber
            | ReadingKind::TGreen
            | ReadingKind::TRed
            | ReadingKind::StageActive
            | ReadingKind::StageDuration
            | ReadingKind::InterstageActive
            | ReadingKind::AnyInterstage => None,
        },
    }
}

// Whether a command sets the cycle.
fn sets_cycle(calls: &[Call]) -> bool
    ensures { result ≡ list_any (λ c. counted.is_command CommandKind.SetCycle c.kind) calls.now }
{
    calls
        .iter()
        .any(|call| is_command(call.kind, CommandKind::SetCycle))
}

// Warns of the first reading of the cycle.
fn warn_of_first(calls: &[Call], warned: &mut Vec<Warned>) -> Result<(), AllocError>
    ensures { OnOk result (warned.new.items ≡ warned.old.items
        ++ counted.first_of (filter_map (λ c. counted.cycle_read c.line (counted.cycle_kind c.kind)) calls.now)) }
{
    for call in calls {
        if let Some(kind) = cycle_kind(call.kind) {
            return warn(
                warned,
                call.line,
                Meant::Name,
                ProgramWarning::NoSetCycle(kind),
            );
        }
    }
    Ok(())
}

/// Warns of the first reading of a cycle that no command sets.
pub fn warn_of_cycle(calls: &[Call], warned: &mut Vec<Warned>) -> Result<(), AllocError>
    ensures { OnOk result (warned.new.items ≡ warned.old.items ++ counted.no_set_cycle calls.now) }
{
    if sets_cycle(calls) {
        return Ok(());
    }
    warn_of_first(calls, warned)
}

/// The ways between stages that a program commands.
#[derive(Drop)]
pub struct Ways {
    /// Whether there are commands for interstages, and each of them names two stages that are known.
    pub are_known: bool,
    /// The two stages that each command names, where both are known.
    pub known: Vec<(i32, i32)>,
}

// Whether a command for an interstage names a stage that is not known.
fn hides_way(call: &Call) -> bool
    ensures { result ≡ counted.hides_way call.now }
{
    is_command(call.kind, CommandKind::Interstage)
        && !(call.first.is_some() && call.second.is_some())
}

fn hides_ways(calls: &[Call]) -> bool
    ensures { result ≡ list_any counted.hides_way calls.now }
{
    calls.iter().any(|call| hides_way(call))
}

// Puts the two stages that a command names behind the others.
fn note_way(call: &Call, ways: &mut Vec<(i32, i32)>) -> Result<(), AllocError>
    ensures { OnOk result (ways.new.items ≡ ways.old.items ++ counted.way_in call.now) }
{
    if !is_command(call.kind, CommandKind::Interstage) {
        return Ok(());
    }
    if let (Some(from), Some(to)) = (call.first, call.second) {
        ways.push((from, to))?;
    }
    Ok(())
}

fn known_ways(alloc: Global, calls: &[Call]) -> Result<Vec<(i32, i32)>, AllocError>
    ensures { IfOk result (λ v. v.items ≡ flat_map counted.way_in calls.now) }
{
    let mut ways = Vec::new(alloc);
    for call in calls {
        note_way(call, &mut ways)?;
    }
    Ok(ways)
}

/// The ways between stages that a checked program commands, in the order of the text. Its one failure is want of memory.
pub fn command_ways(alloc: Global, checked: &Checked) -> Result<Ways, AllocError>
    ensures all { IfOk result (λ w. w.are_known ≡ knows_ways checked.now) }
    ensures known { IfOk result (λ w. w.known.items ≡ ways_of checked.now) }
{
    let calls = all_calls(alloc, checked)?;
    let known = known_ways(alloc, &calls)?;
    Ok(Ways {
        are_known: !known.is_empty() && !hides_ways(&calls),
        known,
    })
}
