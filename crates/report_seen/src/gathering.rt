// What a diagram shows, gathered of a log.
ghost use Rattle.std.specs.Prelude.{◌≡◌, ◌+◌, ◌-◌, ◌^◌, ◌<◌, ◌≤◌, ◌++◌, ◌∷◌, ℕ, List, [], Err, IfErr, IfOk, OnOk, length, slice_index_or};
ghost use Rattle.std.specs.Option.{ForSome};
ghost use Rattle.sig_io.specs.Outside.{Rose};
ghost use Rattle.sig_types.specs.declared.numbers.StagePlace.{StagePlace};
ghost use Rattle.sig_types.specs.declared.record.Record.{Record};
ghost use Rattle.sig_types.specs.Turns.{History};
ghost use Rattle.log_chart.specs.Spans.{IsChart};
ghost use Rattle.log_chart.specs.Spans.{AreSpans};
ghost use Rattle.log_chart.specs.Stays.{without_second};
ghost use Rattle.log_svg.specs.Diagram.{IsShowable};
ghost use Rattle.log_svg.specs.ShownIn.{shown_in};
ghost use Rattle.report_seen.specs.declared.diagram_form.Window.{Window};
ghost use Rattle.report_seen.specs.Answers.{IsGathering, IsOfReading};
ghost use Rattle.report_seen.specs.Drawn.{AreCovered, IsDrawn};
ghost use Rattle.report_seen.specs.DiagramForm.{IsWindow};
ghost use Rattle.report_seen.specs.Gathered.{commands_by, fault_by, faults_in, front_by, fronts_from, fronts_in, refusals_in, turns_by};

use crate::diagram_form::Window;
use crate::stop::{Stop, stop_of};
use log_chart::{Chart, Cover, add_stay, no_covers, take_frame};
use log_read::{Begin, LogRecords};
use log_svg::{Diagram, FaultMark, FrontMark, RefusalMark, Refused};
use sig_io::Files;
use sig_types::{
    DetNo, Fault, Frame, Memory, Record, Second, ShortName, StageRefusals, TurnRefusals,
};
use std::alloc::Global;

// The same names.
fn copy_names(alloc: Global, names: &[ShortName]) -> Result<Vec<ShortName>, Memory>
    ensures { IfOk result (λ v. v.items ≡ names.now) }
{
    let mut copies = Vec::new(alloc);
    for name in names {
        match copies.push(ShortName::of(name.bytes())) {
            Ok(()) => {}
            Err(_) => return Err(Memory),
        }
    }
    Ok(copies)
}

// Puts the mark of a detector's fronts, if it has any.
fn add_front(
    fronts: &mut Vec<FrontMark>,
    second: u32,
    detector: DetNo,
    count: u32,
) -> Result<(), Memory>
    ensures { OnOk result (fronts.new.items ≡ fronts.old.items ++ front_by second detector.0 count) }
{
    if count == 0 {
        return Ok(());
    }
    match fronts.push(FrontMark {
        second,
        detector,
        fronts: count,
    }) {
        Ok(()) => Ok(()),
        Err(_) => Err(Memory),
    }
}

// Puts the fronts of a second.
fn add_fronts(fronts: &mut Vec<FrontMark>, second: u32, frame: &Frame) -> Result<(), Memory>
    ensures { OnOk result (fronts.new.items ≡ fronts.old.items ++ fronts_from second 1 frame.now) }
{
    for place in 0..64u8 {
        let (count, _) = frame.get(place);
        add_front(fronts, second, DetNo(place + 1), count)?;
    }
    Ok(())
}

// Puts the mark of a refusal.
fn add_refusal(refusals: &mut Vec<RefusalMark>, second: u32, refused: Refused) -> Result<(), Memory>
    ensures { OnOk result (refusals.new.items ≡ refusals.old.items ++ record { second = second; refused = refused } ∷ []) }
{
    match refusals.push(RefusalMark { second, refused }) {
        Ok(()) => Ok(()),
        Err(_) => Err(Memory),
    }
}

// Puts the refused stage commands of a second.
fn add_commands(
    refusals: &mut Vec<RefusalMark>,
    second: u32,
    stages: &StageRefusals,
) -> Result<(), Memory>
    ensures { OnOk result (refusals.new.items ≡ refusals.old.items ++ commands_by second stages.now) }
{
    for place in 0..stages.len() {
        add_refusal(refusals, second, Refused::Command(stages.get(place)))?;
    }
    Ok(())
}

// Puts the refused turns of a second.
fn add_turns(
    refusals: &mut Vec<RefusalMark>,
    second: u32,
    turns: &TurnRefusals,
) -> Result<(), Memory>
    ensures { OnOk result (refusals.new.items ≡ refusals.old.items ++ turns_by second turns.now) }
{
    for place in 0..turns.len() {
        add_refusal(refusals, second, Refused::Turn(turns.get(place)))?;
    }
    Ok(())
}

// Puts what was refused in a second.
fn add_refusals(refusals: &mut Vec<RefusalMark>, rec: &Record) -> Result<(), Memory>
    ensures { OnOk result (refusals.new.items ≡ refusals.old.items ++ refusals_in rec.now) }
{
    add_commands(refusals, rec.second.0, &rec.stages)?;
    add_turns(refusals, rec.second.0, &rec.turns)
}

// Puts the fault of a second, if it has one.
fn add_fault(faults: &mut Vec<FaultMark>, second: u32, fault: Option<Fault>) -> Result<(), Memory>
    ensures { OnOk result (faults.new.items ≡ faults.old.items ++ fault_by second fault) }
{
    match fault {
        None => Ok(()),
        Some(fault) => match faults.push(FaultMark { second, fault }) {
            Ok(()) => Ok(()),
            Err(_) => Err(Memory),
        },
    }
}

// Puts a second.
fn add_second(diagram: &mut Diagram, rec: &Record) -> Result<(), Memory>
    requires groups { length rec.now.picture ≡ length diagram.old.chart.rows }
    requires fits { diagram.old.chart.past < 2 ^ 32 - 1 }
    ensures names { diagram.new.names ≡ diagram.old.names }
    ensures from { diagram.new.from ≡ diagram.old.from }
    ensures to { diagram.new.to ≡ diagram.old.to }
    ensures past { OnOk result (diagram.new.chart.past ≡ diagram.old.chart.past + 1) }
    ensures chart { OnOk result ((h : History) → slice_index_or h diagram.old.chart.past [] ≡ rec.now.picture →
        IsChart h (length diagram.old.chart.rows) diagram.old.chart.from diagram.old.chart.past diagram.old.chart.rows →
        IsChart h (length diagram.old.chart.rows) diagram.old.chart.from (diagram.old.chart.past + 1) diagram.new.chart.rows) }
    ensures chart_from { diagram.new.chart.from ≡ diagram.old.chart.from }
    ensures rows { length diagram.new.chart.rows ≡ length diagram.old.chart.rows }
    ensures stays { OnOk result ((a : ℕ → StagePlace) (from : ℕ) → from ≤ rec.now.second.0 →
        a rec.now.second.0 ≡ without_second rec.now.place → AreSpans a from rec.now.second.0 diagram.old.stays.items →
        AreSpans a from (rec.now.second.0 + 1) diagram.new.stays.items) }
    ensures fronts { OnOk result (diagram.new.fronts.items ≡ diagram.old.fronts.items ++ fronts_in rec.now) }
    ensures covers { diagram.new.covers ≡ diagram.old.covers }
    ensures refusals { OnOk result (diagram.new.refusals.items ≡ diagram.old.refusals.items ++ refusals_in rec.now) }
    ensures faults { OnOk result (diagram.new.faults.items ≡ diagram.old.faults.items ++ faults_in rec.now) }
{
    diagram.chart.take(&rec.picture)?;
    add_stay(&mut diagram.stays, rec.second, rec.place)?;
    add_fronts(&mut diagram.fronts, rec.second.0, &rec.frame)?;
    add_refusals(&mut diagram.refusals, rec)?;
    add_fault(&mut diagram.faults, rec.second.0, rec.fault)
}

// A diagram of no record.
fn begin(alloc: Global, names: &[ShortName], window: Window) -> Result<Diagram, Memory>
    requires few { length names.now ≤ 64 }
    requires window { IsWindow window }
    ensures drawn { IfOk result (λ d. IsDrawn names.now [] window.from window.to d) }
    ensures covers { IfOk result (λ d. AreCovered [] window.from window.to d.covers.items) }
{
    let copies = copy_names(alloc, names)?;
    let chart = Chart::new(alloc, names.len() as u8, Second(window.from))?;
    let covers = no_covers(alloc)?;
    Ok(Diagram {
        names: copies,
        from: window.from,
        to: window.to,
        chart,
        stays: Vec::new(alloc),
        fronts: Vec::new(alloc),
        covers,
        refusals: Vec::new(alloc),
        faults: Vec::new(alloc),
    })
}

// Takes the next record, of which a diagram's charts and marks show what is in its seconds.
fn take_window(diagram: &mut Diagram, rec: &Record) -> Result<(), Memory>
    requires groups { length rec.now.picture ≡ length diagram.old.chart.rows }
    requires fits { diagram.old.chart.past < 2 ^ 32 - 1 }
    ensures drawn { OnOk result ((names : List (List ℕ)) (records : List Record) (window : Window) → IsWindow window →
        rec.now.second.0 ≡ length records + 1 → IsDrawn names records window.from window.to diagram.old →
        IsDrawn names (records ++ rec.now ∷ []) window.from window.to diagram.new) }
    ensures covers { diagram.new.covers ≡ diagram.old.covers }
{
    let second = rec.second.0;
    if diagram.from <= second && second <= diagram.to {
        match add_second(diagram, rec) {
            Ok(()) => return Ok(()),
            Err(memory) => return Err(memory),
        }
    }
    Ok(())
}

// Takes the next record for the detectors, which count from second 1 on.
fn take_covers(covers: &mut Vec<Cover>, from: u32, to: u32, rec: &Record) -> Result<(), Memory>
    requires { length covers.old.items ≡ 64 }
    ensures { OnOk result ((records : List Record) → rec.now.second.0 ≡ length records + 1 → to < 2 ^ 31 →
        AreCovered records from to covers.old.items → AreCovered (records ++ rec.now ∷ []) from to covers.new.items) }
{
    if to < rec.second.0 {
        return Ok(());
    }
    take_frame(covers, from, rec.second.0, &rec.frame)?;
    Ok(())
}

// Takes the next record.
fn take_record(diagram: &mut Diagram, rec: &Record) -> Result<(), Memory>
    requires groups { length rec.now.picture ≡ length diagram.old.chart.rows }
    requires fits { diagram.old.chart.past < 2 ^ 32 - 1 }
    requires covers { length diagram.old.covers.items ≡ 64 }
    ensures drawn { OnOk result ((names : List (List ℕ)) (records : List Record) (window : Window) → IsWindow window →
        rec.now.second.0 ≡ length records + 1 → IsDrawn names records window.from window.to diagram.old →
        IsDrawn names (records ++ rec.now ∷ []) window.from window.to diagram.new) }
    ensures covers { OnOk result ((records : List Record) → rec.now.second.0 ≡ length records + 1 → diagram.old.to < 2 ^ 31 →
        AreCovered records diagram.old.from diagram.old.to diagram.old.covers.items →
        AreCovered (records ++ rec.now ∷ []) diagram.old.from diagram.old.to diagram.new.covers.items) }
{
    take_covers(&mut diagram.covers, diagram.from, diagram.to, rec)?;
    take_window(diagram, rec)?;
    Ok(())
}

/// Reads a log to its end, and gathers what it has in these seconds.
pub fn gather<F: Files>(
    alloc: Global,
    files: &mut F,
    log: &str,
    window: Window,
) -> Result<Diagram, Stop>
    requires { IsWindow window }
    ensures gathering { ForSome (F.told files.old) (λ file. IsGathering (file log.now) window result) }
    ensures shown { IfOk result (λ d. IsShowable (shown_in d)) }
    ensures no_words { IfErr result (λ stop. IsOfReading stop) }
    ensures contents_stay { F.told files.new ≡ F.told files.old }
    ensures later { F.faults files.old ≤ F.faults files.new }
    ensures cause { result ≡ Err Stop.ReadFault → Rose (F.faults files.old) (F.faults files.new) }
{
    let mut records = match LogRecords::open(alloc, files, log, Begin::AtOne) {
        Ok(records) => records,
        Err(stop) => return Err(stop_of(stop)),
    };
    let mut diagram = match begin(alloc, records.names(), window) {
        Ok(diagram) => diagram,
        Err(_) => return Err(Stop::Memory),
    };
    for _line in 0..u64::MAX {
        match records.next_record(files) {
            Ok(true) => {}
            Ok(false) => {
                let count = records.count();
                if count < window.to {
                    return Err(Stop::LogEnds(count));
                }
                return Ok(diagram);
            }
            Err(stop) => return Err(stop_of(stop)),
        }
        match take_record(&mut diagram, records.current()) {
            Ok(()) => {}
            Err(_) => return Err(Stop::Memory),
        }
    }
    Err(Stop::Memory)
}
