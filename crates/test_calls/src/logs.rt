// The log that calls add up to.
ghost use Rattle.std.specs.Prelude.{◌≡◌, None};
ghost use Rattle.junction_run.specs.Form.{word_of};
ghost use Rattle.junction_run.specs.FormWords.{source_in};
ghost use Rattle.junction_calls.specs.Loads.{source_name};
ghost use Rattle.junction_calls.specs.Numbers.{IsPlaying};

use det_stream::Lines;
use junction_calls::{
    DetectorCounts, Junction, Refusal, RefusedStage, Told, empty, group_name, load_into,
    make_second, refused_stage, take,
};
use junction_run::Source;
use sig_io::{Files, read_whole};
use sig_types::Frame;
use std::alloc::{AllocError, Global};

/// The texts of a junction: a program or, where `is_code` says so, a code, the PUA file, the times and the intergreens.
#[derive(Clone, Copy)]
pub struct Texts<'a> {
    pub is_code: bool,
    pub program: &'a [u8],
    pub plan: &'a [u8],
    pub times: &'a [u8],
    pub intergreens: &'a [u8],
}

/// A place for a refusal.
pub const NO_REFUSAL: Refusal = Refusal {
    noted: 0,
    file: 9,
    line: 0,
};

/// The name of a program's text, or of a code's.
pub fn source_of(is_code: bool) -> Source<'static>
    ensures { word_of (source_in result) ≡ source_name }
{
    if is_code {
        Source::Code("program")
    } else {
        Source::Program("program")
    }
}

/// The name of a rule by its number.
pub fn rule_name(rule: u8) -> &'static str {
    match rule {
        1 => "Sequence",
        2 => "MinGreen",
        3 => "Conflict",
        4 => "Intergreen",
        5 => "Running",
        6 => "WrongStage",
        7 => "NoInterstage",
        8 => "MinRed",
        _ => "?",
    }
}

fn fault_name(fault: u8) -> &'static str {
    match fault {
        1 => "Budget",
        2 => "Overflow",
        3 => "ZeroDivisor",
        4 => "Index",
        5 => "Number",
        _ => "?",
    }
}

// The counts of a frame.
fn counts_of(frame: &Frame) -> DetectorCounts {
    let mut counts = DetectorCounts {
        fronts: [0; 64],
        rears: [0; 64],
    };
    for place in 0u8..64 {
        let (fronts, rears) = frame.get(place);
        counts.fronts[usize::from(place)] = fronts;
        counts.rears[usize::from(place)] = rears;
    }
    counts
}

// A second in which nothing is told.
fn untold() -> Told {
    Told {
        second: 0,
        fault_line: 0,
        stages: 0,
        turns: 0,
        place: 0,
        from: 0,
        to: 0,
        t: 0,
        fault: 0,
        groups: 0,
        aspects: [0; 64],
        turn_groups: [0; 64],
        turn_rules: [0; 64],
        turn_others: [0; 64],
        reserved: [0; 2],
    }
}

// The names of a junction's groups.
fn names_of(alloc: Global, handle: &mut Junction) -> Result<Vec<String>, AllocError>
    requires { IsPlaying handle.old.value }
    ensures { IsPlaying handle.new.value }
{
    let mut names = Vec::new(alloc);
    for place in 0u8..64 {
        let mut name = [0u8; 32];
        let length = group_name(handle, alloc, place, &mut name);
        if length > 0 && length <= 32 {
            names.push(String::from_utf8_lossy(alloc, &name[..length])?)?;
        }
    }
    Ok(names)
}

// The name of a group.
fn name_at(names: &[String], group: u8) -> &str {
    match names.get(usize::from(group)) {
        Some(name) => name.as_str(),
        None => "?",
    }
}

// Puts the counts that are not 0.
fn put_counts(counts: &DetectorCounts, log: &mut String) -> Result<(), AllocError> {
    let mut blank = "";
    for place in 0u8..64 {
        let at = usize::from(place);
        let (fronts, rears) = (counts.fronts[at], counts.rears[at]);
        if fronts > 0 || rears > 0 {
            write!(log, "{blank}{}:{fronts}:{rears}", place + 1)?;
            blank = " ";
        }
    }
    if blank.is_empty() {
        log.push('-')?;
    }
    Ok(())
}

// Puts the refused stage commands and turns.
fn put_refusals(
    alloc: Global,
    handle: &mut Junction,
    names: &[String],
    told: &Told,
    log: &mut String,
) -> Result<(), AllocError>
    requires { IsPlaying handle.old.value }
    ensures { IsPlaying handle.new.value }
{
    let mut blank = "";
    for place in 0..told.stages {
        let mut stage = RefusedStage {
            from: 0,
            to: 0,
            rule: 0,
        };
        if refused_stage(handle, alloc, place as usize, &mut stage) == 0 {
            write!(
                log,
                "{blank}{}-{}:{}",
                stage.from,
                stage.to,
                rule_name(stage.rule)
            )?;
            blank = " ";
        }
    }
    for i in 0..64usize {
        if i < told.turns as usize {
            let group = name_at(names, told.turn_groups[i]);
            write!(log, "{blank}{group}:{}", rule_name(told.turn_rules[i]))?;
            if told.turn_others[i] != 255 {
                write!(log, ":{}", name_at(names, told.turn_others[i]))?;
            }
            blank = " ";
        }
    }
    if blank.is_empty() {
        log.push('-')?;
    }
    Ok(())
}

// Puts the line of a second.
fn put_second(
    alloc: Global,
    handle: &mut Junction,
    names: &[String],
    counts: &DetectorCounts,
    told: &Told,
    log: &mut String,
) -> Result<(), AllocError>
    requires { IsPlaying handle.old.value }
    ensures { IsPlaying handle.new.value }
{
    write!(log, "{}|", told.second)?;
    match told.place {
        0 => write!(log, "-|")?,
        1 => write!(log, "S{}|", told.to)?,
        _ => write!(log, "I{}-{}+{}|", told.from, told.to, told.t)?,
    }
    for letter in told.aspects.iter().take(usize::from(told.groups)) {
        log.push(char::from(*letter))?;
    }
    log.push('|')?;
    put_counts(counts, log)?;
    log.push('|')?;
    put_refusals(alloc, handle, names, told, log)?;
    if told.fault == 0 {
        write!(log, "|-\n")?;
    } else {
        write!(log, "|{}@{}\n", fault_name(told.fault), told.fault_line)?;
    }
    Ok(())
}

// Plays a detector file by calls. None where a line is refused, or counts are not taken.
fn play<F: Files>(
    alloc: Global,
    handle: &mut Junction,
    detectors: &str,
    files: &mut F,
) -> Result<Option<String>, AllocError>
    requires { IsPlaying handle.old.value }
    ensures { IsPlaying handle.new.value }
{
    let names = names_of(alloc, handle)?;
    let mut log = String::from_str(alloc, "VAPLOG 1")?;
    for name in &names {
        write!(log, " {name}")?;
    }
    log.push('\n')?;
    let mut told = untold();
    let Ok(mut lines) = Lines::make(alloc, detectors) else {
        return Err(AllocError);
    };
    for _ in 0..10000 {
        match lines.next_frame(files) {
            Ok(true) => {
                let counts = counts_of(lines.frame());
                if make_second(handle, alloc, &counts, &mut told) != Some(true) {
                    return Ok(None);
                }
                put_second(alloc, handle, &names, &counts, &told, &mut log)?;
            }
            Ok(false) => return Ok(Some(log)),
            Err(_) => return Ok(None),
        }
    }
    Ok(None)
}

/// Frees what a handle holds.
pub fn let_go(alloc: Global, handle: &mut Junction)
    ensures { handle.new.value ≡ None }
{
    let _held = take(handle, alloc);
}

/// The log of a detector file by calls. None where a text or a line of the detector file is refused.
pub fn told_log<F: Files>(
    alloc: Global,
    texts: &Texts<'_>,
    detectors: &str,
    files: &mut F,
) -> Result<Option<String>, AllocError> {
    let mut handle = empty();
    let mut note = [0u8; 64];
    let mut refusal = NO_REFUSAL;
    let status = load_into(
        alloc,
        &source_of(texts.is_code),
        &mut handle,
        texts.program,
        texts.plan,
        texts.times,
        texts.intergreens,
        &mut note,
        &mut refusal,
    );
    if status != 0 {
        return Ok(None);
    }
    let log = play(alloc, &mut handle, detectors, files);
    let_go(alloc, &mut handle);
    log
}

/// The bytes of a file, none where it can't be read.
pub fn text_of<F: Files>(alloc: Global, files: &mut F, name: &str) -> Vec<u8> {
    match read_whole(alloc, files, name, 1 << 20) {
        Ok(bytes) => bytes,
        Err(_) => Vec::new(alloc),
    }
}

/// Whether the log by calls, of a program or a code, a PUA file, times, intergreens and a detector file, is the log that the last
/// file holds.
pub fn tells_log<F: Files>(
    alloc: Global,
    names: &[String],
    files: &mut F,
) -> Result<bool, AllocError> {
    match names {
        [program, plan, times, intergreens, detectors, log] => {
            let program = text_of(alloc, files, program.as_str());
            let plan = text_of(alloc, files, plan.as_str());
            let times = text_of(alloc, files, times.as_str());
            let intergreens = text_of(alloc, files, intergreens.as_str());
            let texts = Texts {
                is_code: program.starts_with(b"VAPCODE "),
                program: &program,
                plan: &plan,
                times: &times,
                intergreens: &intergreens,
            };
            let told = told_log(alloc, &texts, detectors.as_str(), files)?;
            let log = text_of(alloc, files, log.as_str());
            Ok(told.is_some_and(|told| told.as_bytes() == log.as_slice()))
        }
        _ => Ok(false),
    }
}
