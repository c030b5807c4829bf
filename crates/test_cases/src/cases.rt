// Runs over files in memory.
ghost use Rattle.std.specs.Prelude.{◌≡◌, IfOk, map, string_bytes};
ghost use Rattle.std.specs.List.{slice_get};
ghost use Rattle.std.specs.Option.{option_map};
ghost use Rattle.test_cases.specs.Files.{named, site_files, with_first};

use crate::programs::{EMPTY, FOUR_ARMS, TIMER};
use crate::sites::{
    DARK, FOUR_ARMS_INTERGREENS, FOUR_ARMS_PLAN, FOUR_ARMS_TIMES, INTERGREENS, TIMES, TWO_STAGES,
};
use junction_run::{Status, junction};
use sig_io::{Files, MemSink, Sink};
use std::alloc::{AllocError, Global};
use std::test::Fail;

/// A command with a program as its first file.
#[derive(Clone, Copy)]
pub struct Case<'a> {
    /// The words of the command line.
    pub words: &'static [&'static str],
    /// The bytes of the file that the second word names.
    pub program: &'a [u8],
    /// The bytes of the PUA file.
    pub plan: &'a [u8],
    /// The bytes of the table of times.
    pub times: &'a [u8],
    /// The bytes of the table of intergreens.
    pub intergreens: &'a [u8],
    /// The bytes of the detector file.
    pub detectors: &'a [u8],
    /// How many bytes the output takes.
    pub room: usize,
}

/// A run of no second.
pub const DONE: Case<'static> = Case {
    words: &["run", "p.vap", "p.pua", "t.csv", "g.csv", "d.txt"],
    program: EMPTY,
    plan: DARK,
    times: TIMES,
    intergreens: INTERGREENS,
    detectors: b"",
    room: 2000,
};

/// The junction of four arms, without a second.
pub const FOUR_ARMS_RUN: Case<'static> = Case {
    program: FOUR_ARMS,
    plan: FOUR_ARMS_PLAN,
    times: FOUR_ARMS_TIMES,
    intergreens: FOUR_ARMS_INTERGREENS,
    ..DONE
};

/// A timer that two fronts start.
pub const TIMER_RUN: Case<'static> = Case {
    program: TIMER,
    plan: TWO_STAGES,
    detectors: b"1:2:1\n1:0:1\n\n\n\n",
    ..DONE
};

fn file(alloc: Global, name: &str, bytes: &[u8]) -> Result<(String, Vec<u8>), AllocError>
    ensures { IfOk result (λ file. named file ≡ (name.now, bytes.now)) }
{
    Ok((
        String::from_str(alloc, name)?,
        Vec::from_slice(alloc, bytes)?,
    ))
}

/// The words as the calls take them.
pub fn texts(alloc: Global, words: &[&str]) -> Result<Vec<String>, AllocError>
    ensures { IfOk result (λ texts. map string_bytes texts.items ≡ map (λ word. word.now) words.now) }
{
    let mut texts = Vec::new(alloc);
    for word in words {
        texts.push(String::from_str(alloc, word)?)?;
    }
    Ok(texts)
}

/// The files of a case; the second word names the first one.
pub fn files(alloc: Global, case: &Case<'_>) -> Result<Vec<(String, Vec<u8>)>, AllocError>
    ensures { IfOk result (λ files. map named files.items ≡
        with_first (option_map (λ name. name.now) (slice_get case.now.words.now 1)) case.now.program.now
        (site_files case.now.plan.now case.now.times.now case.now.intergreens.now case.now.detectors.now)) }
{
    let mut files = Vec::new(alloc);
    if let Some(first) = case.words.get(1) {
        files.push(file(alloc, first, case.program)?)?;
    }
    files.push(file(alloc, "p.pua", case.plan)?)?;
    files.push(file(alloc, "t.csv", case.times)?)?;
    files.push(file(alloc, "g.csv", case.intergreens)?)?;
    files.push(file(alloc, "d.txt", case.detectors)?)?;
    Ok(files)
}

/// What words answer over these files and this output, with the notes. A note is given to its sink at once, which fails at a
/// second call.
pub fn answer<F: Files, O: Sink>(
    alloc: Global,
    words: &[&str],
    files: &mut F,
    out: &mut O,
) -> Result<(Status, MemSink), Fail> {
    let words = texts(alloc, words)?;
    let mut failing = Vec::new(alloc);
    failing.push(1)?;
    let mut notes = MemSink::new(alloc, 1000, failing)?;
    let status = junction(alloc, &words, files, out, &mut notes);
    Ok((status, notes))
}
