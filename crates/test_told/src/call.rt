// The call of a case: its words, its files and what it told.
use crate::case::{Case, Part, part_of, title_of};
use crate::programs::call;
use crate::watched::{CaseFiles, CaseSink, note_call};
use sig_io::{DiskFiles, MemFiles, MemSink};
use std::alloc::{AllocError, Global};
use std::mem;
use std::sync::atomic::{AtomicU64, Ordering};
use std::thread::Threads;

// How many bytes the output takes, and how many a read gives and a write takes, where a case doesn't say.
const ROOM: usize = 1 << 20;

const PIECE: usize = 65536;

const WHOLE: usize = 1 << 30;

// How many bytes of notes are taken.
const NOTES: usize = 4096;

/// The number of a read or a write that never comes.
pub const NEVER: u64 = u64::MAX;

/// How a call is made: how many bytes a read gives and a write takes at most, how many the output takes, in how many writes the notes
/// come, which read or write fails, and of which file the reads are counted.
#[derive(Clone, Copy)]
pub struct How<'a> {
    pub most: usize,
    pub takes: usize,
    pub room: usize,
    pub said: usize,
    pub read: u64,
    pub write: u64,
    pub counted: &'a str,
    pub reads: &'a AtomicU64,
}

/// The number behind the word of a part.
pub fn number_of(parts: &[Part], word: &str, left_out: usize) -> usize {
    match part_of(parts, word) {
        Some((number, _)) => number.parse::<usize>().unwrap_or(0),
        None => left_out,
    }
}

/// How the call of a case is made, with a place for the count of reads.
pub fn how_of<'a>(case: &'a Case, reads: &'a AtomicU64) -> How<'a> {
    How {
        most: number_of(&case.parts, "pieces", PIECE),
        takes: number_of(&case.parts, "takes", WHOLE),
        room: number_of(&case.parts, "room", ROOM),
        said: number_of(&case.parts, "notes", 1).max(1),
        read: NEVER,
        write: NEVER,
        counted: part_of(&case.parts, "calls").unwrap_or(("", b"")).0,
        reads,
    }
}

/// What a call told: its exit status, what it wrote, its notes, and the files that it asked for.
#[derive(Drop)]
pub struct Told<'a> {
    pub status: u8,
    pub out: CaseSink<'a>,
    pub notes: MemSink,
    pub asked: String,
}

impl<'a> Told<'a> {
    /// What was written.
    pub fn text(&self) -> &[u8] {
        self.out.sink.bytes()
    }
}

/// Frees what a call told.
pub fn free_told(_told: Told<'_>) {}

// Frees what a call was given.
fn free_given(_words: Vec<String>, _files: CaseFiles<'_>) {}

// Adds parts as files.
fn add_files(
    alloc: Global,
    parts: &[Part],
    files: &mut Vec<(String, Vec<u8>)>,
) -> Result<(), AllocError> {
    for part in parts {
        let name = String::from_str(alloc, title_of(part))?;
        files.push((name, part.1.to_vec(alloc)?))?;
    }
    Ok(())
}

// The number of the one call that fails.
fn failing(alloc: Global, number: u64) -> Result<Vec<u64>, AllocError> {
    let mut numbers = Vec::new(alloc);
    numbers.push(number)?;
    Ok(numbers)
}

// The files of a case; of two of one name the first is read, so what the case leaves out is taken of the base.
fn files_of<'a>(
    rt: &'a HostRuntime,
    base: &Case,
    case: &Case,
    how: &How<'a>,
) -> Result<CaseFiles<'a>, AllocError> {
    let alloc = rt.alloc();
    let reads = failing(alloc, how.read)?;
    let mut files = Vec::new(alloc);
    add_files(alloc, &case.parts, &mut files)?;
    add_files(alloc, &base.parts, &mut files)?;
    Ok(CaseFiles {
        own: MemFiles::new(files, reads, how.most.max(1)),
        disk: DiskFiles::new(rt),
        asked: String::new(alloc),
        counted: how.counted,
        reads: how.reads,
    })
}

// The words of a part: those behind its first word, and its lines.
fn words_in(alloc: Global, title: &str, text: &[u8]) -> Result<Vec<String>, AllocError> {
    let mut words = Vec::new(alloc);
    for word in title.split_whitespace() {
        words.push(String::from_str(alloc, word)?)?;
    }
    let text = text.strip_suffix(b"\n").unwrap_or(text);
    if !text.is_empty() {
        for word in text.split(|byte| *byte == b'\n') {
            words.push(String::from_utf8_lossy(alloc, word)?)?;
        }
    }
    Ok(words)
}

// The words of a case. What it leaves out is taken of the base.
fn words_of(alloc: Global, base: &Case, case: &Case) -> Result<Vec<String>, AllocError> {
    match part_of(&case.parts, "words").or(part_of(&base.parts, "words")) {
        Some((words, more)) => words_in(alloc, words, more),
        None => Ok(Vec::new(alloc)),
    }
}

// A sink of so many bytes, of which the write of that number fails.
fn sink(alloc: Global, room: usize, number: u64) -> Result<MemSink, AllocError> {
    match MemSink::new(alloc, room, failing(alloc, number)?) {
        Ok(sink) => Ok(sink),
        Err(_) => Err(AllocError),
    }
}

// The output of a call of this manner.
fn watched_sink<'a>(alloc: Global, how: &How<'a>) -> Result<CaseSink<'a>, AllocError> {
    Ok(CaseSink {
        sink: sink(alloc, how.room, how.write)?,
        most: how.takes,
        writes: 0,
        has_failed: false,
        is_late: false,
        is_noted: !how.counted.is_empty(),
        calls: Vec::new(alloc),
        reads: how.reads,
    })
}

// What these words tell over these files. A note is given to its sink at once: one write more than the notes fails.
fn answer<'a, R: Threads + Sync>(
    threads: &R,
    alloc: Global,
    words: &[String],
    files: &mut CaseFiles<'_>,
    how: &How<'a>,
) -> Result<Told<'a>, AllocError> {
    let mut out = watched_sink(alloc, how)?;
    let mut notes = sink(alloc, NOTES, how.said as u64)?;
    let status = call(threads, alloc, words, files, &mut out, &mut notes);
    let _ = note_call(&mut out.calls, how.reads.load(Ordering::SeqCst), b"reads\n");
    let asked = mem::replace(&mut files.asked, String::new(alloc));
    Ok(Told {
        status,
        out,
        notes,
        asked,
    })
}

/// What the call of a case tells. What the case leaves out is taken of the base.
pub fn told_by<'a, R: Threads + Sync>(
    rt: &'a HostRuntime,
    threads: &R,
    base: &Case,
    case: &Case,
    how: &How<'a>,
) -> Result<Told<'a>, AllocError> {
    let words = words_of(rt.alloc(), base, case)?;
    let mut files = files_of(rt, base, case, how)?;
    let told = answer(threads, rt.alloc(), &words, &mut files, how);
    free_given(words, files);
    told
}
