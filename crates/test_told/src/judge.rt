// Whether a case's call told what is wanted, and what differs.
use crate::call::{Told, free_told, how_of, number_of, told_by};
use crate::case::{Case, Part, part_of, title_of};
use crate::faults::fail_as_wanted;
use crate::texts::{has_part, is_whole};
use sig_io::{DiskFiles, read_whole};
use std::alloc::AllocError;
use std::sync::atomic::AtomicU64;
use std::thread::Threads;

// No file with a text that is wanted has more bytes.
const MOST: usize = 1 << 20;

// Whether a part is about what is written.
fn is_told_word(word: &str) -> bool {
    ["out", "begin", "end", "part", "same"]
        .iter()
        .any(|own| *own == word)
}

// Whether a part is about the call and not one of its files.
fn is_wish(word: &str) -> bool {
    is_told_word(word)
        || ["each", "asked", "calls", "writes"]
            .iter()
            .any(|own| *own == word)
}

// Whether a call ended with the wanted exit status. Where it didn't, tells both.
fn is_status(name: &str, status: u8, wanted: &str, told: &mut String) -> Result<bool, AllocError> {
    let is_wanted = match wanted.parse::<u8>() {
        Ok(wanted) => wanted == status,
        Err(_) => false,
    };
    if is_wanted {
        return Ok(true);
    }
    write!(told, "FAILED {name}: status {status}, wanted {wanted}\n")?;
    Ok(false)
}

// Whether a text is that of a file. Where it isn't, tells where.
fn is_file(
    rt: &HostRuntime,
    name: &str,
    text: &[u8],
    file: &str,
    told: &mut String,
) -> Result<bool, AllocError> {
    let Ok(wanted) = read_whole(rt.alloc(), &mut DiskFiles::new(rt), file, MOST) else {
        write!(told, "FAILED {name}: {file} can't be read\n")?;
        return Ok(false);
    };
    is_whole(rt.alloc(), name, text, &wanted, told)
}

// Whether a text is as a part with this word wants it: a file, the whole text, or where it has to stand.
fn is_text(
    rt: &HostRuntime,
    name: &str,
    text: &[u8],
    word: &str,
    file: &str,
    wanted: &[u8],
    told: &mut String,
) -> Result<bool, AllocError> {
    if word == "same" {
        is_file(rt, name, text, file, told)
    } else if word == "out" {
        is_whole(rt.alloc(), name, text, wanted, told)
    } else {
        has_part(rt.alloc(), name, text, word, wanted, told)
    }
}

// Whether a call told what a part wants. Where it didn't, tells what differs.
fn is_part(
    rt: &HostRuntime,
    name: &str,
    part: &Part,
    call: &Told<'_>,
    told: &mut String,
) -> Result<bool, AllocError> {
    let mut words = title_of(part).split_whitespace();
    let word = words.next().unwrap_or("");
    if !is_told_word(word) {
        return Ok(true);
    }
    let status = words.next().unwrap_or("");
    let file = words.next().unwrap_or("");
    let is_as_wanted = is_status(name, call.status, status, told)?;
    let is_told = is_text(rt, name, call.text(), word, file, &part.1, told)?;
    Ok(is_as_wanted && is_told)
}

// Whether a call asked for the files that its case wants, where it wants any. Where it didn't, tells both.
fn has_asked(case: &Case, asked: &str, told: &mut String) -> Result<bool, AllocError> {
    let Some((wanted, _)) = part_of(&case.parts, "asked") else {
        return Ok(true);
    };
    if asked.trim() == wanted {
        return Ok(true);
    }
    let name = case.name.as_str();
    write!(told, "FAILED {name}: asked for{asked}, wanted {wanted}\n")?;
    Ok(false)
}

// Whether a call made at most as many writes as its case wants. Where it made more, tells it.
fn has_written(case: &Case, writes: u64, told: &mut String) -> Result<bool, AllocError> {
    if writes as usize <= number_of(&case.parts, "writes", usize::MAX) {
        return Ok(true);
    }
    let name = case.name.as_str();
    write!(told, "FAILED {name}: {writes} writes\n")?;
    Ok(false)
}

// Whether a call read and wrote as its case wants. Tells what differs.
fn is_made(
    rt: &HostRuntime,
    case: &Case,
    call: &Told<'_>,
    told: &mut String,
) -> Result<bool, AllocError> {
    let mut met = has_asked(case, call.asked.as_str(), told)?;
    met = has_written(case, call.out.writes, told)? && met;
    if let Some((_, calls)) = part_of(&case.parts, "calls") {
        let name = case.name.as_str();
        met = is_whole(rt.alloc(), name, &call.out.calls, calls, told)? && met;
    }
    Ok(met)
}

// Whether a call told all that the parts of its case want. Tells what differs.
fn tells_all(
    rt: &HostRuntime,
    case: &Case,
    call: &Told<'_>,
    told: &mut String,
) -> Result<bool, AllocError> {
    let name = case.name.as_str();
    let notes = match part_of(&case.parts, "notes") {
        Some((_, notes)) => notes,
        None => b"",
    };
    let mut met = is_whole(rt.alloc(), name, call.notes.bytes(), notes, told)?;
    met = is_made(rt, case, call, told)? && met;
    for part in &case.parts {
        if !is_part(rt, name, part, call, told)? {
            met = false;
        }
    }
    Ok(met)
}

// Whether a case wants anything.
fn wants(case: &Case) -> bool {
    case.parts.iter().any(|part| is_wish(title_of(part).split_whitespace().next().unwrap_or("")))
}

/// Whether a case's call told all that the case wants. Tells of it.
pub fn is_met<R: Threads + Sync>(
    rt: &HostRuntime,
    threads: &R,
    base: &Case,
    case: &Case,
    told: &mut String,
) -> Result<bool, AllocError> {
    let name = case.name.as_str();
    if !wants(case) {
        write!(told, "FAILED {name}: it wants nothing\n")?;
        return Ok(false);
    }
    let reads = AtomicU64::new(0);
    let how = how_of(case, &reads);
    let call = told_by(rt, threads, base, case, &how)?;
    let told_all = tells_all(rt, case, &call, told);
    free_told(call);
    let is_met = told_all? && fail_as_wanted(rt, threads, base, case, &how, told)?;
    if is_met {
        write!(told, "ok {name}\n")?;
    }
    Ok(is_met)
}
