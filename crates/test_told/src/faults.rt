// Each read or each write of a case's call failing in turn.
use crate::call::{How, NEVER, Told, free_told, told_by};
use crate::case::{Case, part_of};
use crate::texts::has;
use std::alloc::AllocError;
use std::thread::Threads;

// More calls than a case makes.
const MOST_CALLS: u64 = 5000;

// What a call with a read or a write that fails has to end with.
#[derive(Clone, Copy)]
struct Fault<'a> {
    is_read: bool,
    // The exit status, a word of the note, and the whole note, which is empty where the case doesn't tell it.
    status: u8,
    why: &'a [u8],
    note: &'a [u8],
    // Whether nothing may be written, and the files that are asked for in their order.
    is_unwritten: bool,
    asked: Option<&'a str>,
    // The exit status, the text and the notes of the call where none fails.
    done: u8,
    whole: &'a [u8],
    said: &'a [u8],
}

// How a call ended.
enum Ended {
    Done,
    AsWanted,
    Otherwise,
}

// Whether a note is that of a file that can't be read.
fn is_note_of(note: &[u8], file: &str) -> bool {
    let front = note.strip_suffix(b": ReadFault\n").unwrap_or(b"");
    match front.strip_suffix(file.as_bytes()) {
        Some(front) => front == b"junction: ".as_slice(),
        None => false,
    }
}

// Whether files were asked for in this order up to one that the note names, whose read failed, and whole lines were written.
fn stops_at_read(call: &Told<'_>, order: &str) -> bool {
    let Some(asked) = call.asked.as_str().trim().strip_suffix("!") else {
        return false;
    };
    let (_, last) = asked.rsplit_once(" ").unwrap_or(("", asked));
    let rest = order.strip_prefix(asked).unwrap_or("?");
    (rest.is_empty() || rest.starts_with(" "))
        && is_note_of(call.notes.bytes(), last)
        && call.text().last().copied().unwrap_or(b'\n') == b'\n'
}

// Whether a call of which a read failed ended as it has to.
fn ends_at_read(call: &Told<'_>, fault: &Fault<'_>) -> bool {
    let is_asked = match fault.asked {
        Some(order) => stops_at_read(call, order),
        None => true,
    };
    is_asked && (call.text().is_empty() || !fault.is_unwritten)
}

// Whether a call of which a write failed ended as it has to.
fn ends_at_write(call: &Told<'_>, fault: &Fault<'_>) -> bool {
    call.out.has_failed
        && call.text().len() < fault.whole.len()
        && (fault.note.is_empty() || call.notes.bytes() == fault.note)
}

// How a call ended of which a read or a write failed, or none.
fn how_ended(call: &Told<'_>, fault: &Fault<'_>) -> Ended {
    let out = call.text();
    let notes = call.notes.bytes();
    if call.status == fault.done && out == fault.whole && notes == fault.said {
        return Ended::Done;
    }
    let is_ended = if fault.is_read {
        ends_at_read(call, fault)
    } else {
        ends_at_write(call, fault)
    };
    if call.status == fault.status
        && fault.whole.starts_with(out)
        && has(notes, fault.why)
        && !call.out.is_late
        && is_ended
    {
        Ended::AsWanted
    } else {
        Ended::Otherwise
    }
}

// How a call ends whose read or write of this number fails.
fn ended_at<R: Threads + Sync>(
    rt: &HostRuntime,
    threads: &R,
    base: &Case,
    case: &Case,
    how: &How<'_>,
    fault: &Fault<'_>,
) -> Result<Ended, AllocError> {
    let call = told_by(rt, threads, base, case, how)?;
    let ended = how_ended(&call, fault);
    free_told(call);
    Ok(ended)
}

// The same call with a read or a write that fails.
fn failing_at<'a>(how: &How<'a>, is_read: bool, number: u64) -> How<'a> {
    How {
        read: if is_read { number } else { NEVER },
        write: if is_read { NEVER } else { number },
        ..*how
    }
}

// Whether a call ends as wanted, whichever one of its reads or writes fails, and there is one. Where it doesn't, tells the number.
fn fails_in_turn<R: Threads + Sync>(
    rt: &HostRuntime,
    threads: &R,
    base: &Case,
    case: &Case,
    how: &How<'_>,
    fault: &Fault<'_>,
    told: &mut String,
) -> Result<bool, AllocError> {
    let name = case.name.as_str();
    for number in 0..MOST_CALLS {
        match ended_at(
            rt,
            threads,
            base,
            case,
            &failing_at(how, fault.is_read, number),
            fault,
        )? {
            Ended::Done if number > 0 => return Ok(true),
            Ended::AsWanted => {}
            Ended::Done | Ended::Otherwise => {
                write!(
                    told,
                    "FAILED {name}: call {number} fails and it ends otherwise\n"
                )?;
                return Ok(false);
            }
        }
    }
    write!(told, "FAILED {name}: it never ends\n")?;
    Ok(false)
}

// What a case wants where a read or a write fails, by what stands in the part's title and by its text.
fn fault_of<'a>(case: &'a Case, is_read: bool, title: &str, note: &'a [u8]) -> Fault<'a> {
    let (status, how) = title.split_once(" ").unwrap_or((title, ""));
    let (done, whole) = part_of(&case.parts, "out").unwrap_or(("", b""));
    let (_, said) = part_of(&case.parts, "notes").unwrap_or(("", b""));
    let asked = match part_of(&case.parts, "asked") {
        Some((names, _)) => Some(names),
        None => None,
    };
    Fault {
        is_read,
        status: status.parse::<u8>().unwrap_or(255),
        why: if is_read { b"ReadFault" } else { b"WriteFault" },
        note,
        is_unwritten: how == "unwritten",
        asked,
        done: done.parse::<u8>().unwrap_or(255),
        whole,
        said,
    }
}

/// Whether a case's call ends as the case wants, whichever one of its reads or of its writes fails; a case may want nothing of it.
/// Where it doesn't, tells of it.
pub fn fail_as_wanted<R: Threads + Sync>(
    rt: &HostRuntime,
    threads: &R,
    base: &Case,
    case: &Case,
    how: &How<'_>,
    told: &mut String,
) -> Result<bool, AllocError> {
    let mut met = true;
    if let Some((title, note)) = part_of(&case.parts, "each read fails") {
        let fault = fault_of(case, true, title, note);
        met = fails_in_turn(rt, threads, base, case, how, &fault, told)?;
    }
    if let Some((title, note)) = part_of(&case.parts, "each write fails") {
        let fault = fault_of(case, false, title, note);
        met = fails_in_turn(rt, threads, base, case, how, &fault, told)? && met;
    }
    Ok(met)
}
