// Live runs, over files and sinks in memory.
use crate::sums::{file_sums, first_sums, log_sums, without_counts};
use junction_live::live;
use junction_run::Status;
use sig_io::{Files, FreeGate, Gate, MemFiles, MemSink, Sink};
use std::alloc::{AllocError, Global};
use std::test::Fail;
use std::thread::Threads;
use test_cases::cases::{Case, DONE, FOUR_ARMS_RUN, files, texts};
use test_cases::gates::{Call, CountGate, PairGate};
use test_cases::watched::{Side, failing, failing_calls};

pub(crate) const LIVE: &[&str] = &["live", "p.vap", "p.pua", "t.csv", "g.csv", "d.txt"];

// What a live run answers to these words, over these files and this output, with the notes.
fn live_answer<R: Threads + Sync, F: Files, O: Sink + Send, G: Gate>(
    rt: &R,
    alloc: Global,
    words: &[&str],
    files: &mut F,
    out: &mut O,
    gate: &G,
) -> Result<(Status, MemSink), Fail> {
    let words = texts(alloc, words)?;
    let mut notes = MemSink::new(alloc, 1000, Vec::new(alloc))?;
    let status = live(rt, alloc, &words, files, out, &mut notes, gate);
    Ok((status, notes))
}

/// What these words of a live run answer over the files of a case, with the output and the notes.
pub(crate) fn play_by<R: Threads + Sync, G: Gate>(
    rt: &R,
    alloc: Global,
    words: &[&str],
    case: &Case<'_>,
    gate: &G,
) -> Result<(Status, MemSink, MemSink), Fail> {
    let mut files = MemFiles::new(files(alloc, case)?, Vec::new(alloc), 50);
    let mut out = MemSink::new(alloc, case.room, Vec::new(alloc))?;
    let (status, notes) = live_answer(rt, alloc, words, &mut files, &mut out, gate)?;
    Ok((status, out, notes))
}

// What a live run of a case answers, with the output and the notes.
fn play<R: Threads + Sync, G: Gate>(
    rt: &R,
    alloc: Global,
    case: &Case<'_>,
    gate: &G,
) -> Result<(Status, MemSink, MemSink), Fail> {
    play_by(rt, alloc, LIVE, case, gate)
}

// Two fronts of one detector in one line.
const TWO_FRONTS: Case<'static> = Case {
    detectors: b"1:2:0\n",
    ..DONE
};

#[test]
fn two_fronts_stand_in_two_seconds(rt: HostRuntime) -> Result<(), Fail> {
    let (status, out, notes) = play(&rt, rt.alloc(), &TWO_FRONTS, &FreeGate)?;
    let (sums, _lines) = log_sums(out.bytes());
    assert_eq!(rt; status, Status::Done);
    assert!(rt;
        without_counts(rt.alloc(), out.bytes())?.as_slice()
            == b"VAPLOG 1 K1 K2\n1|S1|RR|-|-\n2|S1|RR|-|-\n".as_slice()
    );
    assert!(rt; sums == file_sums(b"1:2:0\n"));
    assert!(rt; notes.bytes().is_empty());
    Ok(())
}

// The entries of the four arms' detectors with a front and a rear.
const ENTRIES: [(u32, &[u8]); 12] = [
    (1, b"1:1:1 "),
    (2, b"2:1:1 "),
    (3, b"3:1:1 "),
    (4, b"4:1:1 "),
    (5, b"5:1:1 "),
    (6, b"6:1:1 "),
    (7, b"7:1:1 "),
    (8, b"8:1:1 "),
    (9, b"9:1:1 "),
    (10, b"10:1:1 "),
    (11, b"11:1:1 "),
    (12, b"12:1:1 "),
];

// An hour of traffic: line k has an entry for each detector d for which d + 5 divides k + 7 d.
fn traffic(alloc: Global) -> Result<Vec<u8>, AllocError> {
    let mut lines = Vec::new(alloc);
    for k in 1..3601u32 {
        for (d, entry) in ENTRIES {
            if (k + 7 * d) % (d + 5) == 0 {
                lines.extend_from_slice(entry)?;
            }
        }
        if lines.last().copied() == Some(b' ') {
            lines.pop();
        }
        lines.push(b'\n')?;
    }
    Ok(lines)
}

#[test]
fn four_arms_keep_the_sums_of_an_hour(rt: HostRuntime) -> Result<(), Fail> {
    let alloc = rt.alloc();
    let traffic = traffic(alloc)?;
    let case = Case {
        detectors: traffic.as_slice(),
        room: 400_000,
        ..FOUR_ARMS_RUN
    };
    let (status, out, notes) = play(&rt, alloc, &case, &FreeGate)?;
    let (sums, lines) = log_sums(out.bytes());
    assert_eq!(rt; status, Status::Done);
    assert_eq!(rt; lines, 3602);
    assert!(rt; sums == file_sums(&traffic));
    assert!(rt; notes.bytes().is_empty());
    Ok(())
}

// The files of a live run in the order in which they are read.
const FILES: [&str; 5] = ["p.pua", "t.csv", "g.csv", "p.vap", "d.txt"];

// Whether files were asked for in their order up to a call that failed, and for nothing after it, and the note names the last
// one. Files are noted by the first letters of their names.
fn tells_last(alloc: Global, asked: &[u8], note: &[u8]) -> Result<bool, Fail> {
    let Some((last, letters)) = asked.split_last() else {
        return Ok(false);
    };
    let in_order = letters
        .iter()
        .zip(FILES.iter())
        .all(|(a, b)| Some(*a) == b.as_bytes().first().copied());
    let place = letters.len().saturating_sub(1);
    let name = FILES.get(place).copied().unwrap_or_default();
    let wanted = format!(in alloc; "junction: {name}: ReadFault\n")?;
    Ok(*last == b'!' && in_order && note == wanted.as_bytes())
}

/// Whether these words of a live run are done before the call of that number on this side, which fails; an error where they answer
/// otherwise than they must. After a read that failed nothing is asked for, and nothing is written. After a write that failed
/// nothing is written, and no event is counted twice.
pub(crate) fn is_done_before<R: Threads + Sync>(
    rt: &R,
    alloc: Global,
    words: &[&str],
    side: Side,
    call: u64,
) -> Result<bool, Fail> {
    let (mut files, mut out) = failing(alloc, &TWO_FRONTS, side, call)?;
    let (status, notes) = live_answer(rt, alloc, words, &mut files, &mut out, &FreeGate)?;
    let note = notes.bytes();
    let as_wanted = match status {
        Status::ReadFault => {
            tells_last(alloc, &files.asked, note)? && out.sink.bytes().is_empty()
        }
        Status::WriteFault => {
            let (sums, _lines) = log_sums(out.sink.bytes());
            out.failed
                && out.late == 0
                && sums[0].0 <= 2
                && sums[0].1 == 0
                && note == b"junction: WriteFault\n".as_slice()
        }
        Status::Done => note.is_empty(),
        Status::Memory
        | Status::Words
        | Status::RefusedFile
        | Status::RefusedLine
        | Status::TooLong => false,
    };
    if as_wanted {
        Ok(status == Status::Done)
    } else {
        Err(Fail::new("answers otherwise than it must"))
    }
}

#[test]
fn each_call_of_a_live_run_fails_in_turn(rt: HostRuntime) -> Result<(), Fail> {
    let reads = failing_calls(|call| is_done_before(&rt, rt.alloc(), LIVE, Side::Read, call))?;
    let writes = failing_calls(|call| is_done_before(&rt, rt.alloc(), LIVE, Side::Write, call))?;
    assert!(rt; 100 < reads && 5 < writes, "{reads} {writes}");
    Ok(())
}

// A thousand seconds have more records than are held before the first of them goes out, which fails.
#[test]
fn no_further_second_is_made_after_a_write_fault(rt: HostRuntime) -> Result<(), Fail> {
    let alloc = rt.alloc();
    let lines = Vec::from_elem(alloc, b'\n', 1000)?;
    let case = Case {
        detectors: &lines,
        room: 20,
        ..DONE
    };
    let gate = CountGate::new();
    let (status, _out, _notes) = play(&rt, alloc, &case, &gate)?;
    assert_eq!(rt; status, Status::WriteFault);
    assert!(rt; gate.seconds() < 400, "{}", gate.seconds());
    Ok(())
}

// Three pairs of calls, each of which meets the other.
const MEETINGS: [(Call, Call); 6] = [
    ((1, 0), (2, 0)),
    ((2, 0), (1, 0)),
    ((0, 0), (1, 1)),
    ((1, 1), (0, 0)),
    ((0, 1), (2, 1)),
    ((2, 1), (0, 1)),
];

// Feeders and controller run at once: the first take waits for the first detector's front and for no rear of the second one.
#[test]
fn all_actors_run_at_once(rt: HostRuntime) -> Result<(), Fail> {
    let alloc = rt.alloc();
    let case = Case {
        detectors: b"1:1:1 2:1:1\n\n",
        ..DONE
    };
    let gate = PairGate::new(alloc, &MEETINGS)?;
    let (status, out, _notes) = play(&rt, alloc, &case, &gate)?;
    assert_eq!(rt; status, Status::Done);
    assert_eq!(rt; gate.given_up(), 0);
    let first = first_sums(out.bytes());
    assert_eq!(rt; first[0].0, 1);
    assert_eq!(rt; first[1].1, 0);
    let (sums, _lines) = log_sums(out.bytes());
    assert!(rt; sums == file_sums(b"1:1:1 2:1:1\n\n"));
    assert!(rt;
        without_counts(alloc, out.bytes())?.as_slice()
            == b"VAPLOG 1 K1 K2\n1|S1|RR|-|-\n2|S1|RR|-|-\n3|S1|RR|-|-\n".as_slice()
    );
    Ok(())
}
