// Several junctions at once, over files and sinks in memory.
use junction_net::net;
use junction_run::Status;
use sig_io::{Gate, MemFiles, MemSink};
use std::alloc::{AllocError, Global};
use std::test::Fail;
use std::thread::Threads;
use test_cases::cases::texts;
use test_cases::gates::{Call, PairGate};
use test_cases::programs::EMPTY;
use test_cases::sites::{DARK, INTERGREENS, TIMES, TWO_STAGES};

// The list and the files that it names: q.pua has no green, p.pua has two stages, d0.txt has no second and d4.txt four.
const FILES: [(&str, &[u8]); 8] = [
    ("n.txt", TWO),
    ("e.vap", EMPTY),
    ("q.pua", DARK),
    ("p.pua", TWO_STAGES),
    ("t.csv", TIMES),
    ("g.csv", INTERGREENS),
    ("d0.txt", b""),
    ("d4.txt", b"\n\n\n\n"),
];

// The files in memory.
fn held(alloc: Global) -> Result<Vec<(String, Vec<u8>)>, AllocError> {
    let mut held = Vec::new(alloc);
    for (name, bytes) in FILES {
        held.push((
            String::from_str(alloc, name)?,
            Vec::from_slice(alloc, bytes)?,
        ))?;
    }
    Ok(held)
}

// What the list is answered, with the output.
fn run_net<R: Threads + Sync, G: Gate>(
    rt: &R,
    alloc: Global,
    gate: &G,
) -> Result<(Status, MemSink), Fail> {
    let words = texts(alloc, &["net", "n.txt"])?;
    let mut files = MemFiles::new(held(alloc)?, Vec::new(alloc), 50);
    let mut out = MemSink::new(alloc, 5000, Vec::new(alloc))?;
    let mut notes = MemSink::new(alloc, 1000, Vec::new(alloc))?;
    let status = net(rt, alloc, &words, &mut files, &mut out, &mut notes, gate);
    Ok((status, out))
}

// A junction without a second, and one with four.
const TWO: &[u8] = b"e.vap q.pua t.csv g.csv d0.txt\ne.vap p.pua t.csv g.csv d4.txt\n";

const TWO_TEXT: &[u8] =
    b"JUNCTION 1 0\nVAPLOG 1 K1 K2\nJUNCTION 2 0\nVAPLOG 1 K1 K2\n1|S1|RR|-|K1:Intergreen:K2|-\n2|S1|RR|-|K1:Intergreen:K2|-\n3|S1|UR|-|-|-\n4|S1|GR|-|-|-\n";

// Each of the two junctions waits for the other one.
const MEETINGS: [(Call, Call); 2] = [((1, 0), (2, 0)), ((2, 0), (1, 0))];

// On one thread the first junction would wait in vain.
#[test]
fn two_junctions_run_at_once(rt: HostRuntime) -> Result<(), Fail> {
    let gate = PairGate::new(rt.alloc(), &MEETINGS)?;
    let (status, out) = run_net(&rt, rt.alloc(), &gate)?;
    assert_eq!(rt; status, Status::Done);
    assert_eq!(rt; gate.given_up(), 0);
    assert_eq!(rt; out.bytes(), TWO_TEXT);
    Ok(())
}
