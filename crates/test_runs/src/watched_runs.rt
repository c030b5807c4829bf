// Live runs with watchers, over files and sinks in memory.
use crate::live_runs::{is_done_before, play_by};
use junction_run::Status;
use sig_io::FreeGate;
use sig_types::text::{cut_at, number, strip};
use std::test::Fail;
use test_cases::cases::{Case, DONE};
use test_cases::gates::{Call, PairGate};
use test_cases::sites::TWO_STAGES;
use test_cases::watched::{Side, failing_calls};

// The words of a live run with these watchers.
const fn watched(watchers: &'static str) -> [&'static str; 7] {
    [
        "live", "p.vap", "p.pua", "t.csv", "g.csv", "d.txt", watchers,
    ]
}

// The second and the aspects of a text that is the line of the one watcher, whose second is at most `last`.
fn sight_in(text: &[u8], last: u32) -> Option<(u32, &[u8])> {
    let line = strip(b"WATCH 1 ", text)?;
    let (digits, aspects) = cut_at(b' ', line)?;
    let second = number(digits, 0, last)?;
    Some((second, aspects))
}

#[test]
fn a_watcher_tells_a_second_of_the_log(rt: HostRuntime) -> Result<(), Fail> {
    let case = Case {
        detectors: b"\n\n",
        ..DONE
    };
    let (status, out, notes) = play_by(&rt, rt.alloc(), &watched("1"), &case, &FreeGate)?;
    let log = b"VAPLOG 1 K1 K2\n1|S1|RR|-|-|-\n2|S1|RR|-|-|-\n3|S1|RR|-|-|-\n";
    let lines = strip(log, out.bytes()).unwrap_or_default();
    assert_eq!(rt; status, Status::Done);
    assert!(rt; matches!(sight_in(lines, 2), Some((_, b"RR\n"))));
    assert!(rt; notes.bytes().is_empty());
    Ok(())
}

#[test]
fn each_call_with_watchers_fails_in_turn(rt: HostRuntime) -> Result<(), Fail> {
    let words = watched("2");
    let reads = failing_calls(|call| is_done_before(&rt, rt.alloc(), &words, Side::Read, call))?;
    let writes = failing_calls(|call| is_done_before(&rt, rt.alloc(), &words, Side::Write, call))?;
    assert!(rt; 100 < reads && 8 < writes, "{reads} {writes}");
    Ok(())
}

// The third second waits for the first look, and the last look for the third second.
const LOOKS: [(Call, Call); 2] = [((0, 2), (101, 0)), ((101, 15), (0, 2))];

// What a watcher sees is of a second that was made while it looked.
#[test]
fn a_watcher_looks_while_seconds_are_made(rt: HostRuntime) -> Result<(), Fail> {
    let alloc = rt.alloc();
    let case = Case {
        plan: TWO_STAGES,
        detectors: b"\n\n\n\n",
        ..DONE
    };
    let gate = PairGate::new(alloc, &LOOKS)?;
    let (status, out, _notes) = play_by(&rt, alloc, &watched("1"), &case, &gate)?;
    let log =
        b"VAPLOG 1 K1 K2\n1|S1|RR|-|K1:Intergreen:K2|-\n2|S1|RR|-|K1:Intergreen:K2|-\n3|S1|UR|-|-|-\n4|S1|GR|-|-|-\n5|S1|GR|-|-|-\n";
    let lines = strip(log, out.bytes()).unwrap_or_default();
    assert_eq!(rt; status, Status::Done);
    assert_eq!(rt; gate.given_up(), 0);
    assert!(rt;
        matches!(
            sight_in(lines, 4),
            Some((2, b"RR\n") | (3, b"UR\n") | (4, b"GR\n"))
        )
    );
    Ok(())
}
