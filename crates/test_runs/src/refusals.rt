// What calls of the library answer that do nothing.
use junction_calls::{
    DetectorCounts, NamesOf, Refusal, RefusedStage, Told, empty, group_name, load_into,
    make_second, refused_stage, tell_names, variable_value,
};
use std::alloc::Global;
use std::test::Fail;
use test_calls::logs::{NO_REFUSAL, let_go, source_of};
use test_cases::cases::{Case, DONE, TIMER_RUN};

// So many fronts and rears of detector 1.
fn counts(fronts: u32, rears: u32) -> DetectorCounts {
    let mut counts = DetectorCounts {
        fronts: [0; 64],
        rears: [0; 64],
    };
    counts.fronts[0] = fronts;
    counts.rears[0] = rears;
    counts
}

// A place in which another second stands.
fn untold() -> Told {
    Told {
        second: 77,
        fault_line: 0,
        stages: 0,
        turns: 0,
        place: 0,
        from: 0,
        to: 0,
        t: 0,
        fault: 0,
        groups: 0,
        aspects: [0; 64],
        turn_groups: [0; 64],
        turn_rules: [0; 64],
        turn_others: [0; 64],
        reserved: [0; 2],
    }
}

// What loading answers, with the note's place and where the text is refused.
fn loaded(alloc: Global, is_code: bool, case: &Case<'_>) -> (u32, [u8; 40], Refusal) {
    let mut handle = empty();
    let mut note = [b'.'; 40];
    let mut refusal = NO_REFUSAL;
    let status = load_into(
        alloc,
        &source_of(is_code),
        &mut handle,
        case.program,
        case.plan,
        case.times,
        case.intergreens,
        &mut note,
        &mut refusal,
    );
    let_go(alloc, &mut handle);
    (status, note, refusal)
}

// No program.
const NO_PROGRAM: Case<'static> = Case {
    program: b"PROGRAM nothing;",
    ..DONE
};

// No plan, whose note is cut.
const NO_PLAN: Case<'static> = Case {
    plan: b"$SIGNAL_GROUPS\nK1 1\nK1 2\n",
    ..DONE
};

#[test]
fn refused_texts_are_noted(rt: HostRuntime) -> Result<(), Fail> {
    let alloc = rt.alloc();
    let (status, note, refusal) = loaded(alloc, false, &NO_PROGRAM);
    assert_eq!(rt; status, 5);
    assert_eq!(rt; (refusal.noted, refusal.file, refusal.line), (32, 0, 1));
    assert_eq!(rt;
        note.as_slice(),
        b"junction: program:1: Unexpected\n........".as_slice()
    );
    let (status, note, refusal) = loaded(alloc, true, &NO_PROGRAM);
    assert_eq!(rt; status, 5);
    assert_eq!(rt; (refusal.noted, refusal.file, refusal.line), (28, 0, 1));
    assert!(rt; note.starts_with(b"junction: program:1: Header\n"));
    let (status, _note, refusal) = loaded(alloc, false, &DONE);
    assert_eq!(rt; status, 0);
    assert_eq!(rt; refusal.file, 9);
    let (status, note, refusal) = loaded(alloc, false, &NO_PLAN);
    assert_eq!(rt; status, 5);
    assert_eq!(rt; (refusal.file, refusal.line), (1, 3));
    assert!(rt; note.starts_with(b"junction: plan:3: "));
    Ok(())
}

#[test]
fn nothing_is_told_of_what_is_not_there(rt: HostRuntime) -> Result<(), Fail> {
    let alloc = rt.alloc();
    let mut handle = empty();
    let mut name = [b'.'; 4];
    let mut stage = RefusedStage {
        from: 9,
        to: 9,
        rule: 9,
    };
    assert_eq!(rt; group_name(&mut handle, alloc, 0, &mut name), 0);
    assert_eq!(rt; refused_stage(&mut handle, alloc, 0, &mut stage), 4);
    let case = TIMER_RUN;
    let mut refusal = NO_REFUSAL;
    let status = load_into(
        alloc,
        &source_of(false),
        &mut handle,
        case.program,
        case.plan,
        case.times,
        case.intergreens,
        &mut [],
        &mut refusal,
    );
    assert_eq!(rt; status, 0);
    assert_eq!(rt; group_name(&mut handle, alloc, 2, &mut name), 0);
    assert_eq!(rt; name.as_slice(), b"....".as_slice());
    assert_eq!(rt; group_name(&mut handle, alloc, 1, &mut name[..1]), 2);
    assert_eq!(rt; name.as_slice(), b"K...".as_slice());
    assert_eq!(rt; refused_stage(&mut handle, alloc, 0, &mut stage), 4);
    assert_eq!(rt; stage.rule, 9);
    let mut told = untold();
    let rears_ahead = counts(0, 1);
    assert_eq!(rt;
        make_second(&mut handle, alloc, &rears_ahead, &mut told),
        Some(false)
    );
    assert_eq!(rt; told.second, 77);
    let_go(alloc, &mut handle);
    assert_eq!(rt;
        make_second(&mut handle, alloc, &rears_ahead, &mut told),
        None
    );
    assert_eq!(rt; told.second, 77);
    Ok(())
}

const COUNTING: &[u8] = b"PROGRAM v;\nSeen := Seen + Front_ends(1);\nother := 7;\nPROG_ENDE: .\n";

#[test]
fn variables_are_told(rt: HostRuntime) -> Result<(), Fail> {
    let alloc = rt.alloc();
    let mut names = [b'.'; 12];
    let mut length = 0;
    assert_eq!(rt;
        tell_names(
            alloc,
            NamesOf::Variables,
            b"PROGRAM v;",
            &mut names,
            &mut length
        ),
        5
    );
    assert_eq!(rt; length, 0);
    assert_eq!(rt;
        tell_names(alloc, NamesOf::Variables, COUNTING, &mut names, &mut length),
        0
    );
    assert_eq!(rt; length, 11);
    assert_eq!(rt; names.as_slice(), b"seen\nother\n.".as_slice());
    let case = Case {
        program: COUNTING,
        ..TIMER_RUN
    };
    let mut handle = empty();
    let mut refusal = NO_REFUSAL;
    let mut value = 5;
    assert_eq!(rt; variable_value(&mut handle, alloc, 0, &mut value), 4);
    let status = load_into(
        alloc,
        &source_of(false),
        &mut handle,
        case.program,
        case.plan,
        case.times,
        case.intergreens,
        &mut [],
        &mut refusal,
    );
    assert_eq!(rt; status, 0);
    assert_eq!(rt; variable_value(&mut handle, alloc, 2, &mut value), 4);
    assert_eq!(rt; value, 5);
    let mut told = untold();
    let two_fronts = counts(2, 0);
    assert_eq!(rt;
        make_second(&mut handle, alloc, &two_fronts, &mut told),
        Some(true)
    );
    assert_eq!(rt; variable_value(&mut handle, alloc, 0, &mut value), 0);
    assert_eq!(rt; value, 2);
    assert_eq!(rt; variable_value(&mut handle, alloc, 1, &mut value), 0);
    assert_eq!(rt; value, 7);
    let_go(alloc, &mut handle);
    Ok(())
}
