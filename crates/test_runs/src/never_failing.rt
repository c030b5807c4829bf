// Files and a sink that never fail.
use junction_run::Status;
use sig_io::{SureFiles, SureSink};
use std::test::Fail;
use test_cases::cases::{TIMER_RUN, answer, files};

#[test]
fn what_never_fails_ends_a_run(rt: HostRuntime) -> Result<(), Fail> {
    let alloc = rt.alloc();
    let mut files = SureFiles::new(files(alloc, &TIMER_RUN)?);
    let (status, notes) = answer(alloc, TIMER_RUN.words, &mut files, &mut SureSink)?;
    assert_eq!(rt; status, Status::Done);
    assert!(rt; notes.bytes().is_empty());
    Ok(())
}
