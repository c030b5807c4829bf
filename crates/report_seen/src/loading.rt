// A log that is held in memory, and what it adds up to.
ghost use Rattle.std.specs.Prelude.{◌≡◌, ◌≤◌, List, ℕ, Err, IfErr, IfOk};
ghost use Rattle.std.specs.Option.{ForSome};
ghost use Rattle.sig_io.specs.Outside.{Rose};
ghost use Rattle.report_seen.specs.Summed.{IsUnsummed};
ghost use Rattle.report_seen.specs.Loaded.{IsFault, IsOfLoad, IsSummed, IsUnloaded, IsUnread};

use crate::bytes::LogBytes;
use crate::stop::{Stop, stop_of};
use crate::summing::add_up;
use log_read::{Begin, LogRecords};
use log_sums::LogSums;
use report_words::JudgeStop;
use sig_io::{Files, ReadRefusal, read_whole};
use sig_types::MOST_SECONDS;
use std::alloc::Global;

/// A log that was read to its end, and what it adds up to.
#[derive(Drop)]
pub(crate) struct Summed {
    /// Its bytes.
    pub(crate) bytes: Vec<u8>,
    /// Its reader, which has the names of the groups.
    pub(crate) records: LogRecords,
    /// The sums of all its seconds.
    pub(crate) sums: LogSums,
}

// The bytes of a log.
fn read_log<'a, F: Files>(
    alloc: Global,
    word: &'a str,
    files: &mut F,
) -> Result<Vec<u8>, JudgeStop<'a>>
    ensures bytes { ForSome (F.told files.old) (λ file. IfOk result (λ v. v.items ≡ file word.now)) }
    ensures stop { IfErr result (λ stop. IsUnread word.now stop) }
    ensures contents_stay { F.told files.new ≡ F.told files.old }
    ensures later { F.faults files.old ≤ F.faults files.new }
    ensures cause { IsFault result → Rose (F.faults files.old) (F.faults files.new) }
{
    match read_whole(alloc, files, word, usize::MAX - 1) {
        Ok(bytes) => Ok(bytes),
        Err(ReadRefusal::Fault) => Err(JudgeStop::ReadFault(word)),
        Err(ReadRefusal::Memory) => Err(JudgeStop::Memory),
        // No memory holds so many bytes.
        Err(ReadRefusal::TooLong(_)) => Err(JudgeStop::Memory),
    }
}

// Why a log that is held in memory isn't added up, as a stop of the call.
fn stop_in<'a>(stop: Stop, word: &'a str) -> JudgeStop<'a>
    ensures stop { (bytes : List ℕ) → IsUnsummed bytes stop → IsUnloaded word.now bytes result }
    ensures of_load { IsOfLoad result }
    ensures no_fault { IsFault {A = Unit {0}} (Err result) → ⊥ }
{
    match stop {
        Stop::Line { line, why } => JudgeStop::RefusedLine { word, line, why },
        Stop::Memory => JudgeStop::Memory,
        // No read of bytes in memory fails, and adding up stops in no other way.
        Stop::ReadFault => JudgeStop::Memory,
        Stop::Words => JudgeStop::Memory,
        Stop::TooManySeconds => JudgeStop::Memory,
        Stop::WriteFault => JudgeStop::Memory,
        Stop::LogEnds(_) => JudgeStop::Memory,
    }
}

// What a log with these bytes adds up to.
fn sum_up<'a>(alloc: Global, word: &'a str, bytes: Vec<u8>) -> Result<Summed, JudgeStop<'a>>
    ensures bytes { IfOk result (λ s. s.bytes.items ≡ bytes.items) }
    ensures summed { IfOk result IsSummed }
    ensures stop { IfErr result (λ stop. IsUnloaded word.now bytes.items stop) }
    ensures of_load { IfErr result IsOfLoad }
    ensures no_fault { IsFault result → ⊥ }
{
    let mut file = LogBytes::new(&bytes);
    let mut records = match LogRecords::open(alloc, &mut file, word, Begin::AtOne) {
        Ok(records) => records,
        Err(stop) => return Err(stop_in(stop_of(stop), word)),
    };
    match add_up(alloc, &mut records, 1, MOST_SECONDS, &[], &mut file) {
        Ok(sums) => Ok(Summed {
            bytes,
            records,
            sums,
        }),
        Err(stop) => Err(stop_in(stop, word)),
    }
}

/// Reads a log to its end, and adds it up.
pub(crate) fn load<'a, F: Files>(
    alloc: Global,
    word: &'a str,
    files: &mut F,
) -> Result<Summed, JudgeStop<'a>>
    ensures bytes { ForSome (F.told files.old) (λ file. IfOk result (λ s. s.bytes.items ≡ file word.now)) }
    ensures summed { IfOk result IsSummed }
    ensures stop { ForSome (F.told files.old) (λ file. IfErr result (λ stop. IsUnloaded word.now (file word.now) stop)) }
    ensures of_load { IfErr result IsOfLoad }
    ensures contents_stay { F.told files.new ≡ F.told files.old }
    ensures later { F.faults files.old ≤ F.faults files.new }
    ensures cause { IsFault result → Rose (F.faults files.old) (F.faults files.new) }
{
    let bytes = read_log(alloc, word, files)?;
    sum_up(alloc, word, bytes)
}
