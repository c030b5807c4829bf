// The sums of a log.
ghost use Rattle.std.specs.Prelude.{◌≡◌, ◌≤◌, ◌<◌, ◌+◌, ◌^◌, [], true, false, Err, IfErr, IfOk, length};
ghost use Rattle.std.specs.Option.{ForSome};
ghost use Rattle.sig_io.specs.Outside.{Rose};
ghost use Rattle.log_read.specs.declared.begin.Begin.{Begin};
ghost use Rattle.log_read.specs.RecordAnswers.{Reads, begin_of, is_live, name_of, names_given, names_of, records_given};
ghost use Rattle.report_seen.specs.Answers.{IsOfReading};
ghost use Rattle.log_sums.specs.Serves.{serves_of};
ghost use Rattle.sums_text.specs.Words.{AreTextual};
ghost use Rattle.report_seen.specs.Summed.{IsSumming};

use crate::stop::{Stop, stop_of};
use log_read::LogRecords;
use log_sums::laws::sums_are_of_records;
use log_sums::{LogSums, Serve, take_record};
use sig_io::Files;
use std::alloc::Global;

/// What the seconds from `from` to `to` of a log add up to, of which no record was given yet, and what these detectors saw that
/// serve a group. It is read to its end.
pub fn add_up<F: Files>(
    alloc: Global,
    records: &mut LogRecords,
    from: u32,
    to: u32,
    serves: &[Serve],
    files: &mut F,
) -> Result<LogSums, Stop>
    requires begin { begin_of records.old ≡ Begin.AtOne }
    requires found { names_given records.old ≡ false }
    requires live { is_live records.old ≡ true }
    requires none { records_given records.old ≡ 0 }
    requires few { length (names_of records.old) ≤ 64 }
    ensures summing { ForSome (F.told files.old) (λ file. Reads records.old (file (name_of records.old)) [] →
        IsSumming (names_of records.old) (file (name_of records.old)) from to result) }
    ensures serves { IfOk result (λ sums. serves_of sums.serves.items ≡ serves.now) }
    ensures textual { IfOk result (λ sums. AreTextual (length (names_of records.old)) sums) }
    ensures of_reading { IfErr result (λ stop. IsOfReading stop) }
    ensures names { names_of records.new ≡ names_of records.old }
    ensures contents_stay { F.told files.new ≡ F.told files.old }
    ensures later { F.faults files.old ≤ F.faults files.new }
    ensures cause { result ≡ Err Stop.ReadFault → Rose (F.faults files.old) (F.faults files.new) }
{
    sums_are_of_records();
    let mut sums = match LogSums::serving(alloc, from, to, serves) {
        Ok(sums) => sums,
        Err(_memory) => return Err(Stop::Memory),
    };
    'records: loop {
        match records.next_record(files) {
            Ok(true) => {}
            Ok(false) => return Ok(sums),
            Err(stop) => return Err(stop_of(stop)),
        }
        match take_record(alloc, &mut sums, records.current()) {
            Ok(()) => {}
            Err(_memory) => return Err(Stop::Memory),
        }
    }
}
