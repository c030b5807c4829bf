// The sums of the parts of a log.
ghost use Rattle.std.specs.Prelude.{◌≡◌, ◌≤◌, ◌<◌, ◌+◌, ◌^◌, ℕ, List, [], true, false, Err, IfErr, IfOk, length};
ghost use Rattle.std.specs.Option.{ForSome};
ghost use Rattle.sig_io.specs.Outside.{Rose};
ghost use Rattle.log_read.specs.declared.begin.Begin.{Begin};
ghost use Rattle.log_read.specs.RecordAnswers.{Reads, begin_of, is_live, name_of, names_given, names_of, records_given};
ghost use Rattle.report_seen.specs.Answers.{IsOfReading};
ghost use Rattle.sig_types.specs.declared.record.Record.{Record};
ghost use Rattle.log_sums.specs.declared.serves.Serve.{Serve};
ghost use Rattle.log_sums.specs.PartsAdding.{PartsUpTo};
ghost use Rattle.log_sums.specs.Parts.{AreParts};
ghost use Rattle.sums_text.specs.Parts.{AreAllTextual};
ghost use Rattle.report_seen.specs.Summed.{IsParting};

use crate::stop::{Stop, stop_of};
use log_read::LogRecords;
use log_sums::{LogSums, PartSums, Serve, take_part};
use sig_io::Files;
use std::alloc::Global;

// All parts, where the log ends.
fn whole(parts: PartSums) -> Result<Vec<LogSums>, Stop>
    ensures parts { IfOk result (λ v. (groups from each to : ℕ) (serves : List Serve) (records : List Record) → 1 ≤ each →
        PartsUpTo groups from each to serves records parts → AreParts groups from each to serves records v.items) }
    ensures memory { IfErr result (λ stop. stop ≡ Stop.Memory) }
{
    match parts.finish() {
        Ok(all) => Ok(all),
        Err(_memory) => Err(Stop::Memory),
    }
}

/// What the parts of so many seconds add up to, from second `from` to second `to` of a log, of which no record was given yet, and
/// what these detectors saw in each that serve a group. The log is read to its end.
pub fn add_up_parts<F: Files>(
    alloc: Global,
    records: &mut LogRecords,
    from: u32,
    each: u32,
    to: u32,
    serves: &[Serve],
    files: &mut F,
) -> Result<Vec<LogSums>, Stop>
    requires begin { begin_of records.old ≡ Begin.AtOne }
    requires found { names_given records.old ≡ false }
    requires live { is_live records.old ≡ true }
    requires none { records_given records.old ≡ 0 }
    requires few { length (names_of records.old) ≤ 64 }
    requires some { 1 ≤ each }
    ensures parting { ForSome (F.told files.old) (λ file. Reads records.old (file (name_of records.old)) [] →
        IsParting (names_of records.old) (file (name_of records.old)) from each to serves.now result) }
    ensures textual { IfOk result (λ parts. AreAllTextual (length (names_of records.old)) parts.items) }
    ensures of_reading { IfErr result (λ stop. IsOfReading stop) }
    ensures names { names_of records.new ≡ names_of records.old }
    ensures contents_stay { F.told files.new ≡ F.told files.old }
    ensures later { F.faults files.old ≤ F.faults files.new }
    ensures cause { result ≡ Err Stop.ReadFault → Rose (F.faults files.old) (F.faults files.new) }
{
    let mut parts = match PartSums::none(alloc, from, each, to, serves) {
        Ok(parts) => parts,
        Err(_memory) => return Err(Stop::Memory),
    };
    'records: loop {
        match records.next_record(files) {
            Ok(true) => {}
            Ok(false) => return whole(parts),
            Err(stop) => return Err(stop_of(stop)),
        }
        match take_part(alloc, &mut parts, records.current()) {
            Ok(()) => {}
            Err(_memory) => return Err(Stop::Memory),
        }
    }
}
