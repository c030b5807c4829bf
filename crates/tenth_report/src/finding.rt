// The breaches of a record that is read to its end.
ghost use Rattle.std.specs.Prelude.{◌≡◌, ◌≤◌, ℕ, true, None, IfErr, IfOk, OnOk, length};
ghost use Rattle.std.specs.Option.{ForSome};
ghost use Rattle.sig_io.specs.Outside.{Rose};
ghost use Rattle.pua_model.specs.Plan.{groups_in};
ghost use Rattle.tenth_records.specs.Answers.{first_of, groups_of, is_live, left_told, name_of, next_of};
ghost use Rattle.tenth_report.specs.Search.{IsNew, IsSearched, rules_in};
ghost use Rattle.tenth_report.specs.Stops.{IsReadFault, IsRecordStop, IsWriteFault};
ghost use Rattle.tenth_report.specs.Tables.{rules_by_tables};

use crate::search::{Found, Search};
use crate::stop::{RecordStop, stop_of};
use crate::tables::RecordTables;
use report_words::JudgeStop;
use sig_io::Files;
use sig_tables::Limits;
use std::alloc::Global;
use tenth_records::TenthRecord;
use tenth_tables::limits_of;

// Reads entries up to the end of the record, and judges what they show.
fn find_within<'a, F: Files>(
    limits: &Limits<'_>,
    record: &mut TenthRecord,
    search: &mut Search,
    word: &'a str,
    files: &mut F,
) -> Result<(), RecordStop<'a>>
    requires new { IsNew search.old (groups_of record.old) search.old.tolerance }
    requires tolerance { search.old.tolerance ≤ 90 }
    requires times { length limits.now.times ≡ groups_of record.old }
    requires pairs { limits.now.pairs.count ≡ groups_of record.old }
    requires live { is_live record.old ≡ true }
    requires none { first_of record.old ≡ None }
    requires start { next_of record.old ≡ 0 }
    requires name { name_of record.old ≡ word.now }
    ensures found { OnOk result (IsSearched (rules_in limits.now) search.old.tolerance (F.told files.old)
        (λ file. left_told record.old (file (name_of record.old))) search.new.found) }
    ensures stopped { ForSome (F.told files.old) (λ file.
        IfErr result (λ stop. IsRecordStop word.now (left_told record.old (file (name_of record.old))) stop)) }
    ensures contents_stay { F.told files.new ≡ F.told files.old }
    ensures later { F.faults files.old ≤ F.faults files.new }
    ensures read_fault { IsReadFault result → Rose (F.faults files.old) (F.faults files.new) }
    ensures no_write { IsWriteFault result → ⊥ }
{
    'entries: loop {
        match record.next_entry(files) {
            Ok(Some(entry)) => match search.take(limits, entry) {
                Ok(()) => {}
                Err(_memory) => return Err(RecordStop::Judge(JudgeStop::Memory)),
            },
            Ok(None) => match search.end_part(limits) {
                Ok(()) => return Ok(()),
                Err(_memory) => return Err(RecordStop::Judge(JudgeStop::Memory)),
            },
            Err(stop) => return Err(stop_of(word, stop)),
        }
    }
}

/// The breaches of a record by these tables, which is read to its end. What was before each part isn't known.
///
/// The tolerance is the number of tenths by which an amber or a red-amber may differ from its time. It answers `ReadFault` only
/// where a read failed.
pub(crate) fn find_breaches<'a, F: Files>(
    alloc: Global,
    tables: &RecordTables,
    record: &mut TenthRecord,
    tolerance: u32,
    word: &'a str,
    files: &mut F,
) -> Result<Found, RecordStop<'a>>
    requires times { length tables.now.times ≡ groups_in tables.now.plan }
    requires intergreens { tables.now.intergreens.count ≡ groups_in tables.now.plan }
    requires groups { groups_of record.old ≡ groups_in tables.now.plan }
    requires tolerance { tolerance ≤ 90 }
    requires live { is_live record.old ≡ true }
    requires none { first_of record.old ≡ None }
    requires start { next_of record.old ≡ 0 }
    requires name { name_of record.old ≡ word.now }
    ensures found { IfOk result (λ found. IsSearched (rules_by_tables tables.now) tolerance (F.told files.old)
        (λ file. left_told record.old (file (name_of record.old))) found) }
    ensures stopped { ForSome (F.told files.old) (λ file.
        IfErr result (λ stop. IsRecordStop word.now (left_told record.old (file (name_of record.old))) stop)) }
    ensures contents_stay { F.told files.new ≡ F.told files.old }
    ensures later { F.faults files.old ≤ F.faults files.new }
    ensures read_fault { IsReadFault result → Rose (F.faults files.old) (F.faults files.new) }
    ensures no_write { IsWriteFault result → ⊥ }
{
    let limits = limits_of(&tables.times, &tables.intergreens);
    let mut search = Search::new(alloc, tables.plan.groups(), tolerance);
    match find_within(&limits, record, &mut search, word, files) {
        Ok(()) => Ok(search.found()),
        Err(stop) => Err(stop),
    }
}
