// The refusals of a log.
ghost use Rattle.std.specs.Prelude.{true, ◌≡◌, ◌≤◌, Err, IfErr, List, ℕ, length};
ghost use Rattle.std.specs.Option.{ForSome};
ghost use Rattle.sig_io.specs.Outside.{Rose};
ghost use Rattle.sig_types.specs.declared.record.Record.{Record};
ghost use Rattle.pua_model.specs.Plan.{groups_in};
ghost use Rattle.sig_tables.specs.SiteRules.{rules_of};
ghost use Rattle.log_read.specs.RecordAnswers.{Stops};
ghost use Rattle.report_judged.specs.RefusalsFound.{IsFinding, IsLogFault, IsOfLog, IsUnread};

use log_read::{Begin, LogRecords, LogStop};
use refusal_text::Refusals;
use report_words::JudgeStop;
use sig_io::Files;
use site_load::SiteTables;
use std::alloc::Global;

// Why a log is read no further.
fn stop_of<'a>(stop: LogStop, word: &'a str) -> JudgeStop<'a>
    ensures unread { (names : List (List ℕ)) (bytes : List ℕ) (records : List Record) → Stops true Begin.Anywhere names bytes records stop →
        IsUnread names word.now bytes result }
    ensures of_log { IsOfLog result }
    ensures fault { IsLogFault {A = Unit {0}} (Err result) → stop ≡ LogStop.Fault }
{
    match stop {
        LogStop::Memory => JudgeStop::Memory,
        LogStop::Fault => JudgeStop::ReadFault(word),
        LogStop::At { line, why } => JudgeStop::RefusedLine { word, line, why },
    }
}

/// What was refused in a log at a site, which is read to its end, and what is told of it: in the seconds from `from` to `to`.
/// What was before them counts all the same.
pub fn find_refusals<'a, F: Files>(
    alloc: Global,
    tables: &SiteTables,
    log: &'a str,
    from: u32,
    to: u32,
    files: &mut F,
) -> Result<Refusals, JudgeStop<'a>>
    requires times { length tables.now.times ≡ groups_in tables.now.plan }
    requires intergreens { tables.now.intergreens.count ≡ groups_in tables.now.plan }
    ensures found { ForSome (F.told files.old) (λ file. IsFinding tables.now.plan.names (rules_of tables.now.times tables.now.intergreens)
        log.now (file log.now) from to result) }
    ensures of_log { IfErr result (λ stop. IsOfLog stop) }
    ensures contents_stay { F.told files.new ≡ F.told files.old }
    ensures later { F.faults files.old ≤ F.faults files.new }
    ensures cause { IsLogFault result → Rose (F.faults files.old) (F.faults files.new) }
{
    let mut part = match LogRecords::open_by(alloc, files, &tables.plan, log, Begin::Anywhere) {
        Ok(part) => part,
        Err(stop) => return Err(stop_of(stop, log)),
    };
    let mut refusals = Refusals::new(alloc, tables.plan.groups(), from, to);
    'records: loop {
        match part.next_record(files) {
            Ok(true) => {}
            Ok(false) => return Ok(refusals),
            Err(stop) => return Err(stop_of(stop, log)),
        }
        match refusals.show(&tables.times, &tables.intergreens, part.current()) {
            Ok(()) => {}
            Err(_memory) => return Err(JudgeStop::Memory),
        }
    }
}
