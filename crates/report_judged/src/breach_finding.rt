// The breaches of a log.
ghost use Rattle.std.specs.Prelude.{◌≡◌, ◌≤◌, ℕ, List, [], true, OnOk, length};
ghost use Rattle.std.specs.Option.{ForSome};
ghost use Rattle.sig_io.specs.Outside.{Rose};
ghost use Rattle.sig_types.specs.Turns.{History};
ghost use Rattle.pua_model.specs.Plan.{groups_in};
ghost use Rattle.sig_tables.specs.SiteRules.{rules_of};
ghost use Rattle.log_judge.specs.Breaches.{breaches, breaches_within};
ghost use Rattle.log_judge.specs.Stands.{StandsFor, groups_of, seconds_of, terms_of};
ghost use Rattle.log_read.specs.Answers.{Reads, begin_of, is_live, name_of, pictures_given};
ghost use Rattle.site_load.specs.Sites.{site_of_tables};
ghost use Rattle.report_judged.specs.BreachesFound.{IsFinding, IsReadFault, IsReading, IsWriteFault};

use log_judge::{Breach, Judge};
use log_read::{Begin, LogPictures, LogRefusal};
use report_words::JudgeStop;
use sig_io::Files;
use sig_tables::Limits;
use sig_types::Memory;
use site_load::SiteTables;
use std::alloc::Global;

/// The breaches of a log that was read to its end.
#[derive(Drop)]
pub struct Found {
    /// All of them, with the places of their seconds.
    pub breaches: Vec<Breach>,
    /// The second of the first picture.
    pub first: u32,
    /// How many pictures the log has.
    pub pictures: u32,
}

// Judges the pictures of a log, up to its end, a refused line or a fault.
fn find_within<'a, F: Files>(
    tables: &SiteTables,
    part: &mut LogPictures,
    judge: &mut Judge,
    found: &mut Vec<Breach>,
    log: &'a str,
    files: &mut F,
) -> Result<(), JudgeStop<'a>>
    requires times { length tables.now.times ≡ groups_in tables.now.plan }
    requires intergreens { tables.now.intergreens.count ≡ groups_in tables.now.plan }
    requires begin { begin_of part.old ≡ Begin.Anywhere }
    requires live { is_live part.old ≡ true }
    requires none_given { pictures_given part.old ≡ 0 }
    requires unread { (names : List (List ℕ)) (bytes : List ℕ) → Reads part.old names bytes [] }
    requires groups { groups_of judge.old ≡ groups_in tables.now.plan }
    requires none_shown { seconds_of judge.old ≡ 0 }
    requires stands { StandsFor judge.old [] }
    requires none_found { found.old.items ≡ [] }
    ensures read { ForSome (F.told files.old) (λ file.
        IsReading tables.now.plan.names log.now (file (name_of part.old)) (rules_of tables.now.times tables.now.intergreens)
        (terms_of judge.old) judge.new part.new found.new.items result) }
    ensures groups { groups_of judge.new ≡ groups_of judge.old }
    ensures terms { terms_of judge.new ≡ terms_of judge.old }
    ensures contents_stay { F.told files.new ≡ F.told files.old }
    ensures later { F.faults files.old ≤ F.faults files.new }
    ensures read_fault { IsReadFault result → Rose (F.faults files.old) (F.faults files.new) }
    ensures no_write { IsWriteFault result → ⊥ }
{
    'pictures: loop {
        match part.next_picture(files, &tables.plan) {
            Ok(true) => {}
            Ok(false) => return Ok(()),
            Err(LogRefusal::Fault) => return Err(JudgeStop::ReadFault(log)),
            Err(LogRefusal::At { line, why }) => {
                return Err(JudgeStop::RefusedLine {
                    word: log,
                    line,
                    why,
                });
            }
        }
        let limits = Limits::of(&tables.times, &tables.intergreens);
        match judge.find(&limits, part.picture(), found) {
            Ok(()) => judge.show(part.picture()),
            Err(_memory) => return Err(JudgeStop::Memory),
        }
    }
}

// Puts what the end of the log leaves behind the breaches within it.
fn find_end(tables: &SiteTables, judge: &Judge, found: &mut Vec<Breach>) -> Result<(), Memory>
    requires times { length tables.now.times ≡ groups_of judge.now }
    requires intergreens { tables.now.intergreens.count ≡ groups_of judge.now }
    ensures { OnOk result ((h : History) → StandsFor judge.now h →
        found.old.items ≡ breaches_within (rules_of tables.now.times tables.now.intergreens) (terms_of judge.now) h →
        found.new.items ≡ breaches (rules_of tables.now.times tables.now.intergreens) (terms_of judge.now) h) }
{
    if judge.seconds() == 0 {
        return Ok(());
    }
    let limits = Limits::of(&tables.times, &tables.intergreens);
    match judge.find_last(&limits, found) {
        Ok(()) => Ok(()),
        Err(memory) => Err(memory),
    }
}

/// The breaches of a log at a site, which is read to its end. What was before its first second isn't known.
///
/// The tolerance is the number of seconds by which an amber or a red-amber may differ from its time. It answers `ReadFault` only
/// where a read failed.
pub fn find_breaches<'a, F: Files>(
    alloc: Global,
    tables: &SiteTables,
    log: &'a str,
    tolerance: u32,
    files: &mut F,
) -> Result<Found, JudgeStop<'a>>
    requires times { length tables.now.times ≡ groups_in tables.now.plan }
    requires intergreens { tables.now.intergreens.count ≡ groups_in tables.now.plan }
    requires tolerance { tolerance ≤ 9 }
    ensures found { ForSome (F.told files.old) (λ file. IsFinding (site_of_tables tables.now) log.now (file log.now) tolerance result) }
    ensures contents_stay { F.told files.new ≡ F.told files.old }
    ensures later { F.faults files.old ≤ F.faults files.new }
    ensures read_fault { IsReadFault result → Rose (F.faults files.old) (F.faults files.new) }
    ensures no_write { IsWriteFault result → ⊥ }
{
    let mut part = match LogPictures::make(alloc, log, Begin::Anywhere) {
        Ok(part) => part,
        Err(_memory) => return Err(JudgeStop::Memory),
    };
    let mut judge = Judge::new(tables.plan.groups(), tolerance);
    let mut breaches = Vec::new(alloc);
    match find_within(tables, &mut part, &mut judge, &mut breaches, log, files) {
        Ok(()) => {}
        Err(stop) => return Err(stop),
    }
    match find_end(tables, &judge, &mut breaches) {
        Ok(()) => Ok(Found {
            breaches,
            first: part.first(),
            pictures: judge.seconds(),
        }),
        Err(_memory) => Err(JudgeStop::Memory),
    }
}
