// What came in a log.
ghost use Rattle.std.specs.Prelude.{◌≡◌, ◌≤◌, Err, IfErr, IfOk, List, ℕ};
ghost use Rattle.std.specs.Option.{ForSome};
ghost use Rattle.sig_io.specs.Outside.{Rose};
ghost use Rattle.sig_types.specs.Turns.{Picture};
ghost use Rattle.pua_model.specs.Plan.{groups_in};
ghost use Rattle.log_read.specs.Answers.{Refuses};
ghost use Rattle.log_protocol.specs.Page.{groups_of};
ghost use Rattle.report_judged.specs.ProtocolGathered.{IsGathering, IsLogFault, IsOfLog, IsUnread};

use log_protocol::Page;
use log_read::{Begin, LogPictures, LogRefusal};
use pua_model::Plan;
use report_words::JudgeStop;
use sig_io::Files;
use std::alloc::Global;

/// What came in a log that was read to its end.
#[derive(Drop)]
pub struct Gathered {
    /// The page of its pictures.
    pub page: Page,
    /// The second of the first picture.
    pub first: u32,
}

// Why a log is read no further.
fn stop_of<'a>(refusal: LogRefusal, word: &'a str) -> JudgeStop<'a>
    ensures unread { (names : List (List ℕ)) (bytes : List ℕ) (pictures : List Picture) → Refuses Begin.Anywhere names bytes pictures refusal →
        IsUnread names word.now bytes result }
    ensures of_log { IsOfLog result }
    ensures fault { IsLogFault {A = Unit {0}} (Err result) → refusal ≡ LogRefusal.Fault }
{
    match refusal {
        LogRefusal::Fault => JudgeStop::ReadFault(word),
        LogRefusal::At { line, why } => JudgeStop::RefusedLine { word, line, why },
    }
}

/// What came in a log of a plan, which is read to its end. What was before its first second isn't known.
pub fn gather<'a, F: Files>(
    alloc: Global,
    plan: &Plan,
    log: &'a str,
    files: &mut F,
) -> Result<Gathered, JudgeStop<'a>>
    ensures gathering { ForSome (F.told files.old) (λ file. IsGathering plan.now.names log.now (file log.now) result) }
    ensures groups { IfOk result (λ gathered. groups_of gathered.page ≡ groups_in plan.now) }
    ensures few { IfOk result (λ gathered. groups_in plan.now ≤ 64) }
    ensures of_log { IfErr result (λ stop. IsOfLog stop) }
    ensures contents_stay { F.told files.new ≡ F.told files.old }
    ensures later { F.faults files.old ≤ F.faults files.new }
    ensures cause { IsLogFault result → Rose (F.faults files.old) (F.faults files.new) }
{
    let mut part = match LogPictures::make(alloc, log, Begin::Anywhere) {
        Ok(part) => part,
        Err(_memory) => return Err(JudgeStop::Memory),
    };
    let mut page = match Page::new(alloc, plan.groups()) {
        Ok(page) => page,
        Err(_memory) => return Err(JudgeStop::Memory),
    };
    'lines: loop {
        match part.next_picture(files, plan) {
            Ok(true) => page.add(part.picture()),
            Ok(false) => {
                return Ok(Gathered {
                    page,
                    first: part.first(),
                });
            }
            Err(refusal) => return Err(stop_of(refusal, log)),
        }
    }
}
