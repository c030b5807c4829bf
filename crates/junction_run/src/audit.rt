// The command that judges a log.
ghost use Rattle.std.specs.Prelude.{◌≡◌, ◌≤◌, ◌^◌, ◌∷◌, ℕ, [], List, true, false, IfOk, IfErr, OnErr, OnOk, length};
ghost use Rattle.std.specs.Option.{ForSome};
ghost use Rattle.std.specs.Io.KnownBytes.{append_known};
ghost use Rattle.sig_io.specs.Draft.{IsCut};
ghost use Rattle.sig_io.specs.Outside.{HasCause, Rose};
ghost use Rattle.sig_tables.specs.SiteRules.{rules_of};
ghost use Rattle.pua_model.specs.Plan.{groups_in};
ghost use Rattle.sig_guard.specs.Stands.{rules};
ghost use Rattle.log_read.specs.Answers.{Reads, begin_of, is_live, name_of, pictures_given};
ghost use Rattle.sig_audit.specs.declared.trial.InterEnd.{InterEnd};
ghost use Rattle.sig_audit.specs.Verdict.{IsNamed};
ghost use Rattle.junction_run.specs.Answers.{may_write};
ghost use Rattle.junction_run.specs.Audited.{AreEnds, judged_text};
ghost use Rattle.junction_run.specs.Ended.{IsEnded};
ghost use Rattle.junction_run.specs.Form.{Audit, files_of};
ghost use Rattle.junction_run.specs.FormWords.{site_in};
ghost use Rattle.junction_run.specs.LogJudged.{IsAudited, IsJudgedLog};
ghost use Rattle.junction_run.specs.Sites.{site_of_tables};
ghost use Rattle.junction_run.specs.Stop.{PlaysAt, StopsAt, StopsAmong, StopsWith, play_status, status_of};
ghost use Rattle.junction_run.specs.declared.status.Status.TheVariants as status;

use crate::audit_text::{put_inters, put_verdict};
use crate::site::take_site;
use crate::stop::{LineReason, LoadStop, PlayStop, Stop};
use pua_model::Plan;
use sig_audit::{Auditor, Begin, LogPictures, LogRefusal, Verdict};
use sig_guard::Guard;
use sig_io::{Draft, Files, PutFault, Sink};
use sig_tables::{Intergreens, Times};
use site_load::{SiteTables, SiteWords};
use std::alloc::Global;

// Judges the pictures of a log, up to its end, a refused line or a fault. It takes no memory.
fn judge_log<'a, F: Files>(
    plan: &Plan,
    times: &Times,
    intergreens: &Intergreens,
    lines: &mut LogPictures,
    word: &'a str,
    files: &mut F,
) -> Result<Verdict, PlayStop<'a>>
    requires times { length times.now ≡ groups_in plan.now }
    requires intergreens { intergreens.now.count ≡ groups_in plan.now }
    requires begin { begin_of lines.old ≡ Begin.AtOne }
    requires live { is_live lines.old ≡ true }
    requires none_given { pictures_given lines.old ≡ 0 }
    requires unread { (names : List (List ℕ)) (bytes : List ℕ) → Reads lines.old names bytes [] }
    ensures judged { ForSome (F.told files.old) (λ file.
        IsJudgedLog (record { plan = plan.now; rules = rules_of times.now intergreens.now }) word.now
        (file (name_of lines.old)) result) }
    ensures named { IfOk result (λ verdict. IsNamed (groups_in plan.now) verdict) }
    ensures word { IfErr result (λ stop. PlaysAt word.now stop) }
    ensures no_write { StopsWith play_status status.WriteFault result → ⊥ }
    ensures contents_stay { F.told files.new ≡ F.told files.old }
    ensures later { F.faults files.old ≤ F.faults files.new }
    ensures read { StopsWith play_status status.ReadFault result → Rose (F.faults files.old) (F.faults files.new) }
{
    let mut auditor = Auditor::new(plan.groups());
    loop {
        match lines.next_picture(files, plan) {
            Ok(true) => auditor.take(times, intergreens, lines.picture()),
            Ok(false) => return Ok(auditor.verdict()),
            Err(LogRefusal::Fault) => return Err(PlayStop::ReadFault(word)),
            Err(LogRefusal::At { line, why }) => {
                let reason = LineReason::Record(why);
                return Err(PlayStop::RefusedLine { word, line, reason });
            }
        }
    }
}

// Tries each interstage, and writes what is judged.
fn write_audit<O: Sink>(
    verdict: Verdict,
    plan: &Plan,
    guard: &mut Guard,
    out: &mut O,
) -> Result<(), PutFault>
    requires named { IsNamed (groups_in plan.now) verdict }
    requires one_plan { (rules guard.old).count ≡ groups_in plan.now }
    ensures written { (ends : List InterEnd) × AreEnds plan.now (rules guard.old) (length plan.now.interstages) ends
        × OnOk result (O.taken out.new ≡ append_known (O.taken out.old) (judged_text plan.now verdict ends))
        × OnErr result ((n : ℕ) × IsCut (O.taken out.old) (O.taken out.new) n (judged_text plan.now verdict ends)) }
    ensures cause { HasCause (O.faults out.old) (O.faults out.new) result }
{
    let mut draft = Draft::new();
    put_verdict(verdict, plan, &mut draft, out);
    draft.put(out, b"\n");
    put_inters(plan, guard, &mut draft, out);
    draft.finish(out)
}

// Frees what a log is judged with, in one step of a way out.
fn free_audit(_plan: Plan, _guard: Guard, _lines: LogPictures) {}

// Judges a log at a site. All memory is taken before the log is read, and nothing is written before its end.
fn audit_at<'a, F: Files, O: Sink>(
    alloc: Global,
    tables: SiteTables,
    log: &'a str,
    files: &mut F,
    out: &mut O,
) -> Result<(), Stop<'a>>
    requires times { length tables.times ≡ groups_in tables.plan }
    requires intergreens { tables.intergreens.count ≡ groups_in tables.plan }
    ensures audited { ForSome (F.told files.old) (λ file.
        IsAudited (site_of_tables tables) log.now (file log.now) result (O.taken out.old) (O.taken out.new)) }
    ensures unwritten { IfErr result (λ stop. may_write false (status_of stop) ≡ false → O.taken out.new ≡ O.taken out.old) }
    ensures word { IfErr result (λ stop. StopsAt log.now stop) }
    ensures contents_stay { F.told files.new ≡ F.told files.old }
    ensures later_files { F.faults files.old ≤ F.faults files.new }
    ensures later_out { O.faults out.old ≤ O.faults out.new }
    ensures read { StopsWith status_of status.ReadFault result → Rose (F.faults files.old) (F.faults files.new) }
    ensures write { StopsWith status_of status.WriteFault result → Rose (O.faults out.old) (O.faults out.new) }
{
    let SiteTables {
        plan,
        times,
        intergreens,
    } = tables;
    let mut guard = match Guard::new(alloc, times, intergreens) {
        Ok(guard) => guard,
        Err(_memory) => return Err(Stop::Load(LoadStop::Memory)),
    };
    let mut lines = match LogPictures::make(alloc, log, Begin::AtOne) {
        Ok(lines) => lines,
        Err(_memory) => return Err(Stop::Load(LoadStop::Memory)),
    };
    let verdict = match judge_log(
        &plan,
        guard.times(),
        guard.intergreens(),
        &mut lines,
        log,
        files,
    ) {
        Ok(verdict) => verdict,
        Err(stop) => {
            free_audit(plan, guard, lines);
            return Err(Stop::Play(stop));
        }
    };
    match write_audit(verdict, &plan, &mut guard, out) {
        Ok(()) => {
            free_audit(plan, guard, lines);
            Ok(())
        }
        Err(_fault) => {
            free_audit(plan, guard, lines);
            Err(Stop::Play(PlayStop::WriteFault))
        }
    }
}

/// Reads and judges a plan and its tables, then reads a log to its end, and writes what is judged of it. All memory is taken before
/// the log is read.
pub(crate) fn audit<'a, F: Files, O: Sink>(
    alloc: Global,
    log: &'a str,
    words: &SiteWords<'a>,
    files: &mut F,
    out: &mut O,
) -> Result<(), Stop<'a>>
    ensures ended { ForSome (F.told files.old) (λ file.
        IsEnded (Audit log.now (site_in words.now)) file result (O.taken out.old) (O.taken out.new)) }
    ensures unwritten { IfErr result (λ stop. may_write false (status_of stop) ≡ false → O.taken out.new ≡ O.taken out.old) }
    ensures word { IfErr result (λ stop. StopsAmong (files_of (Audit log.now (site_in words.now))) stop) }
    ensures contents_stay { F.told files.new ≡ F.told files.old }
    ensures later_files { F.faults files.old ≤ F.faults files.new }
    ensures later_out { O.faults out.old ≤ O.faults out.new }
    ensures read { StopsWith status_of status.ReadFault result → Rose (F.faults files.old) (F.faults files.new) }
    ensures write { StopsWith status_of status.WriteFault result → Rose (O.faults out.old) (O.faults out.new) }
{
    let tables = match take_site(alloc, words, files) {
        Ok(tables) => tables,
        Err(stop) => return Err(Stop::Load(stop)),
    };
    audit_at(alloc, tables, log, files, out)
}
