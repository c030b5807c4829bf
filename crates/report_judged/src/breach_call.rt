// The call.
ghost use Rattle.std.specs.Prelude.{◌≡◌, ◌≤◌, ◌⊎◌, ℕ, List, Option, OnErr, Ok, IsTrue, length, map, string_bytes, IfErr, None};
ghost use Rattle.std.specs.Option.{ForSome};
ghost use Rattle.sig_io.specs.Draft.{IsDraft};
ghost use Rattle.sig_io.specs.Outside.{Rose};
ghost use Rattle.sig_io.specs.Seen.{seen};
ghost use Rattle.pua_model.specs.Plan.{groups_in};
ghost use Rattle.site_load.specs.Loading.{site_of};
ghost use Rattle.site_load.specs.Sites.{site_of_tables};
ghost use Rattle.judge_text.specs.Lines.{breaches_text};
ghost use Rattle.judge_text.specs.Rows.{table_text};
ghost use Rattle.report_judged.specs.BreachCall.{IsAnswered, IsReported, done_with, is_some_breach, text_of};
ghost use Rattle.report_judged.specs.BreachForm.{asked_in, form_of};
ghost use Rattle.report_judged.specs.BreachesFound.{IsReadFault, IsWriteFault};
ghost use Rattle.report_judged.specs.BreachesWritten.{IsWritten};

use crate::breach_finding::{Found, find_breaches};
use crate::breach_form::{BreachForm, form_of};
use judge_text::{put_breaches, put_table};
use log_judge::Breach;
use pua_model::Plan;
use report_words::{JudgeStop, Status, status_of, write_stop};
use sig_io::{Draft, Files, Sink};
use site_load::{SiteTables, take_site};
use std::alloc::Global;

// Gives a sink the rest of a text.
fn end<'a, O: Sink>(draft: Draft, out: &mut O) -> Result<(), JudgeStop<'a>>
    ensures written { (start : Option (List ℕ)) (text : List ℕ) → IsDraft start (O.taken out.old) draft text →
        IsWritten text result start (O.taken out.new) }
    ensures later { O.faults out.old ≤ O.faults out.new }
    ensures cause { OnErr result (IsTrue draft.failed ⊎ Rose (O.faults out.old) (O.faults out.new)) }
{
    match draft.finish(out) {
        Ok(()) => Ok(()),
        Err(_fault) => Err(JudgeStop::WriteFault),
    }
}

// Writes the breaches of a log as a table.
fn write_table<'a, O: Sink>(plan: &Plan, found: &Found, out: &mut O) -> Result<(), JudgeStop<'a>>
    ensures written { IsWritten (table_text plan.now.names found.now.first found.now.breaches.items) result (O.taken out.old) (O.taken out.new) }
    ensures cause { OnErr result (Rose (O.faults out.old) (O.faults out.new)) }
{
    let mut draft = Draft::new();
    put_table(&mut draft, out, plan, found.first, &found.breaches);
    end(draft, out)
}

// Writes them in words.
fn write_words<'a, O: Sink>(plan: &Plan, found: &Found, out: &mut O) -> Result<(), JudgeStop<'a>>
    ensures written { IsWritten (breaches_text plan.now.names found.now.first found.now.pictures found.now.breaches.items) result
        (O.taken out.old) (O.taken out.new) }
    ensures cause { OnErr result (Rose (O.faults out.old) (O.faults out.new)) }
{
    let mut draft = Draft::new();
    put_breaches(
        &mut draft,
        out,
        plan,
        found.first,
        found.pictures,
        &found.breaches,
    );
    end(draft, out)
}

// Writes the breaches of a log.
#[tactic(auto, unfolding(crate::specs::BreachCall::text_of))]
fn write_found<'a, O: Sink>(
    plan: &Plan,
    found: &Found,
    csv: bool,
    out: &mut O,
) -> Result<(), JudgeStop<'a>>
    ensures written { IsWritten (text_of csv plan.now.names found.now.first found.now.pictures found.now.breaches.items) result
        (O.taken out.old) (O.taken out.new) }
    ensures cause { OnErr result (Rose (O.faults out.old) (O.faults out.new)) }
{
    if csv {
        write_table(plan, found, out)
    } else {
        write_words(plan, found, out)
    }
}

// Whether there are breaches.
fn is_some(found: &[Breach]) -> bool
    ensures { result ≡ is_some_breach found.now }
{
    match found {
        [] => false,
        [_, ..] => true,
    }
}

// Judges a log at a site, and tells whether there are breaches.
fn judge_at<'a, F: Files, O: Sink>(
    alloc: Global,
    tables: &SiteTables,
    form: &BreachForm<'a>,
    files: &mut F,
    out: &mut O,
) -> Result<bool, JudgeStop<'a>>
    requires times { length tables.now.times ≡ groups_in tables.now.plan }
    requires intergreens { tables.now.intergreens.count ≡ groups_in tables.now.plan }
    requires tolerance { form.now.tolerance ≤ 9 }
    ensures judged { ForSome (F.told files.old) (λ file.
        site_of (asked_in form.now).site file ≡ Ok (site_of_tables tables.now) →
        IsAnswered (asked_in form.now) file result (O.taken out.old) (O.taken out.new)) }
    ensures unwritten { IfErr result (λ stop. (stop ≡ JudgeStop.WriteFault → ⊥) → out.new ≡ out.old) }
    ensures contents_stay { F.told files.new ≡ F.told files.old }
    ensures later { F.faults files.old ≤ F.faults files.new }
    ensures read { IsReadFault result → Rose (F.faults files.old) (F.faults files.new) }
    ensures write { IsWriteFault result → Rose (O.faults out.old) (O.faults out.new) }
{
    let found = match find_breaches(alloc, tables, form.log, form.tolerance, files) {
        Ok(found) => found,
        Err(stop) => return Err(stop),
    };
    match write_found(&tables.plan, &found, form.csv, out) {
        Ok(()) => Ok(is_some(&found.breaches)),
        Err(stop) => Err(stop),
    }
}

// Does what is asked for, and tells whether there are breaches.
fn do_form<'a, F: Files, O: Sink>(
    alloc: Global,
    form: &BreachForm<'a>,
    files: &mut F,
    out: &mut O,
) -> Result<bool, JudgeStop<'a>>
    requires tolerance { form.now.tolerance ≤ 9 }
    ensures answered { ForSome (F.told files.old) (λ file.
        IsAnswered (asked_in form.now) file result (O.taken out.old) (O.taken out.new)) }
    ensures unwritten { IfErr result (λ stop. (stop ≡ JudgeStop.WriteFault → ⊥) → out.new ≡ out.old) }
    ensures contents_stay { F.told files.new ≡ F.told files.old }
    ensures read { IsReadFault result → Rose (F.faults files.old) (F.faults files.new) }
    ensures write { IsWriteFault result → Rose (O.faults out.old) (O.faults out.new) }
{
    let tables = match take_site(alloc, &form.site, files) {
        Ok(tables) => tables,
        Err(stop) => return Err(JudgeStop::Site(stop)),
    };
    judge_at(alloc, &tables, form, files, out)
}

// How a call ended that was done.
fn done_with(broken: bool) -> Status
    ensures { result ≡ done_with broken }
{
    if broken { Status::Broken } else { Status::Done }
}

/// Does what the words `breaches LOG PUA TIMES INTERGREENS [--amber-tolerance N] [--csv]` say, and tells in a note why it stopped
/// where it did.
///
/// It writes each breach of the log by the plan and the tables, in words, or as a table with `--csv`. Of the time before the log
/// nothing is known. The plan, the times, the intergreens and the log are read one after the other, each to its end, before the
/// first byte is written; nothing is written where one is refused.
/// No file is touched where the words are no form.
pub fn report_breaches<F: Files, O: Sink, N: Sink>(
    alloc: Global,
    words: &[String],
    files: &mut F,
    out: &mut O,
    notes: &mut N,
) -> Status
    ensures reported { IsReported (map string_bytes words.now)
        (seen (F.told files.old) (F.told files.new) (F.faults files.old) (F.faults files.new))
        (seen (O.taken out.old) (O.taken out.new) (O.faults out.old) (O.faults out.new))
        (seen (N.taken notes.old) (N.taken notes.new) (N.faults notes.old) (N.faults notes.new))
        result }
    ensures unread { form_of (map string_bytes words.now) ≡ None → files.new ≡ files.old }
    ensures unwritten { (result ≡ Status.Done → ⊥) → (result ≡ Status.Broken → ⊥) → (result ≡ Status.WriteFault → ⊥) → out.new ≡ out.old }
    ensures contents_stay { F.told files.new ≡ F.told files.old }
{
    let Some(form) = form_of(words) else {
        write_stop(&JudgeStop::Words, notes);
        return Status::Words;
    };
    match do_form(alloc, &form, files, out) {
        Ok(broken) => done_with(broken),
        Err(stop) => {
            write_stop(&stop, notes);
            status_of(&stop)
        }
    }
}
