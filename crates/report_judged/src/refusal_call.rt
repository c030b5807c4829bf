// The call.
ghost use Rattle.std.specs.Prelude.{◌≡◌, ◌≤◌, ◌⊎◌, ℕ, IsTrue, List, Ok, Option, length, map, string_bytes, IfErr, None};
ghost use Rattle.std.specs.Option.{ForSome};
ghost use Rattle.sig_io.specs.Draft.{IsDraft};
ghost use Rattle.sig_io.specs.Outside.{Rose};
ghost use Rattle.sig_io.specs.Seen.{seen};
ghost use Rattle.pua_model.specs.Plan.{groups_in};
ghost use Rattle.site_load.specs.Loading.{site_of};
ghost use Rattle.site_load.specs.Sites.{site_of_tables};
ghost use Rattle.refusal_text.specs.Kept.{told_text};
ghost use Rattle.report_judged.specs.RefusalForm.{asked_in, form_of};
ghost use Rattle.report_judged.specs.RefusalCall.{IsAnswered, IsReadFault, IsReported, IsWriteFault, IsWritten};

use crate::refusal_finding::find_refusals;
use crate::refusal_form::{RefusalForm, form_of};
use pua_model::Plan;
use refusal_text::{Refusals, put_refusals};
use report_words::{JudgeStop, Status, status_of, write_stop};
use sig_io::{Draft, Files, Sink};
use site_load::{SiteTables, take_site};
use std::alloc::Global;

// Gives a sink the rest of a text.
fn end<'a, O: Sink>(draft: Draft, out: &mut O) -> Result<(), JudgeStop<'a>>
    ensures written { (start : Option (List ℕ)) (text : List ℕ) → IsDraft start (O.taken out.old) draft text →
        IsWritten text result start (O.taken out.new) }
    ensures cause { IsWriteFault result → IsTrue draft.failed ⊎ Rose (O.faults out.old) (O.faults out.new) }
    ensures no_read { IsReadFault result → ⊥ }
    ensures later { O.faults out.old ≤ O.faults out.new }
{
    match draft.finish(out) {
        Ok(()) => Ok(()),
        Err(_fault) => Err(JudgeStop::WriteFault),
    }
}

// Writes what was refused in a log.
fn write_refusals<'a, O: Sink>(
    plan: &Plan,
    refusals: &Refusals,
    csv: bool,
    out: &mut O,
) -> Result<(), JudgeStop<'a>>
    ensures written { IsWritten (told_text csv plan.now.names refusals.now) result (O.taken out.old) (O.taken out.new) }
    ensures cause { IsWriteFault result → Rose (O.faults out.old) (O.faults out.new) }
    ensures no_read { IsReadFault result → ⊥ }
{
    let mut draft = Draft::new();
    put_refusals(&mut draft, out, plan, refusals, csv);
    end(draft, out)
}

// Reads a log at a site, and writes what was refused in it.
fn tell_at<'a, F: Files, O: Sink>(
    alloc: Global,
    tables: &SiteTables,
    form: &RefusalForm<'a>,
    files: &mut F,
    out: &mut O,
) -> Result<(), JudgeStop<'a>>
    requires times { length tables.now.times ≡ groups_in tables.now.plan }
    requires intergreens { tables.now.intergreens.count ≡ groups_in tables.now.plan }
    ensures answered { ForSome (F.told files.old) (λ file. site_of (asked_in form.now).site file ≡ Ok (site_of_tables tables.now) →
        IsAnswered (asked_in form.now) file result (O.taken out.old) (O.taken out.new)) }
    ensures unwritten { IfErr result (λ stop. (stop ≡ JudgeStop.WriteFault → ⊥) → out.new ≡ out.old) }
    ensures contents_stay { F.told files.new ≡ F.told files.old }
    ensures read { IsReadFault result → Rose (F.faults files.old) (F.faults files.new) }
    ensures write { IsWriteFault result → Rose (O.faults out.old) (O.faults out.new) }
    ensures later { F.faults files.old ≤ F.faults files.new }
{
    match find_refusals(alloc, tables, form.log, form.from, form.to, files) {
        Ok(refusals) => write_refusals(&tables.plan, &refusals, form.csv, out),
        Err(stop) => Err(stop),
    }
}

// Does what is asked for.
fn do_form<'a, F: Files, O: Sink>(
    alloc: Global,
    form: &RefusalForm<'a>,
    files: &mut F,
    out: &mut O,
) -> Result<(), JudgeStop<'a>>
    ensures answered { ForSome (F.told files.old) (λ file.
        IsAnswered (asked_in form.now) file result (O.taken out.old) (O.taken out.new)) }
    ensures unwritten { IfErr result (λ stop. (stop ≡ JudgeStop.WriteFault → ⊥) → out.new ≡ out.old) }
    ensures contents_stay { F.told files.new ≡ F.told files.old }
    ensures read { IsReadFault result → Rose (F.faults files.old) (F.faults files.new) }
    ensures write { IsWriteFault result → Rose (O.faults out.old) (O.faults out.new) }
{
    match take_site(alloc, &form.site, files) {
        Ok(tables) => tell_at(alloc, &tables, form, files, out),
        Err(stop) => Err(JudgeStop::Site(stop)),
    }
}

/// Does what the words `refusals LOG PUA TIMES INTERGREENS [FROM TO] [--csv]` say, and tells in a note why it stopped where it
/// did.
///
/// It writes why each command and each turn that the log tells as refused was, in numbers: as lines with sums, or as a table
/// with `--csv`. A log that begins with second 1 began at rest; of another one nothing is known of the time before it. The plan,
/// the times, the intergreens and the log are read one after the other, each to its end, before the first byte is written;
/// nothing is written where one is refused.
/// No file is touched where the words are no form.
pub fn report_refusals<F: Files, O: Sink, N: Sink>(
    alloc: Global,
    words: &[String],
    files: &mut F,
    out: &mut O,
    notes: &mut N,
) -> Status
    ensures reported { IsReported (map string_bytes words.now)
        (seen (F.told files.old) (F.told files.new) (F.faults files.old) (F.faults files.new))
        (seen (O.taken out.old) (O.taken out.new) (O.faults out.old) (O.faults out.new))
        (seen (N.taken notes.old) (N.taken notes.new) (N.faults notes.old) (N.faults notes.new))
        result }
    ensures unread { form_of (map string_bytes words.now) ≡ None → files.new ≡ files.old }
    ensures unwritten { (result ≡ Status.Done → ⊥) → (result ≡ Status.WriteFault → ⊥) → out.new ≡ out.old }
    ensures contents_stay { F.told files.new ≡ F.told files.old }
{
    let Some(form) = form_of(words) else {
        write_stop(&JudgeStop::Words, notes);
        return Status::Words;
    };
    match do_form(alloc, &form, files, out) {
        Ok(()) => Status::Done,
        Err(stop) => {
            write_stop(&stop, notes);
            status_of(&stop)
        }
    }
}
