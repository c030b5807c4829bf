// The call.
ghost use Rattle.std.specs.Prelude.{◌≡◌, ◌≤◌, ◌⊎◌, ℕ, IsTrue, List, Ok, Option, length, map, string_bytes, IfErr, None};
ghost use Rattle.std.specs.Option.{ForSome};
ghost use Rattle.sig_io.specs.Draft.{IsDraft};
ghost use Rattle.sig_io.specs.Outside.{Rose};
ghost use Rattle.sig_io.specs.Seen.{seen};
ghost use Rattle.sig_types.specs.Turns.{History};
ghost use Rattle.sig_tables.specs.SiteRules.{rules_of};
ghost use Rattle.pua_model.specs.Plan.{groups_in};
ghost use Rattle.log_protocol.specs.Page.{IsPageOf, groups_of};
ghost use Rattle.log_protocol.specs.Texts.{page_text};
ghost use Rattle.site_load.specs.Loading.{site_of};
ghost use Rattle.site_load.specs.Sites.{site_of_tables};
ghost use Rattle.report_judged.specs.ProtocolForm.{asked_in, form_of};
ghost use Rattle.report_judged.specs.ProtocolCall.{IsAnswered, IsReadFault, IsReported, IsWriteFault, IsWritten};

use crate::protocol_form::{ProtocolForm, form_of};
use crate::protocol_gathering::{Gathered, gather};
use judge_text::Tick;
use log_protocol::{Sheet, Style, Told, put_head};
use report_words::{JudgeStop, Status, status_of, write_stop};
use sig_io::{Draft, Files, Sink};
use sig_tables::Limits;
use site_load::{SiteTables, take_site};
use std::alloc::Global;

// Gives a sink the rest of a text.
fn end<'a, O: Sink>(draft: Draft, out: &mut O) -> Result<(), JudgeStop<'a>>
    ensures written { (start : Option (List ℕ)) (text : List ℕ) → IsDraft start (O.taken out.old) draft text →
        IsWritten text result start (O.taken out.new) }
    ensures stop { IfErr result (λ stop. stop ≡ JudgeStop.WriteFault) }
    ensures cause { IsWriteFault result → IsTrue draft.failed ⊎ Rose (O.faults out.old) (O.faults out.new) }
    ensures no_read { IsReadFault result → ⊥ }
    ensures later { O.faults out.old ≤ O.faults out.new }
{
    match draft.finish(out) {
        Ok(()) => Ok(()),
        Err(_fault) => Err(JudgeStop::WriteFault),
    }
}

// Writes the page of a log.
fn write_page<'a, O: Sink>(
    tables: &SiteTables,
    gathered: &Gathered,
    style: Style,
    out: &mut O,
) -> Result<(), JudgeStop<'a>>
    requires times { length tables.now.times ≡ groups_in tables.now.plan }
    requires intergreens { tables.now.intergreens.count ≡ groups_in tables.now.plan }
    requires few { groups_in tables.now.plan ≤ 64 }
    requires groups { groups_of gathered.now.page ≡ groups_in tables.now.plan }
    ensures written { (pictures : History) → IsPageOf gathered.now.page pictures →
        IsWritten (page_text Tick.Second style gathered.now.first tables.now.plan.names (rules_of tables.now.times tables.now.intergreens) pictures) result
        (O.taken out.old) (O.taken out.new) }
    ensures stop { IfErr result (λ stop. stop ≡ JudgeStop.WriteFault) }
    ensures cause { IsWriteFault result → Rose (O.faults out.old) (O.faults out.new) }
    ensures no_read { IsReadFault result → ⊥ }
{
    let limits = Limits::of(&tables.times, &tables.intergreens);
    let sheet = Sheet {
        style,
        tick: Tick::Second,
        plan: &tables.plan,
        limits: &limits,
        first: gathered.first,
        told: Told::Page(&gathered.page),
    };
    let mut draft = Draft::new();
    put_head(
        &mut draft,
        out,
        Tick::Second,
        style,
        gathered.page.seconds(),
        gathered.first,
    );
    sheet.put(&mut draft, out);
    end(draft, out)
}

// Reads a log at a site, and writes its page.
fn tell_at<'a, F: Files, O: Sink>(
    alloc: Global,
    tables: &SiteTables,
    form: &ProtocolForm<'a>,
    files: &mut F,
    out: &mut O,
) -> Result<(), JudgeStop<'a>>
    requires times { length tables.now.times ≡ groups_in tables.now.plan }
    requires intergreens { tables.now.intergreens.count ≡ groups_in tables.now.plan }
    ensures answered { ForSome (F.told files.old) (λ file. site_of (asked_in form.now).site file ≡ Ok (site_of_tables tables.now) →
        IsAnswered (asked_in form.now) file result (O.taken out.old) (O.taken out.new)) }
    ensures unwritten { IfErr result (λ stop. (stop ≡ JudgeStop.WriteFault → ⊥) → out.new ≡ out.old) }
    ensures contents_stay { F.told files.new ≡ F.told files.old }
    ensures read { IsReadFault result → Rose (F.faults files.old) (F.faults files.new) }
    ensures write { IsWriteFault result → Rose (O.faults out.old) (O.faults out.new) }
    ensures later { F.faults files.old ≤ F.faults files.new }
{
    match gather(alloc, &tables.plan, form.log, files) {
        Ok(gathered) => write_page(tables, &gathered, form.style, out),
        Err(stop) => Err(stop),
    }
}

// Does what is asked for.
fn do_form<'a, F: Files, O: Sink>(
    alloc: Global,
    form: &ProtocolForm<'a>,
    files: &mut F,
    out: &mut O,
) -> Result<(), JudgeStop<'a>>
    ensures answered { ForSome (F.told files.old) (λ file.
        IsAnswered (asked_in form.now) file result (O.taken out.old) (O.taken out.new)) }
    ensures unwritten { IfErr result (λ stop. (stop ≡ JudgeStop.WriteFault → ⊥) → out.new ≡ out.old) }
    ensures contents_stay { F.told files.new ≡ F.told files.old }
    ensures read { IsReadFault result → Rose (F.faults files.old) (F.faults files.new) }
    ensures write { IsWriteFault result → Rose (O.faults out.old) (O.faults out.new) }
{
    match take_site(alloc, &form.site, files) {
        Ok(tables) => tell_at(alloc, &tables, form, files, out),
        Err(stop) => Err(JudgeStop::Site(stop)),
    }
}

/// Does what the words `protocol LOG PUA TIMES INTERGREENS [--csv]` say, and tells in a note why it stopped where it did.
///
/// It writes what came in the log, beside what the tables say: as lines, or as a table with `--csv`. Nothing is judged. Of the time
/// before the log nothing is known. The plan, the times, the intergreens and the log are read one after the other, each to its end,
/// before the first byte is written; nothing is written where one is refused.
/// No file is touched where the words are no form.
pub fn report_protocol<F: Files, O: Sink, N: Sink>(
    alloc: Global,
    words: &[String],
    files: &mut F,
    out: &mut O,
    notes: &mut N,
) -> Status
    ensures reported { IsReported (map string_bytes words.now)
        (seen (F.told files.old) (F.told files.new) (F.faults files.old) (F.faults files.new))
        (seen (O.taken out.old) (O.taken out.new) (O.faults out.old) (O.faults out.new))
        (seen (N.taken notes.old) (N.taken notes.new) (N.faults notes.old) (N.faults notes.new))
        result }
    ensures unread { form_of (map string_bytes words.now) ≡ None → files.new ≡ files.old }
    ensures unwritten { (result ≡ Status.Done → ⊥) → (result ≡ Status.WriteFault → ⊥) → out.new ≡ out.old }
    ensures contents_stay { F.told files.new ≡ F.told files.old }
{
    let Some(form) = form_of(words) else {
        write_stop(&JudgeStop::Words, notes);
        return Status::Words;
    };
    match do_form(alloc, &form, files, out) {
        Ok(()) => Status::Done,
        Err(stop) => {
            write_stop(&stop, notes);
            status_of(&stop)
        }
    }
}
