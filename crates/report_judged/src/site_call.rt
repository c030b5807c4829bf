// The call.
ghost use Rattle.std.specs.Prelude.{◌≡◌, ◌≤◌, Err, IfErr, Ok, map, string_bytes};
ghost use Rattle.std.specs.Option.{ForSome};
ghost use Rattle.sig_io.specs.Outside.{Rose};
ghost use Rattle.sig_io.specs.Seen.{seen};
ghost use Rattle.site_load.specs.Loading.{site_of};
ghost use Rattle.site_load.specs.Sites.{site_of_tables};
ghost use Rattle.log_svg.specs.Diagram.{IsShowable, diagram_text};
ghost use Rattle.log_svg.specs.LookIn.{look_in};
ghost use Rattle.log_svg.specs.ShownIn.{shown_in};
ghost use Rattle.log_svg.specs.Words.{IsLook};
ghost use Rattle.report_seen.specs.DiagramForm.{IsWindow};
ghost use Rattle.report_judged.specs.SiteForm.{asked_in, form_of};
ghost use Rattle.report_judged.specs.SiteCall.{IsAnswered, IsPut, IsReadFault, IsReported, IsWriteFault};
ghost use Rattle.report_judged.specs.SiteParts.{look_by};

use crate::site_form::{SiteForm, form_of};
use crate::site_parts::{has_groups, minimums_of, take_names};
use crate::site_stop::{DiagramStop, status_of, write_stop};
use log_read::LogWhy;
use log_svg::{Diagram, Look};
use report_seen::{Stop, gather, write_diagram};
use report_words::{JudgeStop, Status};
use sig_io::{Files, Sink};
use sig_types::ShortName;
use site_load::{SiteTables, take_site};
use std::alloc::Global;

// The stop of a log of other groups than the plan's.
fn other_groups<'a>(log: &'a str) -> DiagramStop<'a>
    ensures { result ≡ DiagramStop.Judged (JudgeStop.RefusedLine log.entry 1 LogWhy.Header) }
{
    DiagramStop::Judged(JudgeStop::RefusedLine {
        word: log,
        line: 1,
        why: LogWhy::Header,
    })
}

// Draws a log of the plan's groups.
fn draw<'a, O: Sink>(
    alloc: Global,
    tables: &SiteTables,
    names: &[ShortName],
    form: &SiteForm<'a>,
    diagram: &Diagram,
    out: &mut O,
) -> Result<(), DiagramStop<'a>>
    requires diagram { IsShowable (shown_in diagram.now) }
    requires look { IsLook (look_in form.now.look) }
    ensures put { IsPut (diagram_text (shown_in diagram.now) (look_by tables.now.times names.now (look_in form.now.look)))
        result (O.taken out.old) (O.taken out.new) }
    ensures unwritten { IfErr result (λ stop. (stop ≡ DiagramStop.Log Stop.WriteFault → ⊥) → out.new ≡ out.old) }
    ensures read { IsReadFault result → ⊥ }
    ensures write { IsWriteFault result → Rose (O.faults out.old) (O.faults out.new) }
{
    let minimums = match minimums_of(alloc, &tables.times) {
        Ok(minimums) => minimums,
        Err(_) => return Err(DiagramStop::Log(Stop::Memory)),
    };
    let look = Look {
        strip: form.look.strip,
        title: form.look.title,
        begin: form.look.begin,
        minimums: minimums.as_slice(),
        stages: names,
    };
    match write_diagram(diagram, look, out) {
        Ok(()) => Ok(()),
        Err(stop) => Err(DiagramStop::Log(stop)),
    }
}

// Reads a log at a site, and draws it.
fn draw_at<'a, F: Files, O: Sink>(
    alloc: Global,
    tables: &SiteTables,
    names: &[ShortName],
    form: &SiteForm<'a>,
    files: &mut F,
    out: &mut O,
) -> Result<(), DiagramStop<'a>>
    requires window { IsWindow form.now.window }
    requires look { IsLook (look_in form.now.look) }
    ensures answered { ForSome (F.told files.old) (λ file. site_of (asked_in form.now).site file ≡ Ok (site_of_tables tables.now) →
        names.now ≡ tables.now.plan.stage_names →
        IsAnswered (asked_in form.now) file result (O.taken out.old) (O.taken out.new)) }
    ensures unwritten { IfErr result (λ stop. (stop ≡ DiagramStop.Log Stop.WriteFault → ⊥) → out.new ≡ out.old) }
    ensures contents_stay { F.told files.new ≡ F.told files.old }
    ensures later { F.faults files.old ≤ F.faults files.new }
    ensures read { IsReadFault result → Rose (F.faults files.old) (F.faults files.new) }
    ensures write { IsWriteFault result → Rose (O.faults out.old) (O.faults out.new) }
{
    let diagram = match gather(alloc, files, form.log, form.window) {
        Ok(diagram) => diagram,
        Err(stop) => return Err(DiagramStop::Log(stop)),
    };
    if has_groups(&diagram.names, &tables.plan) {
        draw(alloc, tables, names, form, &diagram, out)
    } else {
        Err(other_groups(form.log))
    }
}

// Does what is asked for.
fn do_form<'a, F: Files, O: Sink>(
    alloc: Global,
    form: &SiteForm<'a>,
    files: &mut F,
    out: &mut O,
) -> Result<(), DiagramStop<'a>>
    requires window { IsWindow form.now.window }
    requires look { IsLook (look_in form.now.look) }
    ensures answered { ForSome (F.told files.old) (λ file.
        IsAnswered (asked_in form.now) file result (O.taken out.old) (O.taken out.new)) }
    ensures unwritten { IfErr result (λ stop. (stop ≡ DiagramStop.Log Stop.WriteFault → ⊥) → out.new ≡ out.old) }
    ensures contents_stay { F.told files.new ≡ F.told files.old }
    ensures read { IsReadFault result → Rose (F.faults files.old) (F.faults files.new) }
    ensures write { IsWriteFault result → Rose (O.faults out.old) (O.faults out.new) }
{
    let tables = match take_site(alloc, &form.site, files) {
        Ok(tables) => tables,
        Err(stop) => return Err(DiagramStop::Judged(JudgeStop::Site(stop))),
    };
    match take_names(alloc, form.site.plan, files) {
        Ok(names) => draw_at(alloc, &tables, &names, form, files, out),
        Err(stop) => Err(DiagramStop::Judged(JudgeStop::Site(stop))),
    }
}

/// Does what the words `diagram LOG FROM TO --site PUA TIMES INTERGREENS` say, and tells in a note why it stopped where it did.
///
/// It writes the diagram of these seconds of the log with the minimum greens of the table of times, as the darker part of each
/// green, and with the names of the plan's stages; behind these words may follow how it is to look. The plan, the times, the
/// intergreens and the log are read one after the other, each to its end, before the first byte is written; nothing is written
/// where one is refused, or where the groups of the log are not those of the plan.
pub fn report_site<F: Files, O: Sink, N: Sink>(
    alloc: Global,
    words: &[String],
    files: &mut F,
    out: &mut O,
    notes: &mut N,
) -> Status
    ensures reported { IsReported (map string_bytes words.now)
        (seen (F.told files.old) (F.told files.new) (F.faults files.old) (F.faults files.new))
        (seen (O.taken out.old) (O.taken out.new) (O.faults out.old) (O.faults out.new))
        (seen (N.taken notes.old) (N.taken notes.new) (N.faults notes.old) (N.faults notes.new))
        result }
    ensures unread { IfErr (form_of (map string_bytes words.now)) (λ stop. files.new ≡ files.old) }
    ensures unwritten { (result ≡ Status.Done → ⊥) → (result ≡ Status.WriteFault → ⊥) → out.new ≡ out.old }
    ensures contents_stay { F.told files.new ≡ F.told files.old }
{
    let form = match form_of(words) {
        Ok(form) => form,
        Err(stop) => {
            let stop = DiagramStop::Log(stop);
            write_stop(notes, words, &stop);
            return status_of(&stop);
        }
    };
    match do_form(alloc, &form, files, out) {
        Ok(()) => Status::Done,
        Err(stop) => {
            write_stop(notes, words, &stop);
            status_of(&stop)
        }
    }
}
