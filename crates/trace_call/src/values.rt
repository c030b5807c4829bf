// The form `values`.
ghost use Rattle.std.specs.Prelude.{◌≡◌, ◌≤◌, ◌++◌, [], ℕ, List, true, length, map, string_bytes, IfErr, false};
ghost use Rattle.std.specs.Option.{ForSome};
ghost use Rattle.sig_io.specs.Outside.{Rose};
ghost use Rattle.sig_types.specs.Counts.{Counts};
ghost use Rattle.pua_model.specs.Plan.{groups_in};
ghost use Rattle.vap_ast.specs.Tree.{program_of};
ghost use Rattle.vap_code.specs.Valid.{Valid};
ghost use Rattle.controller.specs.Past.{Past};
ghost use Rattle.controller.specs.Controls.{StandsFor, code_of, logic_of, site_of};
ghost use Rattle.det_stream.specs.Answers.{Gave, Reads, is_live, name_of, second_of};
ghost use Rattle.det_stream.specs.Stream.{stream_of};
ghost use Rattle.junction_run.specs.Answers.{may_write};
ghost use Rattle.junction_run.specs.Played.{IsPlayed, IsWritten};
ghost use Rattle.junction_run.specs.Stop as stops;
ghost use Rattle.junction_run.specs.Stop.{StopsWith, play_status};
ghost use Rattle.junction_run.specs.declared.status.Status.TheVariants as status;
ghost use Rattle.run_seconds.specs.Told.{told_from};
ghost use Rattle.trace_told.specs.ValueRows.{header_text, row_told};
ghost use Rattle.trace_call.specs.Chosen.{IsChosen, IsNoNameStop, play_stop_of};
ghost use Rattle.trace_call.specs.FormWords.{run_named};
ghost use Rattle.trace_call.specs.Notes.{status_of};
ghost use Rattle.trace_call.specs.ToldAt.{IsToldAt};
ghost use Rattle.trace_call.specs.Values.{IsValues};

use crate::form::{RunNames, Window};
use crate::freed::{free_checked, free_controller, free_run, free_site};
use crate::load::{Loaded, load_program};
use crate::stop::Stop;
use controller::Controller;
use det_stream::Lines;
use junction_run::{LineReason, LoadStop, PlayStop, Site, Stop as RunStop, make_controller};
use run_seconds::{Stop as TellStop, tell_all};
use sig_io::{Draft, Files, Sink};
use std::alloc::Global;
use trace_told::{Column, NoChoice, Rows, choose, columns_of, nearest_name, put_value_header};
use vap_check::Checked;

// A stop for want of memory, before anything was written.
pub(crate) fn no_memory<'a>() -> Stop<'a>
    ensures { result ≡ Stop.Run (RunStop.Load LoadStop.Memory) }
{
    Stop::Run(RunStop::Load(LoadStop::Memory))
}

// Why playing a detector file stopped.
pub(crate) fn play_stop<'a>(stop: TellStop, word: &'a str) -> PlayStop<'a>
    ensures { result ≡ play_stop_of word.entry stop }
{
    match stop {
        TellStop::ReadFault => PlayStop::ReadFault(word),
        TellStop::WriteFault => PlayStop::WriteFault,
        TellStop::Refused { line, why } => PlayStop::RefusedLine {
            word,
            line,
            reason: LineReason::Frame(why),
        },
    }
}

// The stop at a word that names no value.
fn no_name<'a>(alloc: Global, checked: &Checked, columns: &[Column], word: &'a str) -> Stop<'a>
    ensures { IsNoNameStop (program_of checked.now.tree) columns.now word.now result }
{
    match nearest_name(alloc, checked, columns, word.as_bytes()) {
        Ok(nearest) => Stop::NoName { word, nearest },
        Err(_) => no_memory(),
    }
}

// The values that names choose; all where there are no names.
fn chosen<'a>(
    alloc: Global,
    checked: &Checked,
    names: &'a [String],
) -> Result<Vec<Column>, Stop<'a>>
    ensures { IsChosen (program_of checked.now.tree) (map string_bytes names.now) result }
{
    let columns = match columns_of(alloc, checked) {
        Ok(columns) => columns,
        Err(_) => return Err(no_memory()),
    };
    if names.is_empty() {
        return Ok(columns);
    }
    match choose(alloc, checked, columns.as_slice(), names) {
        Ok(chosen) => Ok(chosen),
        Err(NoChoice::Memory) => Err(no_memory()),
        Err(NoChoice::Unknown(k)) => Err(no_name(
            alloc,
            checked,
            columns.as_slice(),
            names[k].as_str(),
        )),
    }
}

// Writes the values of each second of a run.
fn write_values<'a, F: Files, O: Sink>(
    checked: &Checked,
    columns: &[Column],
    window: Window,
    controller: &mut Controller,
    lines: &mut Lines,
    word: &'a str,
    files: &mut F,
    out: &mut O,
) -> Result<(), PlayStop<'a>>
    requires begun { (first : Past) × StandsFor controller.old first × (first.frames ≡ []) }
    requires live { is_live lines.old ≡ true }
    requires none_given { second_of lines.old ≡ 0 }
    requires gave { Gave lines.old [] }
    requires unread { (bytes : List ℕ) → Reads lines.old bytes [] }
    ensures told { (first : Past) → StandsFor controller.old first → first.frames ≡ [] → (frames : List Counts)
        × IsWritten result (header_text (program_of checked.now.tree) columns.now
        ++ told_from (row_told window.from window.to columns.now (code_of controller.old) (site_of controller.old))
        (logic_of controller.old) (site_of controller.old) first frames) (O.taken out.old) (O.taken out.new)
        × ForSome (F.told files.old) (λ file. IsPlayed word.now result (stream_of (file (name_of lines.old))) frames) }
    ensures contents_stay { F.told files.new ≡ F.told files.old }
    ensures read { StopsWith play_status status.ReadFault result → Rose (F.faults files.old) (F.faults files.new) }
    ensures write { StopsWith play_status status.WriteFault result → Rose (O.faults out.old) (O.faults out.new) }
{
    let mut draft = Draft::new();
    put_value_header(checked, columns, &mut draft, out);
    if draft.failed() {
        return Err(PlayStop::WriteFault);
    }
    let mut rows = Rows {
        columns,
        from: window.from,
        to: window.to,
    };
    match tell_all(&mut rows, controller, lines, files, draft, out) {
        Ok(()) => Ok(()),
        Err(stop) => Err(play_stop(stop, word)),
    }
}

// Writes the values of a program that was loaded. All memory is taken before the first byte is written.
fn tell_values<'a, F: Files, O: Sink>(
    alloc: Global,
    site: Site,
    checked: &Checked,
    columns: &[Column],
    window: Window,
    word: &'a str,
    files: &mut F,
    out: &mut O,
) -> Result<(), RunStop<'a>>
    requires times { length site.times ≡ groups_in site.plan }
    requires intergreens { site.intergreens.count ≡ groups_in site.plan }
    ensures told { ForSome (F.told files.old) (λ file.
        IsToldAt site (program_of checked.now.tree) columns.now window.from window.to word.now (stream_of (file word.now))
        result (O.taken out.old) (O.taken out.new)) }
    ensures valid { Valid site.code }
    ensures unwritten { IfErr result (λ stop. may_write true (stops.status_of stop) ≡ false → O.taken out.new ≡ O.taken out.old) }
    ensures contents_stay { F.told files.new ≡ F.told files.old }
    ensures read { StopsWith stops.status_of status.ReadFault result → Rose (F.faults files.old) (F.faults files.new) }
    ensures write { StopsWith stops.status_of status.WriteFault result → Rose (O.faults out.old) (O.faults out.new) }
{
    let mut controller = match make_controller(alloc, site) {
        Ok(controller) => controller,
        Err(_memory) => return Err(RunStop::Load(LoadStop::Memory)),
    };
    let mut lines = match Lines::make(alloc, word) {
        Ok(lines) => lines,
        Err(_memory) => {
            free_controller(controller);
            return Err(RunStop::Load(LoadStop::Memory));
        }
    };
    match write_values(
        checked,
        columns,
        window,
        &mut controller,
        &mut lines,
        word,
        files,
        out,
    ) {
        Ok(()) => {
            free_run(controller, lines);
            Ok(())
        }
        Err(stop) => {
            free_run(controller, lines);
            Err(RunStop::Play(stop))
        }
    }
}

/// Loads a program at its site, and writes the values that names choose as the seconds of a detector file leave them.
/// All memory is taken before the first byte is written.
pub(crate) fn values<'a, F: Files, O: Sink>(
    alloc: Global,
    run: RunNames<'a>,
    names: &'a [String],
    window: Window,
    files: &mut F,
    out: &mut O,
) -> Result<(), Stop<'a>>
    ensures values { ForSome (F.told files.old) (λ file.
        IsValues (record { run = run_named run.entry; names = map string_bytes names.now; first = window.from; last = window.to })
        file result (O.taken out.old) (O.taken out.new)) }
    ensures unwritten { IfErr result (λ stop. may_write true (status_of stop) ≡ false → O.taken out.new ≡ O.taken out.old) }
    ensures contents_stay { F.told files.new ≡ F.told files.old }
    ensures read { StopsWith status_of status.ReadFault result → Rose (F.faults files.old) (F.faults files.new) }
    ensures write { StopsWith status_of status.WriteFault result → Rose (O.faults out.old) (O.faults out.new) }
{
    let Loaded { site, checked, .. } = match load_program(alloc, run.program, &run.site, files) {
        Ok(loaded) => loaded,
        Err(stop) => return Err(Stop::Run(RunStop::Load(stop))),
    };
    let columns = match chosen(alloc, &checked, names) {
        Ok(columns) => columns,
        Err(stop) => {
            free_site(site);
            free_checked(checked);
            return Err(stop);
        }
    };
    match tell_values(
        alloc,
        site,
        &checked,
        columns.as_slice(),
        window,
        run.detectors,
        files,
        out,
    ) {
        Ok(()) => {
            free_checked(checked);
            Ok(())
        }
        Err(stop) => {
            free_checked(checked);
            Err(Stop::Run(stop))
        }
    }
}
