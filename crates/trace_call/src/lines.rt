// The form `lines`.
ghost use Rattle.std.specs.Prelude.{◌≡◌, ◌≤◌, ◌∷◌, [], ℕ, List, Ok, OnErr, true, length, map, string_bytes, IfErr, false};
ghost use Rattle.std.specs.Option.{ForSome};
ghost use Rattle.sig_io.specs.Draft.{Puts};
ghost use Rattle.sig_io.specs.Outside.{Rose};
ghost use Rattle.pua_model.specs.Plan.{groups_in};
ghost use Rattle.sig_types.specs.Counts.{Counts};
ghost use Rattle.vap_ast.specs.Tree.{program_of};
ghost use Rattle.vap_check.specs.Numbers.{checked_of};
ghost use Rattle.vap_code.specs.Sights.{Sight};
ghost use Rattle.controller.specs.Past.{Site as SiteOf, Past};
ghost use Rattle.controller.specs.Controls.{StandsFor, code_of, site_of};
ghost use Rattle.det_stream.specs.Answers.{Gave, Reads, is_live, name_of, second_of};
ghost use Rattle.det_stream.specs.Stream.{stream_of};
ghost use Rattle.junction_run.specs.Answers.{may_write};
ghost use Rattle.junction_run.specs.FormWords.{site_in};
ghost use Rattle.junction_run.specs.Loading as loading;
ghost use Rattle.junction_run.specs.Played.{IsPlayed};
ghost use Rattle.junction_run.specs.Sites as sites;
ghost use Rattle.junction_run.specs.Stop as stops;
ghost use Rattle.junction_run.specs.Stop.{StopsWith, play_status};
ghost use Rattle.junction_run.specs.declared.status.Status.TheVariants as status;
ghost use Rattle.trace_lines.specs.Lines.{line_in};
ghost use Rattle.trace_call.specs.Loaded.{code_for};
ghost use Rattle.trace_lines.specs.Seconds.{sights_by};
ghost use Rattle.trace_lines.specs.Tallied.{HasTallied};
ghost use Rattle.trace_call.specs.Form.{files_in};
ghost use Rattle.trace_call.specs.FormWords.{run_named};
ghost use Rattle.trace_call.specs.Lines.{AreAddedRuns, AreCountedRuns, IsAddedRun, IsLines, IsRun, IsTalliedRun, lines_text};
ghost use Rattle.trace_call.specs.Notes.{status_of};
ghost use Rattle.trace_call.specs.Written.{IsWritten};

use crate::again::load_again;
use crate::begin::start;
use crate::end::end;
use crate::form::{RunNames, Style};
use crate::freed::{free_checked, free_run};
use crate::load::{Loaded, load_program};
use crate::stop::Stop;
use crate::values::play_stop;
use controller::Controller;
use det_stream::Lines;
use junction_run::{LoadStop, PlayStop, Site, SiteWords, Stop as RunStop};
use run_seconds::tell_all;
use sig_io::{Draft, Files, Sink};
use std::alloc::Global;
use trace_lines::{Line, Tally, put_csv, put_lcov, put_table};
use vap_check::Checked;

// Makes the seconds of a detector file and tallies them. Nothing is written.
fn tally_seconds<'a, F: Files, O: Sink>(
    tally: &mut Tally,
    controller: &mut Controller,
    lines: &mut Lines,
    word: &'a str,
    files: &mut F,
    out: &mut O,
) -> Result<(), PlayStop<'a>>
    requires begun { (first : Past) × StandsFor controller.old first × (first.frames ≡ [])
        × HasTallied tally.old (code_of controller.old).instrs [] }
    requires live { is_live lines.old ≡ true }
    requires none_given { second_of lines.old ≡ 0 }
    requires gave { Gave lines.old [] }
    requires unread { (bytes : List ℕ) → Reads lines.old bytes [] }
    ensures tallied { (first : Past) → StandsFor controller.old first → first.frames ≡ [] →
        HasTallied tally.old (code_of controller.old).instrs [] → (frames : List Counts)
        × HasTallied tally.new (code_of controller.old).instrs (sights_by (code_of controller.old) (site_of controller.old) first frames)
        × ForSome (F.told files.old) (λ file. IsPlayed word.now result (stream_of (file (name_of lines.old))) frames) }
    ensures contents_stay { F.told files.new ≡ F.told files.old }
    ensures nothing { O.taken out.new ≡ O.taken out.old }
    ensures later { O.faults out.old ≤ O.faults out.new }
    ensures reads_later { F.faults files.old ≤ F.faults files.new }
    ensures read { StopsWith play_status status.ReadFault result → Rose (F.faults files.old) (F.faults files.new) }
    ensures no_write { StopsWith play_status status.WriteFault result → ⊥ }
{
    let draft = Draft::new();
    match tell_all(tally, controller, lines, files, draft, out) {
        Ok(()) => Ok(()),
        Err(stop) => Err(play_stop(stop, word)),
    }
}

// Tallies the seconds of a detector file at a site. Nothing is written.
fn count_seconds<'a, F: Files, O: Sink>(
    alloc: Global,
    tally: &mut Tally,
    site: Site,
    word: &'a str,
    files: &mut F,
    out: &mut O,
) -> Result<(), RunStop<'a>>
    requires times { length site.times ≡ groups_in site.plan }
    requires intergreens { site.intergreens.count ≡ groups_in site.plan }
    requires none { HasTallied tally.old site.code.instrs [] }
    ensures counted { ForSome (F.told files.old) (λ file. IsTalliedRun site.code (sites.site_in site) [] word.now file tally.new result) }
    ensures contents_stay { F.told files.new ≡ F.told files.old }
    ensures nothing { O.taken out.new ≡ O.taken out.old }
    ensures later { O.faults out.old ≤ O.faults out.new }
    ensures reads_later { F.faults files.old ≤ F.faults files.new }
    ensures read { StopsWith stops.status_of status.ReadFault result → Rose (F.faults files.old) (F.faults files.new) }
    ensures no_write { StopsWith stops.status_of status.WriteFault result → ⊥ }
{
    let (mut controller, mut lines) = match start(alloc, site, word) {
        Ok(started) => started,
        Err(_memory) => return Err(RunStop::Load(LoadStop::Memory)),
    };
    match tally_seconds(tally, &mut controller, &mut lines, word, files, out) {
        Ok(()) => {
            free_run(controller, lines);
            Ok(())
        }
        Err(stop) => {
            free_run(controller, lines);
            Err(RunStop::Play(stop))
        }
    }
}

// Counts what runs in the seconds of a detector file at a site, from the first one on. Nothing is written.
fn count_run<'a, F: Files, O: Sink>(
    alloc: Global,
    site: Site,
    word: &'a str,
    files: &mut F,
    out: &mut O,
) -> Result<Tally, RunStop<'a>>
    requires times { length site.times ≡ groups_in site.plan }
    requires intergreens { site.intergreens.count ≡ groups_in site.plan }
    ensures counted { ForSome (F.told files.old) (λ file. IsRun site.code (sites.site_in site) word.now file result) }
    ensures contents_stay { F.told files.new ≡ F.told files.old }
    ensures nothing { O.taken out.new ≡ O.taken out.old }
    ensures later { O.faults out.old ≤ O.faults out.new }
    ensures reads_later { F.faults files.old ≤ F.faults files.new }
    ensures read { StopsWith stops.status_of status.ReadFault result → Rose (F.faults files.old) (F.faults files.new) }
    ensures no_write { StopsWith stops.status_of status.WriteFault result → ⊥ }
{
    let mut tally = match Tally::new(alloc, &site.code.code().instrs) {
        Ok(tally) => tally,
        Err(_memory) => return Err(RunStop::Load(LoadStop::Memory)),
    };
    match count_seconds(alloc, &mut tally, site, word, files, out) {
        Ok(()) => Ok(tally),
        Err(stop) => Err(stop),
    }
}

// Adds what runs in the seconds of one more detector file, at the same site. Nothing is written.
fn add_run<'a, F: Files, O: Sink>(
    alloc: Global,
    total: &mut Tally,
    words: &SiteWords<'a>,
    checked: &Checked,
    word: &'a str,
    files: &mut F,
    out: &mut O,
) -> Result<(), RunStop<'a>>
    ensures added { ForSome (F.told files.old) (λ file. (site : SiteOf) → loading.site_of (site_in words.now) file ≡ Ok site →
        checked.now ≡ checked_of checked.now.tree → (seconds : List (List Sight)) →
        HasTallied total.old (code_for (program_of checked.now.tree)).instrs seconds →
        IsAddedRun (site_in words.now) (code_for (program_of checked.now.tree)) site seconds word.now file total.new result) }
    ensures contents_stay { F.told files.new ≡ F.told files.old }
    ensures nothing { O.taken out.new ≡ O.taken out.old }
    ensures later { O.faults out.old ≤ O.faults out.new }
    ensures reads_later { F.faults files.old ≤ F.faults files.new }
    ensures read { StopsWith stops.status_of status.ReadFault result → Rose (F.faults files.old) (F.faults files.new) }
    ensures no_write { StopsWith stops.status_of status.WriteFault result → ⊥ }
{
    let site = match load_again(alloc, words, checked, files) {
        Ok(site) => site,
        Err(stop) => return Err(RunStop::Load(stop)),
    };
    match count_run(alloc, site, word, files, out) {
        Ok(run) => {
            total.add_run(&run);
            Ok(())
        }
        Err(stop) => Err(stop),
    }
}

// Adds what runs in the seconds of the detector file behind each `--add`, one after the other. Nothing is written.
fn add_runs<'a, F: Files, O: Sink>(
    alloc: Global,
    total: &mut Tally,
    words: &SiteWords<'a>,
    checked: &Checked,
    added: &'a [String],
    files: &mut F,
    out: &mut O,
) -> Result<(), RunStop<'a>>
    ensures added { ForSome (F.told files.old) (λ file. (site : SiteOf) → loading.site_of (site_in words.now) file ≡ Ok site →
        checked.now ≡ checked_of checked.now.tree → (seconds : List (List Sight)) →
        HasTallied total.old (code_for (program_of checked.now.tree)).instrs seconds →
        AreAddedRuns (site_in words.now) (code_for (program_of checked.now.tree)) site seconds (files_in (map string_bytes added.now)) file
        total.new result) }
    ensures contents_stay { F.told files.new ≡ F.told files.old }
    ensures nothing { O.taken out.new ≡ O.taken out.old }
    ensures later { O.faults out.old ≤ O.faults out.new }
    ensures reads_later { F.faults files.old ≤ F.faults files.new }
    ensures read { StopsWith stops.status_of status.ReadFault result → Rose (F.faults files.old) (F.faults files.new) }
    ensures no_write { StopsWith stops.status_of status.WriteFault result → ⊥ }
{
    let mut rest = added;
    while !rest.is_empty() {
        let [_option, word, behind @ ..] = rest else {
            return Ok(());
        };
        match add_run(alloc, total, words, checked, word.as_str(), files, out) {
            Ok(()) => {}
            Err(stop) => return Err(stop),
        }
        rest = behind;
    }
    Ok(())
}

// Counts what runs in the seconds of a detector file at a site and in those of the added ones. Nothing is written.
fn count_lines<'a, F: Files, O: Sink>(
    alloc: Global,
    site: Site,
    checked: &Checked,
    run: &RunNames<'a>,
    added: &'a [String],
    files: &mut F,
    out: &mut O,
) -> Result<Vec<Line>, RunStop<'a>>
    requires times { length site.times ≡ groups_in site.plan }
    requires intergreens { site.intergreens.count ≡ groups_in site.plan }
    ensures counted { ForSome (F.told files.old) (λ file. loading.site_of (run_named run.now).site file ≡ Ok (sites.site_in site) →
        checked.now ≡ checked_of checked.now.tree → site.code ≡ code_for (program_of checked.now.tree) →
        AreCountedRuns (run_named run.now).site (code_for (program_of checked.now.tree)) (sites.site_in site)
        ((run_named run.now).detectors ∷ files_in (map string_bytes added.now)) file result) }
    ensures contents_stay { F.told files.new ≡ F.told files.old }
    ensures nothing { O.taken out.new ≡ O.taken out.old }
    ensures later { O.faults out.old ≤ O.faults out.new }
    ensures read { StopsWith stops.status_of status.ReadFault result → Rose (F.faults files.old) (F.faults files.new) }
    ensures no_write { StopsWith stops.status_of status.WriteFault result → ⊥ }
{
    let mut total = match count_run(alloc, site, run.detectors, files, out) {
        Ok(tally) => tally,
        Err(stop) => return Err(stop),
    };
    match add_runs(alloc, &mut total, &run.site, checked, added, files, out) {
        Ok(()) => {}
        Err(stop) => return Err(stop),
    }
    match total.lines(alloc) {
        Ok(lines) => Ok(lines),
        Err(_memory) => Err(RunStop::Load(LoadStop::Memory)),
    }
}

// Puts the counts of lines of a program with this name and text in a style.
fn put_lines<O: Sink>(
    style: Style,
    name: &[u8],
    text: &[u8],
    lines: &[Line],
    draft: &mut Draft,
    out: &mut O,
)
    ensures { Puts O.taken O.faults draft.old draft.new out.old out.new (lines_text style name.now text.now (map line_in lines.now)) }
{
    match style {
        Style::Table => put_table(text, lines, draft, out),
        Style::Csv => put_csv(lines, draft, out),
        Style::Lcov => put_lcov(name, lines, draft, out),
    }
}

// Writes the counts of lines of a program with this name and text in a style.
fn write_lines<'a, O: Sink>(
    style: Style,
    name: &[u8],
    text: &[u8],
    lines: &[Line],
    out: &mut O,
) -> Result<(), Stop<'a>>
    ensures written { IsWritten (lines_text style name.now text.now (map line_in lines.now)) result (O.taken out.old) (O.taken out.new) }
    ensures cause { OnErr result (Rose (O.faults out.old) (O.faults out.new)) }
{
    let mut draft = Draft::new();
    put_lines(style, name, text, lines, &mut draft, out);
    end(draft, out)
}

/// Loads a program at its site, makes the seconds of a detector file and those of the ones behind each `--add`, each from the
/// first second on, and writes what is counted of the program's lines in all of them. Nothing is written before all seconds are
/// made and all memory is taken.
pub(crate) fn lines<'a, F: Files, O: Sink>(
    alloc: Global,
    run: RunNames<'a>,
    style: Style,
    added: &'a [String],
    files: &mut F,
    out: &mut O,
) -> Result<(), Stop<'a>>
    ensures lines { ForSome (F.told files.old) (λ file.
        IsLines (record { run = run_named run.entry; style = style; added = files_in (map string_bytes added.now) }) file result
        (O.taken out.old) (O.taken out.new)) }
    ensures unwritten { IfErr result (λ stop. may_write true (status_of stop) ≡ false → O.taken out.new ≡ O.taken out.old) }
    ensures contents_stay { F.told files.new ≡ F.told files.old }
    ensures read { StopsWith status_of status.ReadFault result → Rose (F.faults files.old) (F.faults files.new) }
    ensures write { StopsWith status_of status.WriteFault result → Rose (O.faults out.old) (O.faults out.new) }
{
    let Loaded {
        site,
        checked,
        text,
    } = match load_program(alloc, run.program, &run.site, files) {
        Ok(loaded) => loaded,
        Err(stop) => return Err(Stop::Run(RunStop::Load(stop))),
    };
    match count_lines(alloc, site, &checked, &run, added, files, out) {
        Ok(lines) => {
            free_checked(checked);
            write_lines(style, run.program.as_bytes(), &text, &lines, out)
        }
        Err(stop) => {
            free_checked(checked);
            Err(Stop::Run(stop))
        }
    }
}
