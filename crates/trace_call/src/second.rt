// The form `second`.
ghost use Rattle.std.specs.Prelude.{◌≡◌, [], ℕ, List, map, true, IfErr, false};
ghost use Rattle.std.specs.Option.{ForSome};
ghost use Rattle.sig_io.specs.Outside.{Rose};
ghost use Rattle.sig_types.specs.Counts.{Counts};
ghost use Rattle.vap_ast.specs.Tree.{program_of};
ghost use Rattle.controller.specs.Past.{Past};
ghost use Rattle.controller.specs.Controls.{StandsFor, code_of, logic_of, site_of};
ghost use Rattle.det_stream.specs.Answers.{Gave, Reads, is_live, name_of, second_of};
ghost use Rattle.det_stream.specs.Stream.{stream_of};
ghost use Rattle.junction_run.specs.Answers.{may_write};
ghost use Rattle.junction_run.specs.Played.{IsPlayed, IsWritten};
ghost use Rattle.junction_run.specs.Stop.{StopsWith, play_status};
ghost use Rattle.junction_run.specs.declared.status.Status.TheVariants as status;
ghost use Rattle.run_seconds.specs.Told.{told_from};
ghost use Rattle.trace_told.specs.Listing.{column_of, second_told};
ghost use Rattle.trace_call.specs.FormWords.{run_named};
ghost use Rattle.trace_call.specs.Second.{IsSecond};
ghost use Rattle.trace_call.specs.Notes.{status_of};

use crate::begin::start;
use crate::form::RunNames;
use crate::freed::{free_checked, free_listing, free_run, free_site};
use crate::load::{Loaded, load_program};
use crate::stop::Stop;
use crate::values::{no_memory, play_stop};
use controller::Controller;
use det_stream::Lines;
use junction_run::{PlayStop, Stop as RunStop};
use run_seconds::tell_all;
use sig_io::{Draft, Files, Sink};
use std::alloc::Global;
use trace_told::Second;

// Writes the listing of a second of a run.
fn write_second<'a, F: Files, O: Sink>(
    teller: &mut Second<'_>,
    controller: &mut Controller,
    lines: &mut Lines,
    word: &'a str,
    files: &mut F,
    out: &mut O,
) -> Result<(), PlayStop<'a>>
    requires begun { (first : Past) × StandsFor controller.old first × (first.frames ≡ []) }
    requires live { is_live lines.old ≡ true }
    requires none_given { second_of lines.old ≡ 0 }
    requires gave { Gave lines.old [] }
    requires unread { (bytes : List ℕ) → Reads lines.old bytes [] }
    ensures told { (first : Past) → StandsFor controller.old first → first.frames ≡ [] → (frames : List Counts)
        × IsWritten result (told_from (second_told (program_of teller.old.checked.now.tree) (map column_of teller.old.kept.items) teller.old.before
        (code_of controller.old) (site_of controller.old)) (logic_of controller.old) (site_of controller.old) first frames)
        (O.taken out.old) (O.taken out.new)
        × ForSome (F.told files.old) (λ file. IsPlayed word.now result (stream_of (file (name_of lines.old))) frames) }
    ensures contents_stay { F.told files.new ≡ F.told files.old }
    ensures read { StopsWith play_status status.ReadFault result → Rose (F.faults files.old) (F.faults files.new) }
    ensures write { StopsWith play_status status.WriteFault result → Rose (O.faults out.old) (O.faults out.new) }
{
    let draft = Draft::new();
    match tell_all(teller, controller, lines, files, draft, out) {
        Ok(()) => Ok(()),
        Err(stop) => Err(play_stop(stop, word)),
    }
}

/// Loads a program at its site, makes the seconds of a detector file, and writes the listing of one of them.
/// All memory is taken before the first byte is written.
pub(crate) fn second<'a, F: Files, O: Sink>(
    alloc: Global,
    run: RunNames<'a>,
    second: u32,
    files: &mut F,
    out: &mut O,
) -> Result<(), Stop<'a>>
    ensures listed { ForSome (F.told files.old) (λ file.
        IsSecond (record { run = run_named run.entry; second = second }) file result (O.taken out.old) (O.taken out.new)) }
    ensures unwritten { IfErr result (λ stop. may_write true (status_of stop) ≡ false → O.taken out.new ≡ O.taken out.old) }
    ensures contents_stay { F.told files.new ≡ F.told files.old }
    ensures read { StopsWith status_of status.ReadFault result → Rose (F.faults files.old) (F.faults files.new) }
    ensures write { StopsWith status_of status.WriteFault result → Rose (O.faults out.old) (O.faults out.new) }
{
    let Loaded { site, checked, .. } = match load_program(alloc, run.program, &run.site, files) {
        Ok(loaded) => loaded,
        Err(stop) => return Err(Stop::Run(RunStop::Load(stop))),
    };
    let mut teller = match Second::new(alloc, &checked, second.saturating_sub(1)) {
        Ok(teller) => teller,
        Err(_memory) => {
            free_site(site);
            free_checked(checked);
            return Err(no_memory());
        }
    };
    let (mut controller, mut lines) = match start(alloc, site, run.detectors) {
        Ok(started) => started,
        Err(_memory) => {
            free_listing(teller);
            free_checked(checked);
            return Err(no_memory());
        }
    };
    match write_second(
        &mut teller,
        &mut controller,
        &mut lines,
        run.detectors,
        files,
        out,
    ) {
        Ok(()) => {
            free_run(controller, lines);
            free_listing(teller);
            free_checked(checked);
            Ok(())
        }
        Err(stop) => {
            free_run(controller, lines);
            free_listing(teller);
            free_checked(checked);
            Err(Stop::Run(RunStop::Play(stop)))
        }
    }
}
