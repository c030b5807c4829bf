// The form `how-ended`.
ghost use Rattle.std.specs.Prelude.{◌≡◌, ◌++◌, [], ℕ, List, true, IfErr, false};
ghost use Rattle.std.specs.Option.{ForSome};
ghost use Rattle.sig_io.specs.Outside.{Rose};
ghost use Rattle.sig_types.specs.Counts.{Counts};
ghost use Rattle.controller.specs.Past.{Past};
ghost use Rattle.controller.specs.Controls.{StandsFor, code_of, logic_of, site_of};
ghost use Rattle.det_stream.specs.Answers.{Gave, Reads, is_live, name_of, second_of};
ghost use Rattle.det_stream.specs.Stream.{stream_of};
ghost use Rattle.junction_run.specs.Answers.{may_write};
ghost use Rattle.junction_run.specs.Played.{IsPlayed, IsWritten};
ghost use Rattle.junction_run.specs.Stop.{StopsWith, play_status};
ghost use Rattle.junction_run.specs.declared.status.Status.TheVariants as status;
ghost use Rattle.run_seconds.specs.Told.{told_from};
ghost use Rattle.trace_told.specs.EndRows.{end_told, header_text};
ghost use Rattle.trace_call.specs.FormWords.{run_named};
ghost use Rattle.trace_call.specs.HowEnded.{IsHowEnded};
ghost use Rattle.trace_call.specs.Notes.{status_of};

use crate::begin::start;
use crate::form::RunNames;
use crate::freed::{free_program, free_run};
use crate::load::{Loaded, load_program};
use crate::stop::Stop;
use crate::values::{no_memory, play_stop};
use controller::Controller;
use det_stream::Lines;
use junction_run::{PlayStop, Stop as RunStop};
use run_seconds::tell_all;
use sig_io::{Draft, Files, Sink};
use std::alloc::Global;
use trace_told::{Ends, put_end_header};

// Writes the ends of stages in a run.
fn write_ends<'a, F: Files, O: Sink>(
    csv: bool,
    controller: &mut Controller,
    lines: &mut Lines,
    word: &'a str,
    files: &mut F,
    out: &mut O,
) -> Result<(), PlayStop<'a>>
    requires begun { (first : Past) × StandsFor controller.old first × (first.frames ≡ []) × (first.orders ≡ []) }
    requires live { is_live lines.old ≡ true }
    requires none_given { second_of lines.old ≡ 0 }
    requires gave { Gave lines.old [] }
    requires unread { (bytes : List ℕ) → Reads lines.old bytes [] }
    ensures told { (first : Past) → StandsFor controller.old first → first.frames ≡ [] → first.orders ≡ [] → (frames : List Counts)
        × IsWritten result (header_text csv ++ told_from (end_told csv (code_of controller.old) (site_of controller.old))
        (logic_of controller.old) (site_of controller.old) first frames) (O.taken out.old) (O.taken out.new)
        × ForSome (F.told files.old) (λ file. IsPlayed word.now result (stream_of (file (name_of lines.old))) frames) }
    ensures contents_stay { F.told files.new ≡ F.told files.old }
    ensures read { StopsWith play_status status.ReadFault result → Rose (F.faults files.old) (F.faults files.new) }
    ensures write { StopsWith play_status status.WriteFault result → Rose (O.faults out.old) (O.faults out.new) }
{
    let mut draft = Draft::new();
    put_end_header(csv, &mut draft, out);
    if draft.failed() {
        return Err(PlayStop::WriteFault);
    }
    let mut ends = Ends::new(csv, controller.plan());
    match tell_all(&mut ends, controller, lines, files, draft, out) {
        Ok(()) => Ok(()),
        Err(stop) => Err(play_stop(stop, word)),
    }
}

/// Loads a program at its site, and writes for each end of a stage the line of the command that ended it, in a table or in words.
/// All memory is taken before the first byte is written.
pub(crate) fn how_ended<'a, F: Files, O: Sink>(
    alloc: Global,
    run: RunNames<'a>,
    csv: bool,
    files: &mut F,
    out: &mut O,
) -> Result<(), Stop<'a>>
    ensures ends { ForSome (F.told files.old) (λ file.
        IsHowEnded (record { run = run_named run.entry; csv = csv }) file result (O.taken out.old) (O.taken out.new)) }
    ensures unwritten { IfErr result (λ stop. may_write true (status_of stop) ≡ false → O.taken out.new ≡ O.taken out.old) }
    ensures contents_stay { F.told files.new ≡ F.told files.old }
    ensures read { StopsWith status_of status.ReadFault result → Rose (F.faults files.old) (F.faults files.new) }
    ensures write { StopsWith status_of status.WriteFault result → Rose (O.faults out.old) (O.faults out.new) }
{
    let Loaded {
        site,
        checked,
        text,
    } = match load_program(alloc, run.program, &run.site, files) {
        Ok(loaded) => loaded,
        Err(stop) => return Err(Stop::Run(RunStop::Load(stop))),
    };
    free_program(checked, text);
    let (mut controller, mut lines) = match start(alloc, site, run.detectors) {
        Ok(started) => started,
        Err(_memory) => return Err(no_memory()),
    };
    match write_ends(csv, &mut controller, &mut lines, run.detectors, files, out) {
        Ok(()) => {
            free_run(controller, lines);
            Ok(())
        }
        Err(stop) => {
            free_run(controller, lines);
            Err(Stop::Run(RunStop::Play(stop)))
        }
    }
}
