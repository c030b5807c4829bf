// The form `trace`.
ghost use Rattle.std.specs.Prelude.{◌≡◌, ◌≤◌, [], ℕ, List, IfOk, length, map, true, IfErr, false};
ghost use Rattle.std.specs.Option.{ForSome};
ghost use Rattle.sig_io.specs.Outside.{Rose};
ghost use Rattle.sig_types.specs.Counts.{Counts};
ghost use Rattle.vap_ast.specs.Tree.{program_of};
ghost use Rattle.vap_lex.specs.declared.token.Token.{Token};
ghost use Rattle.vap_lex.specs.Tokens.{HasTokens};
ghost use Rattle.controller.specs.Past.{Past};
ghost use Rattle.controller.specs.Controls.{StandsFor, code_of, logic_of, site_of};
ghost use Rattle.det_stream.specs.Answers.{Gave, Reads, is_live, name_of, second_of};
ghost use Rattle.det_stream.specs.Stream.{stream_of};
ghost use Rattle.junction_run.specs.Answers.{may_write};
ghost use Rattle.junction_run.specs.Played.{IsPlayed, IsWritten};
ghost use Rattle.junction_run.specs.Stop.{StopsWith, play_status};
ghost use Rattle.junction_run.specs.declared.status.Status.TheVariants as status;
ghost use Rattle.run_seconds.specs.Told.{told_from};
ghost use Rattle.trace_told.specs.Columns.{columns_of};
ghost use Rattle.trace_told.specs.Printed.{prints_told};
ghost use Rattle.trace_told.specs.Traces.{trace_in, traces_of};
ghost use Rattle.trace_call.specs.FormWords.{run_named};
ghost use Rattle.trace_call.specs.Notes.{status_of};
ghost use Rattle.trace_call.specs.Prints.{IsTrace};

use crate::begin::start;
use crate::form::RunNames;
use crate::freed::{free_program, free_run, free_site};
use crate::load::{Loaded, load_program};
use crate::stop::Stop;
use crate::values::{no_memory, play_stop};
use controller::Controller;
use det_stream::Lines;
use junction_run::{PlayStop, Stop as RunStop};
use run_seconds::tell_all;
use sig_io::{Draft, Files, Sink};
use std::alloc::{AllocError, Global};
use trace_told::{Prints, Trace, columns_of, traces_of};
use vap_check::Checked;
use vap_code::Instr;
use vap_lex::tokens;

// The TRACE statements of a program with this text and this code. A program's text has tokens, so memory alone can be wanted.
fn find_traces(
    alloc: Global,
    checked: &Checked,
    text: &[u8],
    instrs: &[Instr],
) -> Result<Vec<Trace>, AllocError>
    requires { length text.now ≤ 1048576 }
    ensures traces { IfOk result (λ traces. (tokens : List Token) × HasTokens text.now tokens × (map trace_in traces.items
        ≡ traces_of checked.now.names (program_of checked.now.tree) (columns_of (program_of checked.now.tree)) tokens instrs.now)) }
{
    let columns = match columns_of(alloc, checked) {
        Ok(columns) => columns,
        Err(memory) => return Err(memory),
    };
    let tokens = match tokens(alloc, text) {
        Ok(tokens) => tokens,
        Err(_) => return Err(AllocError),
    };
    match traces_of(
        alloc,
        checked,
        columns.as_slice(),
        tokens.as_slice(),
        instrs,
    ) {
        Ok(traces) => Ok(traces),
        Err(memory) => Err(memory),
    }
}

// Writes what the TRACE statements print in the seconds of a run.
fn write_prints<'a, F: Files, O: Sink>(
    checked: &Checked,
    traces: &[Trace],
    controller: &mut Controller,
    lines: &mut Lines,
    word: &'a str,
    files: &mut F,
    out: &mut O,
) -> Result<(), PlayStop<'a>>
    requires begun { (first : Past) × StandsFor controller.old first × (first.frames ≡ []) }
    requires live { is_live lines.old ≡ true }
    requires none_given { second_of lines.old ≡ 0 }
    requires gave { Gave lines.old [] }
    requires unread { (bytes : List ℕ) → Reads lines.old bytes [] }
    ensures told { (first : Past) → StandsFor controller.old first → first.frames ≡ [] → (frames : List Counts)
        × IsWritten result (told_from (prints_told (program_of checked.now.tree) (map trace_in traces.now) (code_of controller.old) (site_of controller.old))
        (logic_of controller.old) (site_of controller.old) first frames) (O.taken out.old) (O.taken out.new)
        × ForSome (F.told files.old) (λ file. IsPlayed word.now result (stream_of (file (name_of lines.old))) frames) }
    ensures contents_stay { F.told files.new ≡ F.told files.old }
    ensures read { StopsWith play_status status.ReadFault result → Rose (F.faults files.old) (F.faults files.new) }
    ensures write { StopsWith play_status status.WriteFault result → Rose (O.faults out.old) (O.faults out.new) }
{
    let draft = Draft::new();
    let mut prints = Prints { checked, traces };
    match tell_all(&mut prints, controller, lines, files, draft, out) {
        Ok(()) => Ok(()),
        Err(stop) => Err(play_stop(stop, word)),
    }
}

/// Loads a program at its site, and writes what its TRACE statements print in the seconds of a detector file, a line for each call
/// of one. All memory is taken before the first byte is written.
pub(crate) fn prints<'a, F: Files, O: Sink>(
    alloc: Global,
    run: RunNames<'a>,
    files: &mut F,
    out: &mut O,
) -> Result<(), Stop<'a>>
    ensures prints { ForSome (F.told files.old) (λ file. IsTrace (run_named run.entry) file result (O.taken out.old) (O.taken out.new)) }
    ensures unwritten { IfErr result (λ stop. may_write true (status_of stop) ≡ false → O.taken out.new ≡ O.taken out.old) }
    ensures contents_stay { F.told files.new ≡ F.told files.old }
    ensures read { StopsWith status_of status.ReadFault result → Rose (F.faults files.old) (F.faults files.new) }
    ensures write { StopsWith status_of status.WriteFault result → Rose (O.faults out.old) (O.faults out.new) }
{
    let Loaded {
        site,
        checked,
        text,
    } = match load_program(alloc, run.program, &run.site, files) {
        Ok(loaded) => loaded,
        Err(stop) => return Err(Stop::Run(RunStop::Load(stop))),
    };
    let traces = match find_traces(alloc, &checked, &text, &site.code.code().instrs) {
        Ok(traces) => traces,
        Err(_memory) => {
            free_site(site);
            free_program(checked, text);
            return Err(no_memory());
        }
    };
    let (mut controller, mut lines) = match start(alloc, site, run.detectors) {
        Ok(started) => started,
        Err(_memory) => {
            free_program(checked, text);
            return Err(no_memory());
        }
    };
    match write_prints(
        &checked,
        &traces,
        &mut controller,
        &mut lines,
        run.detectors,
        files,
        out,
    ) {
        Ok(()) => {
            free_run(controller, lines);
            free_program(checked, text);
            Ok(())
        }
        Err(stop) => {
            free_run(controller, lines);
            free_program(checked, text);
            Err(Stop::Run(RunStop::Play(stop)))
        }
    }
}
