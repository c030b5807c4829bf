// The seconds of a run, and its log.
ghost use Rattle.std.specs.Prelude.{◌≡◌, ◌≤◌, [], ℕ, List, true, Option, IfErr};
ghost use Rattle.std.specs.Option.{ForSome};
ghost use Rattle.sig_io.specs.Outside.{Rose};
ghost use Rattle.sig_types.specs.Counts.{Counts};
ghost use Rattle.sig_types.specs.Pass.{Store};
ghost use Rattle.controller.specs.Past.{opening};
ghost use Rattle.controller.specs.Controls.{StandsFor, site_of};
ghost use Rattle.det_stream.specs.Answers.{Gave, Reads, is_live, name_of, second_of};
ghost use Rattle.det_stream.specs.Stream.{stream_of};
ghost use Rattle.junction_run.specs.Played.{playing_of, IsPlayed, IsStopAt, IsWritten};
ghost use Rattle.junction_run.specs.Records.{log_of};
ghost use Rattle.junction_run.specs.Stop.{PlaysAt, StopsWith, play_status};
ghost use Rattle.junction_run.specs.declared.status.Status.TheVariants as status;

use crate::stop::{LineReason, PlayStop};
use controller::Controller;
use det_stream::Lines;
use run_seconds::{Stop, Teller, tell_all};
use sig_io::{Draft, Files, Sink};
use sig_types::Frame;
use signal_log::{put_header, put_second};
use vap_vm::Unseen;

// What tells of each second by its record in the log.
#[derive(Clone, Copy)]
struct Log;

impl Teller for Log {
    ghost use Rattle.vap_code.specs.Machine.{machine};
    ghost use Rattle.junction_run.specs.Records.{record_told};

    ghost telling = { λ log code site past frame. record_told (machine code) site past frame };

    ghost knows = { λ log code site first frames. Unit {0} };

    fn tell<O: Sink>(
        &mut self,
        controller: &mut Controller,
        frame: &Frame,
        draft: &mut Draft,
        out: &mut O,
    ) {
        controller.second_seen(frame, &mut Unseen);
        put_second(controller.last(), controller.plan(), draft, out);
    }
}

// Why the seconds of the file of this name stopped, as a stop of a command.
fn stop_at<'a>(word: &'a str, stop: Stop) -> PlayStop<'a>
    ensures { IsStopAt word.now stop result }
{
    match stop {
        Stop::ReadFault => PlayStop::ReadFault(word),
        Stop::WriteFault => PlayStop::WriteFault,
        Stop::Refused { line, why } => PlayStop::RefusedLine {
            word,
            line,
            reason: LineReason::Frame(why),
        },
    }
}

/// Writes the header, and then makes a second for each line of the detector file and writes its record. All goes through one
/// draft, and what is held goes out before the detector file is asked for more bytes, and before each return.
pub(crate) fn play<'a, F: Files, O: Sink>(
    controller: &mut Controller,
    lines: &mut Lines,
    word: &'a str,
    files: &mut F,
    out: &mut O,
) -> Result<(), PlayStop<'a>>
    requires begun { (store : Store) × StandsFor controller.old (opening (site_of controller.old) store) }
    requires live { is_live lines.old ≡ true }
    requires none_given { second_of lines.old ≡ 0 }
    requires gave { Gave lines.old [] }
    requires unread { (bytes : List ℕ) → Reads lines.old bytes [] }
    ensures played { (store : Store) → StandsFor controller.old (opening (site_of controller.old) store) →
        (frames : List Counts)
        × IsWritten result (log_of (playing_of controller.old store) frames) (O.taken out.old) (O.taken out.new)
        × ForSome (F.told files.old) (λ file. IsPlayed word.now result (stream_of (file (name_of lines.old))) frames) }
    ensures word { IfErr result (λ stop. PlaysAt word.now stop) }
    ensures contents_stay { F.told files.new ≡ F.told files.old }
    ensures later_files { F.faults files.old ≤ F.faults files.new }
    ensures later_out { O.faults out.old ≤ O.faults out.new }
    ensures read { StopsWith play_status status.ReadFault result → Rose (F.faults files.old) (F.faults files.new) }
    ensures write { StopsWith play_status status.WriteFault result → Rose (O.faults out.old) (O.faults out.new) }
{
    let mut draft = Draft::new();
    put_header(controller.plan(), &mut draft, out);
    match tell_all(&mut Log, controller, lines, files, draft, out) {
        Ok(()) => Ok(()),
        Err(stop) => Err(stop_at(word, stop)),
    }
}
