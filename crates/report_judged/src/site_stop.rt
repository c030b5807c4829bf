// Why a call ended before all was done, and how it ended.
ghost use Rattle.std.specs.Prelude.{◌≡◌, map, string_bytes};
ghost use Rattle.std.specs.Io.KnownBytes.{append_known};
ghost use Rattle.sig_io.specs.Outside.{Rose};
ghost use Rattle.report_judged.specs.SiteStop.{status_of, stop_note, view_status};

use report_seen::Stop;
use report_words::{JudgeStop, Status};
use sig_io::Sink;

/// Why a call ended before all was done.
#[derive(Drop)]
pub enum DiagramStop<'a> {
    /// The words, the log or standard output, as without a site.
    Log(Stop),
    /// The site was not taken, or the log is one of other groups.
    Judged(JudgeStop<'a>),
}

// How a call ended that stopped as one without a site.
fn view_status(status: report_seen::Status) -> Status
    ensures { result ≡ view_status status }
{
    match status {
        report_seen::Status::Done => Status::Done,
        report_seen::Status::Memory => Status::Memory,
        report_seen::Status::Words => Status::Words,
        report_seen::Status::ReadFault => Status::ReadFault,
        report_seen::Status::WriteFault => Status::WriteFault,
        report_seen::Status::Refused => Status::Refused,
    }
}

/// How a call ended that stopped.
pub fn status_of(stop: &DiagramStop<'_>) -> Status
    ensures { result ≡ status_of stop.now }
{
    match stop {
        DiagramStop::Log(stop) => view_status(report_seen::status_of(stop)),
        DiagramStop::Judged(stop) => report_words::status_of(stop),
    }
}

/// Writes the note of a call with these words that stopped. A note that fails changes nothing else.
pub fn write_stop<N: Sink>(notes: &mut N, words: &[String], stop: &DiagramStop<'_>)
    ensures { (Rose (N.faults notes.old) (N.faults notes.new) → ⊥) →
        N.taken notes.new ≡ append_known (N.taken notes.old) (stop_note (map string_bytes words.now) stop.now) }
{
    match stop {
        DiagramStop::Log(stop) => report_seen::write_stop(notes, words, stop),
        DiagramStop::Judged(stop) => report_words::write_stop(stop, notes),
    }
}
