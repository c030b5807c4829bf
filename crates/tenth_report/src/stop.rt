// Why a call that judges a record stopped, and the note that tells it.
ghost use Rattle.std.specs.Prelude.{◌≡◌, ◌++◌, ◌∷◌, [], List, codes};
ghost use Rattle.std.specs.Fmt.{decimal};
ghost use Rattle.std.specs.List.{flat_map};
ghost use Rattle.std.specs.Io.KnownBytes.{append_known};
ghost use Rattle.sig_io.specs.Outside.{Rose};
ghost use Rattle.tenth_report.specs.Stops.{IsStopOf, status_of, stop_note, why_name};

use itoa::Buffer;
use report_words::{JudgeStop, Status, status_of, write_stop};
use sig_io::{Sink, put_each};
use tenth_records::{TenthStop, TenthWhy};

/// Why a call ended before all was done. A file goes by its word, and its lines count from 1.
#[derive(Drop)]
pub enum RecordStop<'a> {
    /// What stops a call that judges a log.
    Judge(JudgeStop<'a>),
    /// A line of the record is refused.
    RefusedEntry {
        word: &'a str,
        line: u32,
        why: TenthWhy,
    },
}

/// What a stop of the reader means, of a record by this word.
pub(crate) fn stop_of<'a>(word: &'a str, stop: TenthStop) -> RecordStop<'a>
    ensures { IsStopOf word.now stop result }
{
    match stop {
        TenthStop::Memory => RecordStop::Judge(JudgeStop::Memory),
        TenthStop::Fault => RecordStop::Judge(JudgeStop::ReadFault(word)),
        TenthStop::At { line, why } => RecordStop::RefusedEntry { word, line, why },
    }
}

/// How a call ended that stopped.
pub(crate) fn ended_with(stop: &RecordStop<'_>) -> Status
    ensures { result ≡ status_of stop.now }
{
    match stop {
        RecordStop::Judge(stop) => status_of(stop),
        RecordStop::RefusedEntry { .. } => Status::Refused,
    }
}

// The name of a reason.
fn why_name(why: TenthWhy) -> &'static [u8]
    ensures { result.now ≡ why_name why }
{
    match why {
        TenthWhy::LineTooLong => b"LineTooLong",
        TenthWhy::Header => b"Header",
        TenthWhy::AfterEnd => b"AfterEnd",
        TenthWhy::Time => b"Time",
        TenthWhy::Order => b"Order",
        TenthWhy::TooManySeconds => b"TooManySeconds",
        TenthWhy::Aspects => b"Aspects",
        TenthWhy::MissingEnd => b"MissingEnd",
    }
}

// Writes a note of these pieces. A fault changes nothing else.
fn write_pieces<N: Sink>(pieces: &[&[u8]], notes: &mut N)
    ensures { (Rose (N.faults notes.old) (N.faults notes.new) → ⊥) →
        N.taken notes.new ≡ append_known (N.taken notes.old) (flat_map (λ piece. piece.now) pieces.now) }
{
    let _fault = put_each(notes, pieces);
}

// Writes that a line is refused: a file, a line and a reason.
fn write_refusal<'x, N: Sink>(word: &'x [u8], line: u32, name: &'x [u8], notes: &mut N)
    ensures { (Rose (N.faults notes.old) (N.faults notes.new) → ⊥) →
        N.taken notes.new ≡ append_known (N.taken notes.old)
        (codes "log_report: " ++ word.now ++ codes ":" ++ decimal line ++ codes ": " ++ name.now ++ codes "\n") }
{
    let mut digits = Buffer::new();
    let head: &[u8] = b"log_report: ";
    let colon: &[u8] = b":";
    let blank: &[u8] = b": ";
    let end: &[u8] = b"\n";
    let pieces: [&[u8]; 7] = [
        head,
        word,
        colon,
        digits.format(line).as_bytes(),
        blank,
        name,
        end,
    ];
    write_pieces(&pieces, notes);
}

/// Writes the note of a call that stopped: one line that names the file, and the line and the reason where there are some. A note
/// that fails changes nothing else.
pub(crate) fn write_note<N: Sink>(stop: &RecordStop<'_>, notes: &mut N)
    ensures { (Rose (N.faults notes.old) (N.faults notes.new) → ⊥) →
        N.taken notes.new ≡ append_known (N.taken notes.old) (stop_note stop.now) }
{
    match stop {
        RecordStop::Judge(stop) => write_stop(stop, notes),
        RecordStop::RefusedEntry { word, line, why } => {
            write_refusal(word.as_bytes(), *line, why_name(*why), notes)
        }
    }
}
