// Why a call ended before all was done, and how it ended.
ghost use Rattle.std.specs.Prelude.{◌≡◌, ◌++◌, List, Option, codes, map, string_bytes};
ghost use Rattle.std.specs.Fmt.{decimal};
ghost use Rattle.std.specs.Io.KnownBytes.{append_known};
ghost use Rattle.std.specs.List.{flat_map};
ghost use Rattle.sig_io.specs.Outside.{Rose};
ghost use Rattle.report_seen.specs.Notes.{exit_number, note_of, right_words, status_of, stop_note, stop_of};

use crate::named::{FormName, form_begun, form_limits, form_words, log_named};
use itoa::Buffer;
use log_read::{LogStop, LogWhy, why_name};
use sig_io::{Sink, put_each};

/// Why a call ended before all was done.
#[derive(Clone, Copy)]
pub enum Stop {
    /// Memory was wanted and could not be had.
    Memory,
    /// The words are no form of a call.
    Words,
    /// More than 3,600 seconds are asked for at once.
    TooManySeconds,
    /// The log could not be read.
    ReadFault,
    /// Standard output could not be written.
    WriteFault,
    /// A line of the log, counted from 1, is refused.
    Line { line: u32, why: LogWhy },
    /// The log ends before the last second that is asked for, with this one.
    LogEnds(u32),
}

/// Where reading a log stops, as a stop of the call.
pub fn stop_of(stop: LogStop) -> Stop
    ensures { result ≡ stop_of stop }
{
    match stop {
        LogStop::Memory => Stop::Memory,
        LogStop::Fault => Stop::ReadFault,
        LogStop::At { line, why } => Stop::Line { line, why },
    }
}

/// How a call ended.
#[derive(Clone, Copy, Debug)]
pub enum Status {
    /// All was done.
    Done,
    /// Memory was wanted and could not be had.
    Memory,
    /// The words are no form of a call, or ask for too many seconds at once. Nothing was read.
    Words,
    /// The log could not be read.
    ReadFault,
    /// Standard output could not be written.
    WriteFault,
    /// The log is not accepted, or ends too early.
    Refused,
}

/// The exit status: 0 to 5, in the order of the variants.
pub fn exit_status(status: Status) -> u8
    ensures { result ≡ exit_number status }
{
    match status {
        Status::Done => 0,
        Status::Memory => 1,
        Status::Words => 2,
        Status::ReadFault => 3,
        Status::WriteFault => 4,
        Status::Refused => 5,
    }
}

/// How a call ended that stopped.
pub fn status_of(stop: &Stop) -> Status
    ensures { result ≡ status_of stop.now }
{
    match stop {
        Stop::Memory => Status::Memory,
        Stop::Words => Status::Words,
        Stop::TooManySeconds => Status::Words,
        Stop::ReadFault => Status::ReadFault,
        Stop::WriteFault => Status::WriteFault,
        Stop::Line { line: _, why: _ } => Status::Refused,
        Stop::LogEnds(_) => Status::Refused,
    }
}

// Writes a note of these pieces. One of at most 4,096 bytes is given to the sink whole. A fault changes nothing else.
fn write_pieces<N: Sink>(notes: &mut N, pieces: &[&[u8]])
    ensures { (Rose (N.faults notes.old) (N.faults notes.new) → ⊥) →
        N.taken notes.new ≡ append_known (N.taken notes.old) (flat_map (λ piece. piece.now) pieces.now) }
{
    let _fault = put_each(notes, pieces);
}

// Writes the note on words that are no form.
fn write_words<N: Sink>(notes: &mut N, form: Option<FormName>)
    ensures { (Rose (N.faults notes.old) (N.faults notes.new) → ⊥) →
        N.taken notes.new ≡ append_known (N.taken notes.old) (note_of (codes "Words: " ++ right_words form)) }
{
    match form {
        Some(form) => write_pieces(
            notes,
            &[
                b"log_report: Words: ",
                form_words(form),
                form_limits(form),
                b", or --help\n",
            ],
        ),
        None => write_pieces(notes, &[b"log_report: Words: see log_report --help\n"]),
    }
}

// Writes the note on a log that could not be read.
fn write_unread<N: Sink>(notes: &mut N, log: &str)
    ensures { (Rose (N.faults notes.old) (N.faults notes.new) → ⊥) →
        N.taken notes.new ≡ append_known (N.taken notes.old) (note_of (log.now ++ codes ": ReadFault")) }
{
    write_pieces(notes, &[b"log_report: ", log.as_bytes(), b": ReadFault\n"]);
}

// Writes the note on a log that ends with this second.
fn write_end<N: Sink>(notes: &mut N, log: &str, last: u32)
    ensures { (Rose (N.faults notes.old) (N.faults notes.new) → ⊥) →
        N.taken notes.new ≡ append_known (N.taken notes.old) (note_of (log.now ++ codes ": LogEnds " ++ decimal last)) }
{
    let mut digits = Buffer::new();
    write_pieces(
        notes,
        &[
            b"log_report: ",
            log.as_bytes(),
            b": LogEnds ",
            digits.format(last).as_bytes(),
            b"\n",
        ],
    );
}

// Writes the note on a line of a log that is refused for a reason of this name.
fn write_line<N: Sink>(notes: &mut N, log: &str, line: u32, reason: &[u8])
    ensures { (Rose (N.faults notes.old) (N.faults notes.new) → ⊥) →
        N.taken notes.new ≡ append_known (N.taken notes.old)
        (note_of (log.now ++ codes ":" ++ decimal line ++ codes ": " ++ reason.now)) }
{
    let mut digits = Buffer::new();
    write_pieces(
        notes,
        &[
            b"log_report: ",
            log.as_bytes(),
            b":",
            digits.format(line).as_bytes(),
            b": ",
            reason,
            b"\n",
        ],
    );
}

/// Writes a note of one line that tells why a call with these words stopped: with the log where it wasn't read to its end, and with
/// what would be words of a form where these are none. Where the sink for notes fails, less may be written.
#[tactic(auto, unfolding(crate::specs::Notes::stop_note))]
pub fn write_stop<N: Sink>(notes: &mut N, words: &[String], stop: &Stop)
    ensures { (Rose (N.faults notes.old) (N.faults notes.new) → ⊥) →
        N.taken notes.new ≡ append_known (N.taken notes.old) (stop_note (map string_bytes words.now) stop.now) }
{
    match *stop {
        Stop::Memory => write_pieces(notes, &[b"log_report: Memory\n"]),
        Stop::Words => write_words(notes, form_begun(words)),
        Stop::TooManySeconds => write_pieces(notes, &[b"log_report: TooManySeconds 3600\n"]),
        Stop::ReadFault => write_unread(notes, log_named(words)),
        Stop::WriteFault => write_pieces(notes, &[b"log_report: WriteFault\n"]),
        Stop::Line { line, why } => write_line(notes, log_named(words), line, why_name(why)),
        Stop::LogEnds(last) => write_end(notes, log_named(words), last),
    }
}
