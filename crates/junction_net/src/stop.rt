// Why several junctions are not run, or what they answered is not written.
ghost use Rattle.std.specs.Prelude.{◌≡◌, ◌++◌, codes};
ghost use Rattle.std.specs.Io.KnownBytes.{append_known};
ghost use Rattle.sig_io.specs.Outside.{Rose};
ghost use Rattle.junction_run.specs.Answer.{line_note};
ghost use Rattle.junction_net.specs.Net.{list_reason};
ghost use Rattle.junction_net.specs.Stop.{stop_note, stop_status};

use crate::load::Unread;
use crate::rows::ListWhy;
use itoa::Buffer;
use junction_run::Status;
use sig_io::{Sink, put_each};

/// Why several junctions are not run, or what they answered is not written. A file goes by its word or its name in the list.
#[derive(Clone, Copy)]
pub(crate) enum NetStop<'a> {
    /// Memory was wanted, or a file could not be read.
    Unread(Unread<'a>),
    /// The list is refused at a line, counted from 1. Line 0 is the whole list.
    Refused {
        word: &'a str,
        line: u32,
        why: ListWhy,
    },
    /// The text could not be written.
    WriteFault,
}

/// The status of a stop.
pub(crate) fn stop_status(stop: &NetStop<'_>) -> Status
    ensures { result ≡ stop_status stop.now }
{
    match stop {
        NetStop::Unread(Unread::Memory) => Status::Memory,
        NetStop::Unread(Unread::Fault(_)) => Status::ReadFault,
        NetStop::Unread(Unread::TooLong(_)) => Status::TooLong,
        NetStop::Refused { .. } => Status::RefusedFile,
        NetStop::WriteFault => Status::WriteFault,
    }
}

// The reason of a refused list.
fn list_reason(why: ListWhy) -> &'static [u8]
    ensures { result.now ≡ list_reason why }
{
    match why {
        ListWhy::Row => b"Row",
        ListWhy::Limit => b"Limit",
    }
}

// Writes a note about a file. A note that fails changes nothing else.
fn write_about<'x, N: Sink>(word: &'x [u8], text: &'x [u8], notes: &mut N)
    ensures { (Rose (N.faults notes.old) (N.faults notes.new) → ⊥) →
        N.taken notes.new ≡ append_known (N.taken notes.old) (codes "junction: " ++ word.now ++ text.now) }
{
    let head: &[u8] = b"junction: ";
    let pieces: [&[u8]; 3] = [head, word, text];
    let _ = put_each(notes, &pieces);
}

// Writes the note of a refused list.
fn write_refusal<N: Sink>(word: &[u8], line: u32, reason: &[u8], notes: &mut N)
    ensures { (Rose (N.faults notes.old) (N.faults notes.new) → ⊥) →
        N.taken notes.new ≡ append_known (N.taken notes.old) (line_note word.now line reason.now) }
{
    let mut digits = Buffer::new();
    let head: &[u8] = b"junction: ";
    let colon: &[u8] = b":";
    let blank: &[u8] = b": ";
    let end: &[u8] = b"\n";
    let pieces: [&[u8]; 7] = [
        head,
        word,
        colon,
        digits.format(line).as_bytes(),
        blank,
        reason,
        end,
    ];
    let _ = put_each(notes, &pieces);
}

/// Writes the note of a stop. A note that fails changes nothing else.
pub(crate) fn write_stop<N: Sink>(stop: &NetStop<'_>, notes: &mut N)
    ensures note { (Rose (N.faults notes.old) (N.faults notes.new) → ⊥) →
        N.taken notes.new ≡ append_known (N.taken notes.old) (stop_note stop.now) }
{
    match stop {
        NetStop::Unread(Unread::Memory) => write_about(b"", b"Memory\n", notes),
        NetStop::Unread(Unread::Fault(name)) => {
            write_about(name.as_bytes(), b": ReadFault\n", notes)
        }
        NetStop::Unread(Unread::TooLong(name)) => {
            write_about(name.as_bytes(), b": TooLong\n", notes)
        }
        NetStop::Refused { word, line, why } => {
            write_refusal(word.as_bytes(), *line, list_reason(*why), notes)
        }
        NetStop::WriteFault => write_about(b"", b"WriteFault\n", notes),
    }
}
