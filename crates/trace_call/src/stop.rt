// Why a call ends before all was done, and how it ends.
ghost use Rattle.std.specs.Prelude.{◌≡◌, ◌++◌, codes};
ghost use Rattle.std.specs.List.{flat_map};
ghost use Rattle.std.specs.Io.KnownBytes.{append_known};
ghost use Rattle.sig_io.specs.Outside.{Rose};
ghost use Rattle.trace_call.specs.Notes.{nearest_text, status_of, stop_note};

use junction_run::{
    Status, Stop as RunStop, status_of as run_status, write_stop as write_run_stop,
};
use sig_io::{Sink, put_each};

/// Why a call ends before all was done.
#[derive(Drop)]
pub enum Stop<'a> {
    /// The words are no form.
    Words,
    /// A word names no value of the program. The name that is nearest to it, in lower case; no byte where the program has
    /// no value.
    NoName { word: &'a str, nearest: Vec<u8> },
    /// Loading, playing or writing stopped.
    Run(RunStop<'a>),
}

/// The status of a stop.
pub fn status_of(stop: &Stop<'_>) -> Status
    ensures { result ≡ status_of stop.now }
{
    match stop {
        Stop::Words => Status::Words,
        Stop::NoName { .. } => Status::Words,
        Stop::Run(stop) => run_status(stop),
    }
}

// Writes a note of these pieces. A fault changes nothing else.
fn write_pieces<N: Sink>(pieces: &[&[u8]], notes: &mut N)
    ensures { (Rose (N.faults notes.old) (N.faults notes.new) → ⊥) →
        N.taken notes.new ≡ append_known (N.taken notes.old) (flat_map (λ piece. piece.now) pieces.now) }
{
    let _fault = put_each(notes, pieces);
}

// Writes the note of words that are no form.
fn write_words<N: Sink>(notes: &mut N)
    ensures { (Rose (N.faults notes.old) (N.faults notes.new) → ⊥) →
        N.taken notes.new ≡ append_known (N.taken notes.old) (codes "junction_trace: Words\n") }
{
    write_pieces(&[b"junction_trace: Words\n"], notes);
}

// What stands before the nearest name.
fn before_nearest<'x>(nearest: &'x [u8]) -> &'x [u8]
    ensures { result.now ++ nearest.now ≡ nearest_text nearest.now }
{
    if nearest.is_empty() {
        b""
    } else {
        b", nearest "
    }
}

// Writes the note of a word that names no value.
fn write_no_name<'x, N: Sink>(word: &'x [u8], nearest: &'x [u8], notes: &mut N)
    ensures { (Rose (N.faults notes.old) (N.faults notes.new) → ⊥) →
        N.taken notes.new ≡ append_known (N.taken notes.old)
        (codes "junction_trace: " ++ word.now ++ codes ": NoName" ++ nearest_text nearest.now ++ codes "\n") }
{
    let head: &[u8] = b"junction_trace: ";
    let reason: &[u8] = b": NoName";
    let end: &[u8] = b"\n";
    let pieces: [&[u8]; 6] = [head, word, reason, before_nearest(nearest), nearest, end];
    write_pieces(&pieces, notes);
}

/// Writes the note of a stop. A note that fails changes nothing else.
pub fn write_stop<N: Sink>(stop: &Stop<'_>, notes: &mut N)
    ensures { (Rose (N.faults notes.old) (N.faults notes.new) → ⊥) →
        N.taken notes.new ≡ append_known (N.taken notes.old) (stop_note stop.now) }
{
    match stop {
        Stop::Words => write_words(notes),
        Stop::NoName { word, nearest } => {
            write_no_name(word.as_bytes(), nearest.as_slice(), notes)
        }
        Stop::Run(stop) => write_run_stop(stop, notes),
    }
}
