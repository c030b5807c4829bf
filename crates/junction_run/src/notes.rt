// The notes.
ghost use Rattle.std.specs.Prelude.{◌≡◌, ◌++◌, ◌∷◌, [], List, codes};
ghost use Rattle.std.specs.Fmt.{decimal};
ghost use Rattle.std.specs.List.{flat_map};
ghost use Rattle.std.specs.Io.KnownBytes.{append_known};
ghost use Rattle.sig_io.specs.Outside.{Rose};
ghost use Rattle.junction_run.specs.Answer.{note_of};
ghost use Rattle.junction_run.specs.Notes.{load_note, play_note, stop_note};

use crate::reasons::{line_reason, reason};
use crate::stop::{LoadStop, PlayStop, Stop};
use itoa::Buffer;
use sig_io::{Sink, put_each};
use site_load::ReasonText;

// Writes a note of these pieces. One of at most 4,096 bytes is given to the sink whole, so that runs which share a standard
// error don't mix their notes. A fault changes nothing else.
fn write_pieces<N: Sink>(pieces: &[&[u8]], notes: &mut N)
    ensures { (Rose (N.faults notes.old) (N.faults notes.new) → ⊥) →
        N.taken notes.new ≡ append_known (N.taken notes.old) (flat_map (λ piece. piece.now) pieces.now) }
{
    let _fault = put_each(notes, pieces);
}

/// Writes the note of words that are no form.
pub fn write_words<N: Sink>(notes: &mut N)
    ensures { (Rose (N.faults notes.old) (N.faults notes.new) → ⊥) →
        N.taken notes.new ≡ append_known (N.taken notes.old) (note_of (codes "Words")) }
{
    write_pieces(&[b"junction: Words\n"], notes);
}

// Writes a note about a file.
fn write_about<'x, N: Sink>(word: &'x [u8], text: &'x [u8], notes: &mut N)
    ensures { (Rose (N.faults notes.old) (N.faults notes.new) → ⊥) →
        N.taken notes.new ≡ append_known (N.taken notes.old) (codes "junction: " ++ word.now ++ text.now) }
{
    write_pieces(&[b"junction: ", word, text], notes);
}

// Writes a refusal: a file, a line and a reason.
fn write_refusal<N: Sink>(word: &[u8], line: u32, told: &ReasonText<'_>, notes: &mut N)
    ensures { (Rose (N.faults notes.old) (N.faults notes.new) → ⊥) →
        N.taken notes.new ≡ append_known (N.taken notes.old)
        (codes "junction: " ++ word.now ++ codes ":" ++ decimal line ++ codes ": "
        ++ told.now.name.now ++ told.now.blank.now ++ told.now.first.now ++ told.now.gap.now ++ told.now.second.now ++ codes "\n") }
{
    let mut digits = Buffer::new();
    let head: &[u8] = b"junction: ";
    let colon: &[u8] = b":";
    let blank: &[u8] = b": ";
    let end: &[u8] = b"\n";
    let pieces: [&[u8]; 11] = [
        head,
        word,
        colon,
        digits.format(line).as_bytes(),
        blank,
        told.name,
        told.blank,
        told.first,
        told.gap,
        told.second,
        end,
    ];
    write_pieces(&pieces, notes);
}

/// Writes the note where loading stops. A note that fails changes nothing else.
pub(crate) fn write_load_stop<N: Sink>(stop: &LoadStop<'_>, notes: &mut N)
    ensures { (Rose (N.faults notes.old) (N.faults notes.new) → ⊥) →
        N.taken notes.new ≡ append_known (N.taken notes.old) (load_note stop.now) }
{
    match stop {
        LoadStop::Memory => write_pieces(&[b"junction: Memory\n"], notes),
        LoadStop::ReadFault(word) => write_about(word.as_bytes(), b": ReadFault\n", notes),
        LoadStop::Refused {
            word,
            line,
            reason: why,
        } => {
            let mut digits = Buffer::new();
            write_refusal(word.as_bytes(), *line, &reason(why, &mut digits), notes)
        }
        LoadStop::TooLong(word) => write_about(word.as_bytes(), b": TooLong\n", notes),
    }
}

// Writes the note where playing stops.
fn write_play_stop<N: Sink>(stop: &PlayStop<'_>, notes: &mut N)
    ensures { (Rose (N.faults notes.old) (N.faults notes.new) → ⊥) →
        N.taken notes.new ≡ append_known (N.taken notes.old) (play_note stop.now) }
{
    match stop {
        PlayStop::ReadFault(word) => write_about(word.as_bytes(), b": ReadFault\n", notes),
        PlayStop::WriteFault => write_pieces(&[b"junction: WriteFault\n"], notes),
        PlayStop::RefusedLine {
            word,
            line,
            reason: why,
        } => {
            let mut digits = Buffer::new();
            write_refusal(
                word.as_bytes(),
                *line,
                &line_reason(*why, &mut digits),
                notes,
            )
        }
    }
}

/// Writes the note of a stop. A note that fails changes nothing else.
pub fn write_stop<N: Sink>(stop: &Stop<'_>, notes: &mut N)
    ensures { (Rose (N.faults notes.old) (N.faults notes.new) → ⊥) →
        N.taken notes.new ≡ append_known (N.taken notes.old) (stop_note stop.now) }
{
    match stop {
        Stop::Load(stop) => write_load_stop(stop, notes),
        Stop::Play(stop) => write_play_stop(stop, notes),
    }
}
