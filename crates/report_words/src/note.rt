// The note of a call that stopped.
ghost use Rattle.std.specs.Prelude.{◌≡◌, ◌++◌, ◌∷◌, [], List, codes};
ghost use Rattle.std.specs.Fmt.{decimal};
ghost use Rattle.std.specs.List.{flat_map};
ghost use Rattle.std.specs.Io.KnownBytes.{append_known};
ghost use Rattle.sig_io.specs.Outside.{Rose};
ghost use Rattle.report_words.specs.Notes.{site_note, stop_note};

use crate::stop::JudgeStop;
use itoa::Buffer;
use log_read::why_name;
use sig_io::{Sink, put_each};
use site_load::{ReasonText, SiteStop, name_alone, reason_told};

// Writes a note of these pieces. One of at most 4,096 bytes is given to the sink whole. A fault changes nothing else.
fn write_pieces<N: Sink>(pieces: &[&[u8]], notes: &mut N)
    ensures { (Rose (N.faults notes.old) (N.faults notes.new) → ⊥) →
        N.taken notes.new ≡ append_known (N.taken notes.old) (flat_map (λ piece. piece.now) pieces.now) }
{
    let _fault = put_each(notes, pieces);
}

// Writes a note about a file.
fn write_about<'x, N: Sink>(word: &'x [u8], text: &'x [u8], notes: &mut N)
    ensures { (Rose (N.faults notes.old) (N.faults notes.new) → ⊥) →
        N.taken notes.new ≡ append_known (N.taken notes.old) (codes "log_report: " ++ word.now ++ text.now) }
{
    write_pieces(&[b"log_report: ", word, text], notes);
}

// Writes a refusal: a file, a line and a reason.
fn write_refusal<N: Sink>(word: &[u8], line: u32, told: &ReasonText<'_>, notes: &mut N)
    ensures { (Rose (N.faults notes.old) (N.faults notes.new) → ⊥) →
        N.taken notes.new ≡ append_known (N.taken notes.old)
        (codes "log_report: " ++ word.now ++ codes ":" ++ decimal line ++ codes ": "
        ++ told.now.name.now ++ told.now.blank.now ++ told.now.first.now ++ told.now.gap.now ++ told.now.second.now ++ codes "\n") }
{
    let mut digits = Buffer::new();
    let head: &[u8] = b"log_report: ";
    let colon: &[u8] = b":";
    let blank: &[u8] = b": ";
    let end: &[u8] = b"\n";
    let pieces: [&[u8]; 11] = [
        head,
        word,
        colon,
        digits.format(line).as_bytes(),
        blank,
        told.name,
        told.blank,
        told.first,
        told.gap,
        told.second,
        end,
    ];
    write_pieces(&pieces, notes);
}

// Writes the note of a site that was not taken.
fn write_site_stop<N: Sink>(stop: &SiteStop<'_>, notes: &mut N)
    ensures { (Rose (N.faults notes.old) (N.faults notes.new) → ⊥) →
        N.taken notes.new ≡ append_known (N.taken notes.old) (site_note stop.now) }
{
    match stop {
        SiteStop::Memory => write_pieces(&[b"log_report: Memory\n"], notes),
        SiteStop::ReadFault(word) => write_about(word.as_bytes(), b": ReadFault\n", notes),
        SiteStop::Refused { word, line, reason } => {
            let mut digits = Buffer::new();
            write_refusal(
                word.as_bytes(),
                *line,
                &reason_told(reason, &mut digits),
                notes,
            )
        }
        SiteStop::TooLong(word) => write_about(word.as_bytes(), b": TooLong\n", notes),
    }
}

/// Writes the note of a call that stopped: one line that names the file, and the line and the reason where there are some. A note
/// that fails changes nothing else.
pub fn write_stop<N: Sink>(stop: &JudgeStop<'_>, notes: &mut N)
    ensures { (Rose (N.faults notes.old) (N.faults notes.new) → ⊥) →
        N.taken notes.new ≡ append_known (N.taken notes.old) (stop_note stop.now) }
{
    match stop {
        JudgeStop::Words => write_pieces(&[b"log_report: Words\n"], notes),
        JudgeStop::Memory => write_pieces(&[b"log_report: Memory\n"], notes),
        JudgeStop::Site(stop) => write_site_stop(stop, notes),
        JudgeStop::ReadFault(word) => write_about(word.as_bytes(), b": ReadFault\n", notes),
        JudgeStop::RefusedLine { word, line, why } => write_refusal(
            word.as_bytes(),
            *line,
            &name_alone(why_name(*why)),
            notes,
        ),
        JudgeStop::WriteFault => write_pieces(&[b"log_report: WriteFault\n"], notes),
    }
}
