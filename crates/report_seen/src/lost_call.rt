// The call that tells lost starts.
ghost use Rattle.std.specs.Prelude.{◌≡◌, ℕ, List, None, Err, IfErr, OnErr, length, map, string_bytes};
ghost use Rattle.std.specs.Option.{ForSome};
ghost use Rattle.sig_io.specs.Outside.{Rose};
ghost use Rattle.sig_io.specs.Seen.{seen};
ghost use Rattle.report_seen.specs.DiagramCall.{IsWritten};
ghost use Rattle.report_seen.specs.LostForm.{asked_in, form_of};
ghost use Rattle.report_seen.specs.LostCall.{IsAnswered, IsReported};
ghost use Rattle.report_seen.specs.LostText.{lost_text};

use crate::end::end;
use crate::lost::{LostStart, find_lost};
use crate::lost_text::put_lost_starts;
use crate::lost_words::{LostForm, lost_form};
use crate::stop::{Status, Stop, status_of, stop_of, write_stop};
use log_read::{Begin, LogRecords};
use sig_io::{Draft, Files, Sink};
use sig_types::ShortName;
use std::alloc::Global;

// Writes lost starts, of groups with these names, as a table or as lines.
fn write_lost<O: Sink>(
    csv: bool,
    names: &[ShortName],
    starts: &[LostStart],
    out: &mut O,
) -> Result<(), Stop>
    ensures written { IsWritten (lost_text csv names.now starts.now) result (O.taken out.old) (O.taken out.new) }
    ensures stop { IfErr result (λ stop. stop ≡ Stop.WriteFault) }
    ensures cause { OnErr result (Rose (O.faults out.old) (O.faults out.new)) }
{
    let mut draft = Draft::new();
    put_lost_starts(&mut draft, out, csv, names, starts);
    end(draft, out)
}

// Does what is asked for.
fn do_form<F: Files, O: Sink>(
    alloc: Global,
    form: &LostForm<'_>,
    files: &mut F,
    out: &mut O,
) -> Result<(), Stop>
    ensures answered { ForSome (F.told files.old) (λ file.
        IsAnswered (asked_in form.now) (file form.now.log.now) result (O.taken out.old) (O.taken out.new)) }
    ensures unwritten { IfErr result (λ stop. (stop ≡ Stop.WriteFault → ⊥) → out.new ≡ out.old) }
    ensures contents_stay { F.told files.new ≡ F.told files.old }
    ensures read { result ≡ Err Stop.ReadFault → Rose (F.faults files.old) (F.faults files.new) }
    ensures write { result ≡ Err Stop.WriteFault → Rose (O.faults out.old) (O.faults out.new) }
{
    let mut records = match LogRecords::open(alloc, files, form.log, Begin::Anywhere) {
        Ok(records) => records,
        Err(stop) => return Err(stop_of(stop)),
    };
    match find_lost(alloc, &mut records, form.from, form.to, files) {
        Ok(starts) => write_lost(form.csv, records.names(), &starts, out),
        Err(stop) => Err(stop),
    }
}

/// Does what the words `sums LOG [FROM TO] --lost [--csv]` say, and tells in a note why it stopped where it did.
///
/// It writes the starts of groups that were lost in all seconds of a log, or in those from FROM to TO, line by line, or as a table: a
/// start is lost in the first second in which it isn't asked for any more, behind seconds in which it was refused, while the group is red
/// or amber still. The log may begin with any second. It is read to its end before the first byte is written; nothing is written where
/// it is refused. No file is touched where the words are no form.
pub fn report_lost<F: Files, O: Sink, N: Sink>(
    alloc: Global,
    words: &[String],
    files: &mut F,
    out: &mut O,
    notes: &mut N,
) -> Status
    ensures reported { IsReported (map string_bytes words.now)
        (seen (F.told files.old) (F.told files.new) (F.faults files.old) (F.faults files.new))
        (seen (O.taken out.old) (O.taken out.new) (O.faults out.old) (O.faults out.new))
        (seen (N.taken notes.old) (N.taken notes.new) (N.faults notes.old) (N.faults notes.new))
        result }
    ensures unread { form_of (map string_bytes words.now) ≡ None → files.new ≡ files.old }
    ensures unwritten { (result ≡ Status.Done → ⊥) → (result ≡ Status.WriteFault → ⊥) → out.new ≡ out.old }
    ensures contents_stay { F.told files.new ≡ F.told files.old }
{
    let Some(form) = lost_form(words) else {
        write_stop(notes, words, &Stop::Words);
        return Status::Words;
    };
    match do_form(alloc, &form, files, out) {
        Ok(()) => Status::Done,
        Err(stop) => {
            write_stop(notes, words, &stop);
            status_of(&stop)
        }
    }
}
