// The call.
ghost use Rattle.std.specs.Prelude.{◌≡◌, None, Err, IfErr, map, string_bytes};
ghost use Rattle.std.specs.Option.{ForSome};
ghost use Rattle.sig_io.specs.Outside.{Rose};
ghost use Rattle.sig_io.specs.Seen.{seen};
ghost use Rattle.report_seen.specs.CompareCall.{IsAnswered, IsReported, status_for};
ghost use Rattle.report_seen.specs.CompareForm.{asked_in, form_of};
ghost use Rattle.report_seen.specs.Loaded.{IsFault};

use crate::compare_form::{CompareForm, form_of};
use crate::loading::load;
use crate::telling::tell;
use report_words::{JudgeStop, Status, status_of, write_stop};
use sig_io::{Files, Sink};
use std::alloc::Global;

// Does what is asked for, and answers whether the logs differ.
fn do_form<'a, F: Files, O: Sink>(
    alloc: Global,
    form: &CompareForm<'a>,
    files: &mut F,
    out: &mut O,
) -> Result<bool, JudgeStop<'a>>
    ensures answered { ForSome (F.told files.old) (λ file.
        IsAnswered (asked_in form.now) file result (O.taken out.old) (O.taken out.new)) }
    ensures unwritten { IfErr result (λ stop. (stop ≡ JudgeStop.WriteFault → ⊥) → out.new ≡ out.old) }
    ensures contents_stay { F.told files.new ≡ F.told files.old }
    ensures read { IsFault result → Rose (F.faults files.old) (F.faults files.new) }
    ensures write { result ≡ Err JudgeStop.WriteFault → Rose (O.faults out.old) (O.faults out.new) }
{
    let one = match load(alloc, form.one, files) {
        Ok(one) => one,
        Err(stop) => return Err(stop),
    };
    match load(alloc, form.other, files) {
        Ok(other) => tell(alloc, form, &one, &other, out),
        Err(stop) => Err(stop),
    }
}

// How a call ended that was not stopped.
fn status_for(differ: bool) -> Status
    ensures { result ≡ status_for differ }
{
    if differ { Status::Broken } else { Status::Done }
}

/// Does what the words `compare LOG LOG` say, and tells in a note why it stopped where it did.
///
/// It writes where the two logs differ first, the first second whose records differ and what differs there, and what both add up
/// to, side by side. It ends with `Done` where they have the same records of the same groups, and with `Broken` where they differ.
/// The one log is read and judged, and then the other, before the first byte is written; nothing is written where one is refused.
/// No file is touched where the words are no form.
pub fn report_compare<F: Files, O: Sink, N: Sink>(
    alloc: Global,
    words: &[String],
    files: &mut F,
    out: &mut O,
    notes: &mut N,
) -> Status
    ensures reported { IsReported (map string_bytes words.now)
        (seen (F.told files.old) (F.told files.new) (F.faults files.old) (F.faults files.new))
        (seen (O.taken out.old) (O.taken out.new) (O.faults out.old) (O.faults out.new))
        (seen (N.taken notes.old) (N.taken notes.new) (N.faults notes.old) (N.faults notes.new))
        result }
    ensures unread { form_of (map string_bytes words.now) ≡ None → files.new ≡ files.old }
    ensures unwritten { (result ≡ Status.Done → ⊥) → (result ≡ Status.Broken → ⊥) → (result ≡ Status.WriteFault → ⊥) → out.new ≡ out.old }
    ensures contents_stay { F.told files.new ≡ F.told files.old }
{
    let Some(form) = form_of(words) else {
        write_stop(&JudgeStop::Words, notes);
        return Status::Words;
    };
    match do_form(alloc, &form, files, out) {
        Ok(differ) => status_for(differ),
        Err(stop) => {
            write_stop(&stop, notes);
            status_of(&stop)
        }
    }
}
