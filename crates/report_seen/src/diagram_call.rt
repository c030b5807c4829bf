// The top call.
ghost use Rattle.std.specs.Prelude.{◌≡◌, ◌+◌, ◌*◌, ◌^◌, ◌<◌, ◌≤◌, ◌++◌, Option, Err, IfErr, OnErr, ◌⊎◌, map, string_bytes};
ghost use Rattle.std.specs.Option.{ForSome};
ghost use Rattle.sig_io.specs.Draft.{Puts};
ghost use Rattle.sig_io.specs.Outside.{Rose};
ghost use Rattle.sig_io.specs.Seen.{seen};
ghost use Rattle.log_svg.specs.Diagram.{IsShowable, diagram_text};
ghost use Rattle.log_svg.specs.LookIn.{look_in};
ghost use Rattle.log_svg.specs.Words.{IsLook};
ghost use Rattle.log_svg.specs.ShownIn.{shown_in};
ghost use Rattle.report_seen.specs.Asked.{IsInOrder, asked_in};
ghost use Rattle.report_seen.specs.DiagramCall.{IsAnswered, IsReported, IsWritten, usage_text, version_text};
ghost use Rattle.report_seen.specs.DiagramForm.{form_of};
ghost use Rattle.report_seen.specs.Letters.{letters_text};

use crate::diagram_form::{Form, form_of};
use crate::end::end;
use crate::gathering::gather;
use crate::letters::put_text;
use crate::named::{FormName, form_words};
use crate::stop::{Status, Stop, status_of, write_stop};
use log_svg::{Diagram, Look, put_diagram};
use sig_io::{Draft, Files, Sink, put_version};
use std::alloc::Global;

// Puts how it is called.
#[tactic(auto, unfolding(crate::specs::DiagramCall::usage_text))]
fn put_usage<O: Sink>(draft: &mut Draft, sink: &mut O)
    ensures { Puts O.taken O.faults draft.old draft.new sink.old sink.new usage_text }
{
    draft.put(sink, form_words(FormName::Diagram));
    draft.put(
        sink,
        b"\n                                 an SVG signal timing diagram of these seconds, at most 3600, in strips of N (120); second 1 is at HH:MM:SS\n",
    );
    draft.put(sink, form_words(FormName::Text));
    draft.put(sink, b"      the same as characters\n");
    draft.put(sink, form_words(FormName::Sums));
    draft.put(
        sink,
        b"\n                                 what groups, stages, refusals, faults and detectors add up to, in parts of so many seconds\n",
    );
    draft.put(
        sink,
        b"log_report compare LOG LOG       where two logs differ first, and what both add up to\n",
    );
    draft.put(
        sink,
        b"log_report breaches LOG PUA TIMES INTERGREENS [--amber-tolerance N] [--csv]\n                                 each breach of the rules by any controller, in words or as a table\n",
    );
    draft.put(
        sink,
        b"log_report protocol LOG PUA TIMES INTERGREENS [--csv]\n                                 what came in the log of any controller, beside what the tables say\n",
    );
    draft.put(
        sink,
        b"log_report refusals LOG PUA TIMES INTERGREENS [FROM TO] [--csv]\n                                 why each command and each turn was refused, in numbers\n",
    );
    draft.put(
        sink,
        b"log_report --help | --version    this text; the version\n",
    );
}

// Writes how it is called.
fn write_usage<O: Sink>(out: &mut O) -> Result<(), Stop>
    ensures written { IsWritten usage_text result (O.taken out.old) (O.taken out.new) }
    ensures stop { IfErr result (λ stop. stop ≡ Stop.WriteFault) }
    ensures cause { OnErr result (Rose (O.faults out.old) (O.faults out.new)) }
{
    let mut draft = Draft::new();
    put_usage(&mut draft, out);
    end(draft, out)
}

// Writes the version.
fn write_version<O: Sink>(out: &mut O) -> Result<(), Stop>
    ensures written { IsWritten version_text result (O.taken out.old) (O.taken out.new) }
    ensures stop { IfErr result (λ stop. stop ≡ Stop.WriteFault) }
    ensures cause { OnErr result (Rose (O.faults out.old) (O.faults out.new)) }
{
    let mut draft = Draft::new();
    put_version(b"log_report", &mut draft, out);
    end(draft, out)
}

/// Writes a diagram.
pub fn write_diagram<O: Sink>(diagram: &Diagram, look: Look<'_>, out: &mut O) -> Result<(), Stop>
    requires diagram { IsShowable (shown_in diagram.now) }
    requires look { IsLook (look_in look) }
    ensures written { IsWritten (diagram_text (shown_in diagram.now) (look_in look.entry)) result (O.taken out.old) (O.taken out.new) }
    ensures stop { IfErr result (λ stop. stop ≡ Stop.WriteFault) }
    ensures cause { OnErr result (Rose (O.faults out.old) (O.faults out.new)) }
{
    let mut draft = Draft::new();
    put_diagram(&mut draft, out, diagram, look);
    end(draft, out)
}

// Writes a diagram of characters.
fn write_letters<O: Sink>(diagram: &Diagram, out: &mut O) -> Result<(), Stop>
    requires { IsShowable (shown_in diagram.now) }
    ensures written { IsWritten (letters_text (shown_in diagram.now)) result (O.taken out.old) (O.taken out.new) }
    ensures stop { IfErr result (λ stop. stop ≡ Stop.WriteFault) }
    ensures cause { OnErr result (Rose (O.faults out.old) (O.faults out.new)) }
{
    let mut draft = Draft::new();
    put_text(&mut draft, out, diagram);
    end(draft, out)
}

// Does what is asked for.
fn do_form<F: Files, O: Sink>(
    alloc: Global,
    form: Form<'_>,
    files: &mut F,
    out: &mut O,
) -> Result<(), Stop>
    requires { IsInOrder form }
    ensures answered { ForSome (F.told files.old) (λ file.
        IsAnswered (asked_in form.entry) file result (O.taken out.old) (O.taken out.new)) }
    ensures unwritten { IfErr result (λ stop. (stop ≡ Stop.WriteFault → ⊥) → out.new ≡ out.old) }
    ensures contents_stay { F.told files.new ≡ F.told files.old }
    ensures read { result ≡ Err Stop.ReadFault → Rose (F.faults files.old) (F.faults files.new) }
    ensures write { result ≡ Err Stop.WriteFault → Rose (O.faults out.old) (O.faults out.new) }
{
    match form {
        Form::Help => write_usage(out),
        Form::Version => write_version(out),
        Form::Diagram(log, window, look) => match gather(alloc, files, log, window) {
            Ok(diagram) => write_diagram(&diagram, look, out),
            Err(stop) => Err(stop),
        },
        Form::Text(log, window) => match gather(alloc, files, log, window) {
            Ok(diagram) => write_letters(&diagram, out),
            Err(stop) => Err(stop),
        },
    }
}

/// Does what the words of the command line after the program's name say, and tells in a note why it stopped where it did.
///
/// - `diagram LOG FROM TO` writes an SVG signal timing diagram of 1 to 3,600 seconds of a log, with `--strip N` in strips of N
///   seconds, with `--title TEXT` with a title, and with `--begin HH:MM:SS` with the time of the day, at which second 1 begins.
/// - `text LOG FROM TO` writes the same as characters.
/// - `--help` and `--version` write how it is called, and the version.
///
/// A log is read to its end before the first byte is written. Nothing is written where it is refused, or ends before TO. No file is
/// touched where the words are no form.
pub fn report<F: Files, O: Sink, N: Sink>(
    alloc: Global,
    words: &[String],
    files: &mut F,
    out: &mut O,
    notes: &mut N,
) -> Status
    ensures reported { IsReported (map string_bytes words.now)
        (seen (F.told files.old) (F.told files.new) (F.faults files.old) (F.faults files.new))
        (seen (O.taken out.old) (O.taken out.new) (O.faults out.old) (O.faults out.new))
        (seen (N.taken notes.old) (N.taken notes.new) (N.faults notes.old) (N.faults notes.new))
        result }
    ensures unread { IfErr (form_of (map string_bytes words.now)) (λ stop. files.new ≡ files.old) }
    ensures unwritten { (result ≡ Status.Done → ⊥) → (result ≡ Status.WriteFault → ⊥) → out.new ≡ out.old }
    ensures contents_stay { F.told files.new ≡ F.told files.old }
{
    let form = match form_of(words) {
        Ok(form) => form,
        Err(stop) => {
            write_stop(notes, words, &stop);
            return status_of(&stop);
        }
    };
    match do_form(alloc, form, files, out) {
        Ok(()) => Status::Done,
        Err(stop) => {
            write_stop(notes, words, &stop);
            status_of(&stop)
        }
    }
}
