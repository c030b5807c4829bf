// The forms of `junction_trace`.
ghost use Rattle.std.specs.Prelude.{◌≡◌};
ghost use Rattle.form_help.specs.Trace.{trace_form, trace_more, trace_line};

/// A form of `junction_trace`, by its first word.
#[derive(Clone, Copy, PartialEq, Eq)]
pub enum TraceForm {
    /// `values`.
    Values,
    /// `how-ended`.
    HowEnded,
    /// `lines`.
    Lines,
    /// `second`.
    Second,
    /// `trace`.
    Trace,
}

/// The form with this first word; None where there is no such form.
pub fn trace_form(word: &str) -> Option<TraceForm>
    ensures { result ≡ trace_form word.now }
{
    if word == "values" {
        Some(TraceForm::Values)
    } else if word == "how-ended" {
        Some(TraceForm::HowEnded)
    } else if word == "lines" {
        Some(TraceForm::Lines)
    } else if word == "second" {
        Some(TraceForm::Second)
    } else if word == "trace" {
        Some(TraceForm::Trace)
    } else {
        None
    }
}

/// How a form is written.
pub fn trace_line(form: TraceForm) -> &'static [u8]
    ensures { result.now ≡ trace_line form }
{
    match form {
        TraceForm::Values =>
            b"junction_trace values PROGRAM PUA TIMES INTERGREENS DETECTORS [NAME ..] [--from N] [--to N]",
        TraceForm::HowEnded =>
            b"junction_trace how-ended PROGRAM PUA TIMES INTERGREENS DETECTORS [--csv]",
        TraceForm::Lines =>
            b"junction_trace lines PROGRAM PUA TIMES INTERGREENS DETECTORS [--csv | --lcov] [--add DETECTORS ..]",
        TraceForm::Second => b"junction_trace second PROGRAM PUA TIMES INTERGREENS DETECTORS N",
        TraceForm::Trace => b"junction_trace trace PROGRAM PUA TIMES INTERGREENS DETECTORS",
    }
}

/// What the words of a form say, a line each, with LF.
pub fn trace_more(form: TraceForm) -> &'static [u8]
    ensures { result.now ≡ trace_more form }
{
    match form {
        TraceForm::Values =>
            b"  a table of the program's variables, timers and cells after each second, as CSV
  NAME ..   the variables, timers, cells and arrays that are told; all where none is named
  --from N  the first second that is told, from 1 to 604800; else the first of all
  --to N    the last one; else the last of all. Both stand at the end, in this order
  PROGRAM, PUA, TIMES, INTERGREENS, DETECTORS: the files of `junction run`
",
        TraceForm::HowEnded =>
            b"  for each end of a stage the line of the command that ended it, in words
  --csv     as CSV
  PROGRAM, PUA, TIMES, INTERGREENS, DETECTORS: the files of `junction run`
",
        TraceForm::Lines => b"  how often its lines ran and its tests were answered, beside its text
  --csv     as CSV
  --lcov    as a tracefile for lcov; one of both, before any --add
  --add DETECTORS  adds the counts of one more run, with these detectors; any number of times
  PROGRAM, PUA, TIMES, INTERGREENS, DETECTORS: the files of `junction run`
",
        TraceForm::Second =>
            b"  the listing of one second: what ran, was read, tested, assigned and commanded, in order
  N         the second, from 1 to 604800
  PROGRAM, PUA, TIMES, INTERGREENS, DETECTORS: the files of `junction run`
",
        TraceForm::Trace => b"  what its TRACE statements print, a line for each call
  PROGRAM, PUA, TIMES, INTERGREENS, DETECTORS: the files of `junction run`
",
    }
}
