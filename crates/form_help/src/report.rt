// The forms of `log_report`.
ghost use Rattle.std.specs.Prelude.{◌≡◌};
ghost use Rattle.form_help.specs.Report.{report_form, report_more, report_line};

/// A form of `log_report`, by its first word.
#[derive(Clone, Copy)]
pub enum ReportForm {
    /// `diagram`.
    Diagram,
    /// `text`.
    Text,
    /// `sums`.
    Sums,
    /// `compare`.
    Compare,
    /// `breaches`.
    Breaches,
    /// `protocol`.
    Protocol,
    /// `refusals`.
    Refusals,
}

/// The form with this first word; None where there is no such form.
pub fn report_form(word: &str) -> Option<ReportForm>
    ensures { result ≡ report_form word.now }
{
    if word == "diagram" {
        Some(ReportForm::Diagram)
    } else if word == "text" {
        Some(ReportForm::Text)
    } else if word == "sums" {
        Some(ReportForm::Sums)
    } else if word == "compare" {
        Some(ReportForm::Compare)
    } else if word == "breaches" {
        Some(ReportForm::Breaches)
    } else if word == "protocol" {
        Some(ReportForm::Protocol)
    } else if word == "refusals" {
        Some(ReportForm::Refusals)
    } else {
        None
    }
}

/// How a form is written.
pub fn report_line(form: ReportForm) -> &'static [u8]
    ensures { result.now ≡ report_line form }
{
    match form {
        ReportForm::Diagram =>
            b"log_report diagram LOG FROM TO [--site PUA TIMES INTERGREENS] [--strip N] [--title TEXT] [--begin HH:MM:SS]",
        ReportForm::Text => b"log_report text LOG FROM TO",
        ReportForm::Sums =>
            b"log_report sums LOG [FROM TO] ([--each SECONDS] [--serves DETECTORS:GROUP] | --lost) [--csv]",
        ReportForm::Compare => b"log_report compare LOG LOG",
        ReportForm::Breaches =>
            b"log_report breaches LOG PUA TIMES INTERGREENS [--amber-tolerance N] [--csv]",
        ReportForm::Protocol => b"log_report protocol LOG PUA TIMES INTERGREENS [--csv]",
        ReportForm::Refusals => b"log_report refusals LOG PUA TIMES INTERGREENS [FROM TO] [--csv]",
    }
}

/// What the words of a form say, a line each, with LF.
pub fn report_more(form: ReportForm) -> &'static [u8]
    ensures { result.now ≡ report_more form }
{
    match form {
        ReportForm::Diagram =>
            b"  an SVG signal timing diagram of these seconds of the log, at most 3600
  --site PUA TIMES INTERGREENS  names of stages and minimum greens of the junction's plan and tables
  --strip N         in strips of so many seconds, from 30 to 600; else 120
  --title TEXT      a title, of 1 to 80 bytes without control characters
  --begin HH:MM:SS  second 1 is at this time of the day, up to 23:59:59
  the options stand in this order
",
        ReportForm::Text => b"  these seconds of the log as characters, at most 3600
",
        ReportForm::Sums =>
            b"  what groups, stages, refusals, faults and detectors of the log, or of these seconds, add up to
  --each SECONDS            for each part of so many seconds, from 60 to 604801
  --serves DETECTORS:GROUP  what these detectors tell of the waits for the group
  --lost                    each start that was asked for, refused, and then asked for no more, in their place
  --csv                     as a table
",
        ReportForm::Compare => b"  where two logs differ first, and what both add up to
",
        ReportForm::Breaches => b"  each breach of the rules in the log of any controller, in words
  --amber-tolerance N  ambers may be so many seconds longer or shorter
  --csv                as a table
  PUA, TIMES, INTERGREENS: the plan and the tables of the junction, as for `junction run`
  RECORD TIMES INTERGREENS in their place: a record in tenths of a second, by tables with one decimal
",
        ReportForm::Protocol =>
            b"  what came in the log of any controller, beside what the tables say
  --csv  as a table
  PUA, TIMES, INTERGREENS: the plan and the tables of the junction, as for `junction run`
  RECORD TIMES INTERGREENS in their place: a record in tenths of a second, by tables with one decimal
",
        ReportForm::Refusals =>
            b"  why each command and each turn of the log, or of these seconds, was refused, in numbers
  --csv  as a table
  PUA, TIMES, INTERGREENS: the plan and the tables of the junction, as for `junction run`
",
    }
}
