// The words of a call.
ghost use Rattle.std.specs.Prelude.{◌≡◌, None, Some, MatchOption, map, string_bytes};
ghost use Rattle.trace_call.specs.Form.{
  are_added,
  cut_option,
  ends_form,
  form_of,
  lines_form,
  lines_in,
  lone_form,
  run_form,
  second_form,
  style_of,
  trace_form,
  values_form,
};
ghost use Rattle.trace_call.specs.FormWords.{asked_in, run_named};

use junction_run::SiteWords;
use sig_types::MOST_LINES;
use sig_types::text::number;

/// The names of the files of a run.
#[derive(Clone, Copy)]
pub struct RunNames<'a> {
    pub program: &'a str,
    pub site: SiteWords<'a>,
    pub detectors: &'a str,
}

/// Some seconds of a run.
#[derive(Clone, Copy)]
pub struct Window {
    /// The first second, from 1.
    pub from: u32,
    /// The last second.
    pub to: u32,
}

/// How counts of lines are written.
#[derive(Clone, Copy)]
pub enum Style {
    /// Beside the text of the program.
    Table,
    /// As CSV.
    Csv,
    /// As a tracefile of LCOV.
    Lcov,
}

/// What the words ask for.
#[derive(Clone, Copy)]
pub enum Form<'a> {
    /// How it is called.
    Help,
    /// Which version it is.
    Version,
    /// The values of these names, or of all, in these seconds.
    Values {
        run: RunNames<'a>,
        names: &'a [String],
        window: Window,
    },
    /// The ends of stages, in a table or in words.
    HowEnded {
        run: RunNames<'a>,
        csv: bool,
    },
    /// The counts of the lines, in this style, of the run and of those with the detector files behind each `--add` of the
    /// added words.
    Lines {
        run: RunNames<'a>,
        style: Style,
        added: &'a [String],
    },
    /// The listing of this second, from 1.
    Second {
        run: RunNames<'a>,
        second: u32,
    },
    /// What the TRACE statements print.
    Trace(RunNames<'a>),
}

// The words before an option that stands behind them with its number, and the number; where it doesn't stand there
// all words, and another number. None where the word behind it is no such number.
fn cut_option<'a>(words: &'a [String], option: &str, other: u32) -> Option<(&'a [String], u32)>
    ensures { MatchOption result (cut_option (map string_bytes words.now) option.now other ≡ None)
        (λ cut. cut_option (map string_bytes words.now) option.now other
        ≡ Some (record { words = map string_bytes cut.0.now; number = cut.1 })) }
{
    if words.len() < 2 {
        return Some((words, other));
    }
    let at = words.len() - 2;
    if words[at].as_str() != option {
        return Some((words, other));
    }
    let Some(value) = number(words[at + 1].as_bytes(), 1, MOST_LINES) else {
        return None;
    };
    let (front, _) = words.split_at(at);
    Some((front, value))
}

// The style that a word names.
fn style_of(word: &str) -> Option<Style>
    ensures { result ≡ style_of word.now }
{
    if word == "--csv" {
        Some(Style::Csv)
    } else if word == "--lcov" {
        Some(Style::Lcov)
    } else {
        None
    }
}

// NAME .. --from N --to N
fn values_form<'a>(run: RunNames<'a>, words: &'a [String]) -> Option<Form<'a>>
    ensures { MatchOption result (values_form (run_named run.entry) (map string_bytes words.now) ≡ None)
        (λ form. values_form (run_named run.entry) (map string_bytes words.now) ≡ Some (asked_in form)) }
{
    let Some((words, to)) = cut_option(words, "--to", MOST_LINES) else {
        return None;
    };
    let Some((names, from)) = cut_option(words, "--from", 1) else {
        return None;
    };
    let window = Window { from, to };
    Some(Form::Values { run, names, window })
}

// --csv, or no word
fn ends_form<'a>(run: RunNames<'a>, words: &'a [String]) -> Option<Form<'a>>
    ensures { MatchOption result (ends_form (run_named run.entry) (map string_bytes words.now) ≡ None)
        (λ form. ends_form (run_named run.entry) (map string_bytes words.now) ≡ Some (asked_in form)) }
{
    match words {
        [] => Some(Form::HowEnded { run, csv: false }),
        [word] => {
            if word.as_str() == "--csv" {
                Some(Form::HowEnded { run, csv: true })
            } else {
                None
            }
        }
        _ => None,
    }
}

// Whether words are `--add` with a file behind it, any number of times.
fn are_added(words: &[String]) -> bool
    ensures { result ≡ are_added (map string_bytes words.now) }
{
    let mut rest = words;
    while !rest.is_empty() {
        let [option, _file, behind @ ..] = rest else {
            return false;
        };
        if option.as_str() != "--add" {
            return false;
        }
        rest = behind;
    }
    true
}

// --add DETECTORS ..
fn lines_in<'a>(run: RunNames<'a>, style: Style, words: &'a [String]) -> Option<Form<'a>>
    ensures { MatchOption result (lines_in (run_named run.entry) style (map string_bytes words.now) ≡ None)
        (λ form. lines_in (run_named run.entry) style (map string_bytes words.now) ≡ Some (asked_in form)) }
{
    if are_added(words) {
        Some(Form::Lines {
            run,
            style,
            added: words,
        })
    } else {
        None
    }
}

// --csv, --lcov or neither, and --add DETECTORS ..
fn lines_form<'a>(run: RunNames<'a>, words: &'a [String]) -> Option<Form<'a>>
    ensures { MatchOption result (lines_form (run_named run.entry) (map string_bytes words.now) ≡ None)
        (λ form. lines_form (run_named run.entry) (map string_bytes words.now) ≡ Some (asked_in form)) }
{
    match words {
        [] => lines_in(run, Style::Table, words),
        [word, behind @ ..] => match style_of(word.as_str()) {
            Some(style) => lines_in(run, style, behind),
            None => lines_in(run, Style::Table, words),
        },
    }
}

// N
fn second_form<'a>(run: RunNames<'a>, words: &'a [String]) -> Option<Form<'a>>
    ensures { MatchOption result (second_form (run_named run.entry) (map string_bytes words.now) ≡ None)
        (λ form. second_form (run_named run.entry) (map string_bytes words.now) ≡ Some (asked_in form)) }
{
    let [word] = words else {
        return None;
    };
    let second = number(word.as_bytes(), 1, MOST_LINES)?;
    Some(Form::Second { run, second })
}

// no word
fn trace_form<'a>(run: RunNames<'a>, words: &'a [String]) -> Option<Form<'a>>
    ensures { MatchOption result (trace_form (run_named run.entry) (map string_bytes words.now) ≡ None)
        (λ form. trace_form (run_named run.entry) (map string_bytes words.now) ≡ Some (asked_in form)) }
{
    if words.is_empty() {
        Some(Form::Trace(run))
    } else {
        None
    }
}

// --help and --version
fn lone_form(word: &str) -> Option<Form<'_>>
    ensures { MatchOption result (lone_form word.now ≡ None) (λ form. lone_form word.now ≡ Some (asked_in form)) }
{
    if word == "--help" {
        Some(Form::Help)
    } else if word == "--version" {
        Some(Form::Version)
    } else {
        None
    }
}

// FORM and the names of files, and the words behind them
fn run_form<'a>(form: &str, run: RunNames<'a>, words: &'a [String]) -> Option<Form<'a>>
    ensures { MatchOption result (run_form form.now (run_named run.entry) (map string_bytes words.now) ≡ None)
        (λ asked. run_form form.now (run_named run.entry) (map string_bytes words.now) ≡ Some (asked_in asked)) }
{
    if form == "values" {
        values_form(run, words)
    } else if form == "how-ended" {
        ends_form(run, words)
    } else if form == "lines" {
        lines_form(run, words)
    } else if form == "second" {
        second_form(run, words)
    } else if form == "trace" {
        trace_form(run, words)
    } else {
        None
    }
}

/// What the words after the program's name ask for; None where they are no form.
pub fn form_of(words: &[String]) -> Option<Form<'_>>
    ensures { MatchOption result (form_of (map string_bytes words.now) ≡ None)
        (λ form. form_of (map string_bytes words.now) ≡ Some (asked_in form)) }
{
    match words {
        [word] => lone_form(word.as_str()),
        [
            form,
            program,
            plan,
            times,
            intergreens,
            detectors,
            rest @ ..,
        ] => {
            let site = SiteWords {
                plan: plan.as_str(),
                times: times.as_str(),
                intergreens: intergreens.as_str(),
            };
            let run = RunNames {
                program: program.as_str(),
                site,
                detectors: detectors.as_str(),
            };
            run_form(form.as_str(), run, rest)
        }
        _ => None,
    }
}
