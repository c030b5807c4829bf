// The words of a call.
ghost use Rattle.std.specs.Prelude.{◌≡◌, ◌≤◌, None, Some, IfSome, MatchOption, map, string_bytes};
ghost use Rattle.std.specs.Option.{ForSome};
ghost use Rattle.tenth_report.specs.Form.{AreOptions, IsTask, asked_in, csv_alone, form_by, form_of, is_option, is_record_call, task_of, three_words, with_tolerance};

use sig_tables::amount;

/// What is asked of a record.
#[derive(Clone, Copy)]
pub(crate) enum Task {
    /// Each breach, with the tenths of a second by which an amber or a red-amber may differ from its time, 0 to 90.
    Breaches { tolerance: u32 },
    /// What came.
    Protocol,
}

/// What the words ask for.
#[derive(Clone, Copy)]
pub(crate) struct RecordForm<'a> {
    /// The record.
    pub(crate) file: &'a str,
    /// The table of times.
    pub(crate) times: &'a str,
    /// The table of intergreens.
    pub(crate) intergreens: &'a str,
    /// What is told of them.
    pub(crate) task: Task,
    /// Whether a table is written, and not words.
    pub(crate) csv: bool,
}

/// What stands behind the names of the files.
#[derive(Clone, Copy)]
pub(crate) struct Options {
    /// The tolerance in tenths, where it's given.
    pub(crate) tolerance: Option<u32>,
    pub(crate) csv: bool,
}

// Whether a word is an option.
fn is_option(word: &str) -> bool
    ensures { result ≡ is_option word.now }
{
    word == "--csv" || word == "--amber-tolerance"
}

/// Whether the words are a call of a record: behind its third file stands nothing or an option.
pub fn is_record_call(words: &[String]) -> bool
    ensures { result ≡ is_record_call (map string_bytes words.now) }
{
    match words {
        [_, _, _, _] => true,
        [_, _, _, _, option, ..] => is_option(option.as_str()),
        _ => false,
    }
}

// `--csv`
fn csv_alone(word: &str) -> Option<Options>
    ensures options { result ≡ csv_alone word.now }
    ensures range { IfSome result AreOptions }
{
    if word == "--csv" {
        Some(Options {
            tolerance: None,
            csv: true,
        })
    } else {
        None
    }
}

// `--amber-tolerance N`
fn with_tolerance(option: &str, n: &str, csv: bool) -> Option<Options>
    ensures options { result ≡ with_tolerance option.now n.now csv }
    ensures range { IfSome result AreOptions }
{
    if option == "--amber-tolerance" {
        match amount(n.as_bytes(), 0, 90) {
            Some(tolerance) => Some(Options {
                tolerance: Some(u32::from(tolerance)),
                csv,
            }),
            None => None,
        }
    } else {
        None
    }
}

// Both, in either order.
fn three_words(first: &str, second: &str, third: &str) -> Option<Options>
    ensures options { result ≡ three_words first.now second.now third.now }
    ensures range { IfSome result AreOptions }
{
    if first == "--csv" {
        with_tolerance(second, third, true)
    } else if third == "--csv" {
        with_tolerance(first, second, true)
    } else {
        None
    }
}

// What this word asks for with these options: only breaches have a tolerance.
fn task_of(word: &str, tolerance: Option<u32>) -> Option<Task>
    requires { ForSome tolerance (λ t. t ≤ 90) }
    ensures task { result ≡ task_of word.now tolerance }
    ensures range { IfSome result IsTask }
{
    if word == "breaches" {
        return Some(Task::Breaches {
            tolerance: tolerance.unwrap_or(0),
        });
    }
    if word == "protocol" && tolerance.is_none() {
        return Some(Task::Protocol);
    }
    None
}

// The form of this word, with three files and options.
fn form_by<'a>(
    word: &str,
    record: &'a str,
    times: &'a str,
    intergreens: &'a str,
    options: Option<Options>,
) -> Option<RecordForm<'a>>
    requires { IfSome options AreOptions }
    ensures form { MatchOption result (form_by word.now record.now times.now intergreens.now options ≡ None)
        (λ f. form_by word.now record.now times.now intergreens.now options ≡ Some (asked_in f)) }
    ensures range { IfSome result (λ f. IsTask f.task) }
{
    let options = options?;
    let task = task_of(word, options.tolerance)?;
    Some(RecordForm {
        file: record,
        times,
        intergreens,
        task,
        csv: options.csv,
    })
}

/// What the words after the program's name ask for: `breaches RECORD TIMES INTERGREENS`, and then `--amber-tolerance N` and
/// `--csv`, in either order; or `protocol RECORD TIMES INTERGREENS`, and then `--csv`.
pub(crate) fn form_of(words: &[String]) -> Option<RecordForm<'_>>
    ensures form { MatchOption result (form_of (map string_bytes words.now) ≡ None)
        (λ f. form_of (map string_bytes words.now) ≡ Some (asked_in f)) }
    ensures range { IfSome result (λ f. IsTask f.task) }
{
    match words {
        [word, record, times, intergreens] => form_by(
            word.as_str(),
            record.as_str(),
            times.as_str(),
            intergreens.as_str(),
            Some(Options {
                tolerance: None,
                csv: false,
            }),
        ),
        [word, record, times, intergreens, csv] => form_by(
            word.as_str(),
            record.as_str(),
            times.as_str(),
            intergreens.as_str(),
            csv_alone(csv.as_str()),
        ),
        [word, record, times, intergreens, option, n] => form_by(
            word.as_str(),
            record.as_str(),
            times.as_str(),
            intergreens.as_str(),
            with_tolerance(option.as_str(), n.as_str(), false),
        ),
        [word, record, times, intergreens, first, second, third] => form_by(
            word.as_str(),
            record.as_str(),
            times.as_str(),
            intergreens.as_str(),
            three_words(first.as_str(), second.as_str(), third.as_str()),
        ),
        _ => None,
    }
}
