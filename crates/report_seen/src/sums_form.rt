// The words of a call.
ghost use Rattle.std.specs.Prelude.{◌≡◌, ◌≤◌, ◌<◌, IfSome, Some, length, map, string_bytes};
ghost use Rattle.report_seen.specs.SumsForm.{HasSeconds, asked_by, csv_of, form_of, is_option, is_serve, seconds_of, with_csv, with_each, with_seconds};

use crate::serve::serve_in;
use sig_types::MOST_SECONDS;
use sig_types::text::number;

// The least number of seconds that a part has.
const LEAST: u32 = 60;

/// What the words ask for.
#[derive(Clone, Copy)]
pub struct SumsForm<'a> {
    /// The log.
    pub log: &'a str,
    /// The first second that counts.
    pub from: u32,
    /// The last one.
    pub to: u32,
    /// How many seconds a part has, 60 to 604,801, where there are parts.
    pub each: Option<u32>,
    /// Words of which every second one names detectors and the group that they serve.
    pub serves: &'a [String],
    /// Whether a table is written, and not lines.
    pub csv: bool,
}

/// The seconds that count.
#[derive(Clone, Copy)]
pub(crate) struct Seconds {
    pub(crate) from: u32,
    pub(crate) to: u32,
}

// `FROM TO`
fn seconds_of(from: &str, to: &str) -> Option<Seconds>
    ensures { result ≡ seconds_of from.now to.now }
{
    let from = number(from.as_bytes(), 1, MOST_SECONDS)?;
    let to = number(to.as_bytes(), from, MOST_SECONDS)?;
    Some(Seconds { from, to })
}

// Whether these two words ask for detectors that serve a group: `--serves DETECTORS:GROUP`.
#[tactic(auto, unfolding(crate::specs::SumsForm::is_serve))]
fn is_serve(option: &str, word: &str) -> bool
    ensures { result ≡ is_serve option.now word.now }
{
    option == "--serves" && serve_in(word.as_bytes()).is_some()
}

// Whether `--csv` is all that is left, or nothing.
fn last_of(words: &[String]) -> Option<bool>
    requires { length words.now < 2 }
    ensures { result ≡ csv_of (map string_bytes words.now) }
{
    match words {
        [word] => {
            if word.as_str() == "--csv" {
                Some(true)
            } else {
                None
            }
        }
        [] => Some(false),
        [_, _, ..] => None,
    }
}

// Whether `--csv` stands behind what is asked for by `--serves`, where nothing else does.
fn csv_of(words: &[String]) -> Option<bool>
    ensures { result ≡ csv_of (map string_bytes words.now) }
{
    let mut rest = words;
    while let [option, word, more @ ..] = rest {
        if !is_serve(option.as_str(), word.as_str()) {
            return None;
        }
        rest = more;
    }
    last_of(rest)
}

// What is asked for of these seconds, in parts or as a whole, where nothing but `--serves` and `--csv` follows.
fn with_csv<'a>(
    log: &'a str,
    seconds: Seconds,
    each: Option<u32>,
    words: &'a [String],
) -> Option<SumsForm<'a>>
    requires { HasSeconds each }
    ensures form { asked_by result ≡ with_csv log.now seconds each (map string_bytes words.now) }
    ensures range { IfSome result (λ f. HasSeconds f.each) }
{
    match csv_of(words) {
        Some(csv) => Some(SumsForm {
            log,
            from: seconds.from,
            to: seconds.to,
            each,
            serves: words,
            csv,
        }),
        None => None,
    }
}

// What is asked for of these seconds: in parts, or as a whole.
fn with_each<'a>(log: &'a str, seconds: Seconds, words: &'a [String]) -> Option<SumsForm<'a>>
    ensures form { asked_by result ≡ with_each log.now seconds (map string_bytes words.now) }
    ensures range { IfSome result (λ f. HasSeconds f.each) }
{
    let [option, n, rest @ ..] = words else {
        return with_csv(log, seconds, None, words);
    };
    if option.as_str() != "--each" {
        return with_csv(log, seconds, None, words);
    }
    match number(n.as_bytes(), LEAST, MOST_SECONDS) {
        Some(each) => with_csv(log, seconds, Some(each), rest),
        None => None,
    }
}

// Whether a word is an option, and no second.
fn is_option(word: &str) -> bool
    ensures { result ≡ is_option word.now }
{
    word == "--each" || word == "--serves"
}

// What is asked for of a log: of all seconds, or of those from FROM to TO.
fn with_seconds<'a>(log: &'a str, words: &'a [String]) -> Option<SumsForm<'a>>
    ensures form { asked_by result ≡ with_seconds log.now (map string_bytes words.now) }
    ensures range { IfSome result (λ f. HasSeconds f.each) }
{
    let all = Seconds {
        from: 1,
        to: MOST_SECONDS,
    };
    let [from, to, rest @ ..] = words else {
        return with_each(log, all, words);
    };
    if is_option(from.as_str()) {
        return with_each(log, all, words);
    }
    match seconds_of(from.as_str(), to.as_str()) {
        Some(seconds) => with_each(log, seconds, rest),
        None => None,
    }
}

/// What the words after the program's name ask for: `sums LOG`, and then `FROM TO`, `--each SECONDS`, any number
/// of `--serves DETECTORS:GROUP`, and `--csv`.
pub fn form_of(words: &[String]) -> Option<SumsForm<'_>>
    ensures form { asked_by result ≡ form_of (map string_bytes words.now) }
    ensures range { IfSome result (λ f. HasSeconds f.each) }
{
    let [word, log, rest @ ..] = words else {
        return None;
    };
    if word.as_str() != "sums" {
        return None;
    }
    with_seconds(log.as_str(), rest)
}
