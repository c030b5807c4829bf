// The words of a call that tells lost starts.
ghost use Rattle.std.specs.Prelude.{◌≡◌, map, string_bytes, is_some};
ghost use Rattle.report_seen.specs.LostForm.{asked_by, form_of, is_lost_table, seconds_of, table_of, with_seconds, with_table};

use crate::sums_form::Seconds;
use log_read::LAST_BEGIN;
use sig_types::MOST_LINES;
use sig_types::text::number;

// The last second that a log can have.
const LAST: u32 = LAST_BEGIN + MOST_LINES;

/// What the words ask for.
#[derive(Clone, Copy)]
pub struct LostForm<'a> {
    /// The log.
    pub log: &'a str,
    /// The first second that counts.
    pub from: u32,
    /// The last one.
    pub to: u32,
    /// Whether a table is written, and not lines.
    pub csv: bool,
}

// `FROM TO`
fn seconds_of(from: &str, to: &str) -> Option<Seconds>
    ensures { result ≡ seconds_of from.now to.now }
{
    let from = number(from.as_bytes(), 1, LAST)?;
    let to = number(to.as_bytes(), from, LAST)?;
    Some(Seconds { from, to })
}

// Whether these two words are `--lost` and `--csv`.
fn is_lost_table(a: &str, b: &str) -> bool
    ensures { result ≡ is_lost_table a.now b.now }
{
    (a == "--lost" && b == "--csv") || (a == "--csv" && b == "--lost")
}

// Whether a table is asked for, where these words ask for lost starts.
fn table_of(words: &[String]) -> Option<bool>
    ensures { result ≡ table_of (map string_bytes words.now) }
{
    match words {
        [word] => {
            if word.as_str() == "--lost" {
                Some(false)
            } else {
                None
            }
        }
        [a, b] => {
            if is_lost_table(a.as_str(), b.as_str()) {
                Some(true)
            } else {
                None
            }
        }
        [] => None,
        [_, _, _, ..] => None,
    }
}

// What is asked for of these seconds.
fn with_table<'a>(log: &'a str, seconds: Option<Seconds>, csv: Option<bool>) -> Option<LostForm<'a>>
    ensures { asked_by result ≡ with_table log.now seconds csv }
{
    let seconds = seconds?;
    let csv = csv?;
    Some(LostForm {
        log,
        from: seconds.from,
        to: seconds.to,
        csv,
    })
}

// What is asked for of a log: of all seconds, or of those from FROM to TO.
fn with_seconds<'a>(log: &'a str, words: &'a [String]) -> Option<LostForm<'a>>
    ensures { asked_by result ≡ with_seconds log.now (map string_bytes words.now) }
{
    match words {
        [from, to, rest @ ..] if !rest.is_empty() => {
            with_table(log, seconds_of(from.as_str(), to.as_str()), table_of(rest))
        }
        _ => with_table(log, Some(Seconds { from: 1, to: LAST }), table_of(words)),
    }
}

/// What the words after the program's name ask for: `sums LOG`, and then `FROM TO`, `--lost` and `--csv`.
pub fn lost_form(words: &[String]) -> Option<LostForm<'_>>
    ensures { asked_by result ≡ form_of (map string_bytes words.now) }
{
    let [word, log, rest @ ..] = words else {
        return None;
    };
    if word.as_str() != "sums" {
        return None;
    }
    with_seconds(log.as_str(), rest)
}
