// The words of a call.
ghost use Rattle.std.specs.Prelude.{◌≡◌, ◌≤◌, map, string_bytes};
ghost use Rattle.report_judged.specs.RefusalForm.{asked_by, form_of, lone_option, options_of, seconds_of, three_options};

use log_read::LAST_BEGIN;
use sig_types::MOST_LINES;
use sig_types::text::number;
use site_load::SiteWords;

// The last second that a log can have.
const LAST: u32 = LAST_BEGIN + MOST_LINES;

/// What the words ask for.
#[derive(Clone, Copy)]
pub struct RefusalForm<'a> {
    /// The log.
    pub log: &'a str,
    /// The plan and the tables.
    pub site: SiteWords<'a>,
    /// The first second that is told.
    pub from: u32,
    /// The last one.
    pub to: u32,
    /// Whether a table is written, and not lines.
    pub csv: bool,
}

/// What stands behind the names of the files.
#[derive(Clone, Copy)]
pub(crate) struct Options {
    pub(crate) from: u32,
    pub(crate) to: u32,
    pub(crate) csv: bool,
}

// `FROM TO`
fn seconds_of(from: &str, to: &str, csv: bool) -> Option<Options>
    ensures { result ≡ seconds_of from.now to.now csv }
{
    let from = number(from.as_bytes(), 1, LAST)?;
    let to = number(to.as_bytes(), from, LAST)?;
    Some(Options { from, to, csv })
}

// `--csv`
fn lone_option(word: &str) -> Option<Options>
    ensures { result ≡ lone_option word.now }
{
    if word == "--csv" {
        Some(Options {
            from: 1,
            to: LAST,
            csv: true,
        })
    } else {
        None
    }
}

// `FROM TO --csv`
fn three_options(from: &str, to: &str, word: &str) -> Option<Options>
    ensures { result ≡ three_options from.now to.now word.now }
{
    if word == "--csv" {
        seconds_of(from, to, true)
    } else {
        None
    }
}

// What stands behind the names of the files: nothing, `FROM TO`, and `--csv`.
fn options_of(words: &[String]) -> Option<Options>
    ensures { result ≡ options_of (map string_bytes words.now) }
{
    match words {
        [] => Some(Options {
            from: 1,
            to: LAST,
            csv: false,
        }),
        [word] => lone_option(word.as_str()),
        [from, to] => seconds_of(from.as_str(), to.as_str(), false),
        [from, to, word] => three_options(from.as_str(), to.as_str(), word.as_str()),
        [_, _, _, _, ..] => None,
    }
}

/// What the words after the program's name ask for: `refusals LOG PUA TIMES INTERGREENS`, and then `FROM TO` and `--csv`.
pub fn form_of(words: &[String]) -> Option<RefusalForm<'_>>
    ensures form { asked_by result ≡ form_of (map string_bytes words.now) }
{
    let [word, log, plan, times, intergreens, rest @ ..] = words else {
        return None;
    };
    if word.as_str() != "refusals" {
        return None;
    }
    let options = options_of(rest)?;
    Some(RefusalForm {
        log: log.as_str(),
        site: SiteWords {
            plan: plan.as_str(),
            times: times.as_str(),
            intergreens: intergreens.as_str(),
        },
        from: options.from,
        to: options.to,
        csv: options.csv,
    })
}
