// The words of a call.
ghost use Rattle.std.specs.Prelude.{◌≡◌, ◌≤◌, None, Some, IfSome, MatchOption, map, string_bytes};
ghost use Rattle.site_load.specs.Sites.{site_in};
ghost use Rattle.report_judged.specs.BreachForm.{asked_in, csv_alone, form_by, form_of, three_words, with_tolerance};

use sig_types::text::number;
use site_load::SiteWords;

/// What the words ask for.
#[derive(Clone, Copy)]
pub struct BreachForm<'a> {
    /// The log.
    pub log: &'a str,
    /// The plan and the tables by which it's judged.
    pub site: SiteWords<'a>,
    /// By how many seconds an amber or a red-amber may differ from its time, 0 to 9.
    pub tolerance: u32,
    /// Whether a table is written, and not words.
    pub csv: bool,
}

/// What stands behind the names of the files.
#[derive(Clone, Copy)]
pub(crate) struct Options {
    pub(crate) tolerance: u32,
    pub(crate) csv: bool,
}

// `--csv`
fn csv_alone(word: &str) -> Option<Options>
    ensures options { result ≡ csv_alone word.now }
    ensures range { IfSome result (λ o. o.tolerance ≤ 9) }
{
    if word == "--csv" {
        Some(Options {
            tolerance: 0,
            csv: true,
        })
    } else {
        None
    }
}

// `--amber-tolerance N`
fn with_tolerance(option: &str, n: &str, csv: bool) -> Option<Options>
    ensures options { result ≡ with_tolerance option.now n.now csv }
    ensures range { IfSome result (λ o. o.tolerance ≤ 9) }
{
    if option == "--amber-tolerance" {
        match number(n.as_bytes(), 0, 9) {
            Some(tolerance) => Some(Options { tolerance, csv }),
            None => None,
        }
    } else {
        None
    }
}

// Both, in either order.
fn three_words(first: &str, second: &str, third: &str) -> Option<Options>
    ensures options { result ≡ three_words first.now second.now third.now }
    ensures range { IfSome result (λ o. o.tolerance ≤ 9) }
{
    if first == "--csv" {
        with_tolerance(second, third, true)
    } else if third == "--csv" {
        with_tolerance(first, second, true)
    } else {
        None
    }
}

// The names of the files of a site.
fn site_words<'a>(plan: &'a String, times: &'a String, intergreens: &'a String) -> SiteWords<'a>
    ensures { site_in result ≡
        record { plan = string_bytes plan.now; times = string_bytes times.now; intergreens = string_bytes intergreens.now } }
{
    SiteWords {
        plan: plan.as_str(),
        times: times.as_str(),
        intergreens: intergreens.as_str(),
    }
}

// The form of this word, with a log, a site and options.
fn form_by<'a>(
    word: &str,
    log: &'a str,
    site: SiteWords<'a>,
    options: Option<Options>,
) -> Option<BreachForm<'a>>
    requires { IfSome options (λ o. o.tolerance ≤ 9) }
    ensures form { MatchOption result (form_by word.now log.now (site_in site.entry) options ≡ None)
        (λ f. form_by word.now log.now (site_in site.entry) options ≡ Some (asked_in f)) }
    ensures range { IfSome result (λ f. f.tolerance ≤ 9) }
{
    if word != "breaches" {
        return None;
    }
    match options {
        Some(options) => Some(BreachForm {
            log,
            site,
            tolerance: options.tolerance,
            csv: options.csv,
        }),
        None => None,
    }
}

/// What the words after the program's name ask for: `breaches LOG PUA TIMES INTERGREENS`, and then `--amber-tolerance N` and
/// `--csv`, in either order.
pub fn form_of(words: &[String]) -> Option<BreachForm<'_>>
    ensures form { MatchOption result (form_of (map string_bytes words.now) ≡ None)
        (λ f. form_of (map string_bytes words.now) ≡ Some (asked_in f)) }
    ensures range { IfSome result (λ f. f.tolerance ≤ 9) }
{
    match words {
        [word, log, plan, times, intergreens] => form_by(
            word.as_str(),
            log.as_str(),
            site_words(plan, times, intergreens),
            Some(Options {
                tolerance: 0,
                csv: false,
            }),
        ),
        [word, log, plan, times, intergreens, csv] => form_by(
            word.as_str(),
            log.as_str(),
            site_words(plan, times, intergreens),
            csv_alone(csv.as_str()),
        ),
        [word, log, plan, times, intergreens, option, n] => form_by(
            word.as_str(),
            log.as_str(),
            site_words(plan, times, intergreens),
            with_tolerance(option.as_str(), n.as_str(), false),
        ),
        [word, log, plan, times, intergreens, first, second, third] => form_by(
            word.as_str(),
            log.as_str(),
            site_words(plan, times, intergreens),
            three_words(first.as_str(), second.as_str(), third.as_str()),
        ),
        _ => None,
    }
}
