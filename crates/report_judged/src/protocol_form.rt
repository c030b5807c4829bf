// The words of a call.
ghost use Rattle.std.specs.Prelude.{◌≡◌, ◌+◌, ◌≤◌, map, string_bytes};
ghost use Rattle.report_judged.specs.ProtocolForm.{asked_by, form_of, style_of, style_for};

use log_protocol::Style;
use site_load::SiteWords;

/// What the words ask for.
#[derive(Clone, Copy)]
pub struct ProtocolForm<'a> {
    /// The log.
    pub log: &'a str,
    /// The plan and the tables.
    pub site: SiteWords<'a>,
    /// How the page is written.
    pub style: Style,
}

fn style_for(word: &str) -> Option<Style>
    ensures { result ≡ style_for word.now }
{
    if word == "--csv" {
        Some(Style::Table)
    } else {
        None
    }
}

// What stands behind the names of the files: nothing, or `--csv`.
fn style_of(words: &[String]) -> Option<Style>
    ensures { result ≡ style_of (map string_bytes words.now) }
{
    match words {
        [] => Some(Style::Lines),
        [word] => style_for(word.as_str()),
        [_, _, ..] => None,
    }
}

/// What the words after the program's name ask for: `protocol LOG PUA TIMES INTERGREENS`, and `--csv` behind them.
pub fn form_of(words: &[String]) -> Option<ProtocolForm<'_>>
    ensures form { asked_by result ≡ form_of (map string_bytes words.now) }
{
    let [word, log, plan, times, intergreens, rest @ ..] = words else {
        return None;
    };
    if word.as_str() != "protocol" {
        return None;
    }
    let style = style_of(rest)?;
    Some(ProtocolForm {
        log: log.as_str(),
        site: SiteWords {
            plan: plan.as_str(),
            times: times.as_str(),
            intergreens: intergreens.as_str(),
        },
        style,
    })
}
