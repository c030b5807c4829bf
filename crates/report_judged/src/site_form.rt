// The words of a call.
ghost use Rattle.std.specs.Prelude.{◌≡◌, ◌≤◌, IfOk, map, string_bytes};
ghost use Rattle.site_load.specs.Sites.{site_in};
ghost use Rattle.log_svg.specs.LookIn.{look_in};
ghost use Rattle.log_svg.specs.Words.{IsLook};
ghost use Rattle.report_seen.specs.DiagramForm.{IsWindow, window_of};
ghost use Rattle.report_seen.specs.Look.{look_of};
ghost use Rattle.report_judged.specs.SiteForm.{asked_by, form_of, has_site, looks_form};

use log_svg::Look;
use report_seen::{Stop, Window, look_of, window_of};
use site_load::SiteWords;

/// What the words ask for.
#[derive(Clone, Copy)]
pub struct SiteForm<'a> {
    /// The log.
    pub log: &'a str,
    /// The seconds of the diagram.
    pub window: Window,
    /// The plan and the tables.
    pub site: SiteWords<'a>,
    /// How the diagram is to look.
    pub look: Look<'a>,
}

/// Whether the words ask for a diagram with a site.
pub fn has_site(words: &[String]) -> bool
    ensures { result ≡ has_site (map string_bytes words.now) }
{
    let [word, _, _, _, option, ..] = words else {
        return false;
    };
    word.as_str() == "diagram" && option.as_str() == "--site"
}

// What is asked for of these seconds, and how it is to look.
fn looks_form<'a>(
    log: &'a str,
    window: Window,
    site: SiteWords<'a>,
    rest: &'a [String],
) -> Result<SiteForm<'a>, Stop>
    requires { IsWindow window }
    ensures form { asked_by result ≡ looks_form log.now (site_in site.entry) window (look_of (map string_bytes rest.now)) }
    ensures window { IfOk result (λ f. IsWindow f.window) }
    ensures look { IfOk result (λ f. IsLook (look_in f.look)) }
{
    match look_of(rest) {
        Some(look) => Ok(SiteForm {
            log,
            window,
            site,
            look,
        }),
        None => Err(Stop::Words),
    }
}

/// What the words after the program's name ask for: `diagram LOG FROM TO --site PUA TIMES INTERGREENS`, and then how it is to look.
pub fn form_of(words: &[String]) -> Result<SiteForm<'_>, Stop>
    ensures form { asked_by result ≡ form_of (map string_bytes words.now) }
    ensures window { IfOk result (λ f. IsWindow f.window) }
    ensures look { IfOk result (λ f. IsLook (look_in f.look)) }
{
    let [
        word,
        log,
        from,
        to,
        option,
        plan,
        times,
        intergreens,
        rest @ ..,
    ] = words
    else {
        return Err(Stop::Words);
    };
    if word.as_str() != "diagram" || option.as_str() != "--site" {
        return Err(Stop::Words);
    }
    let site = SiteWords {
        plan: plan.as_str(),
        times: times.as_str(),
        intergreens: intergreens.as_str(),
    };
    let window = window_of(from.as_str(), to.as_str())?;
    looks_form(log.as_str(), window, site, rest)
}
