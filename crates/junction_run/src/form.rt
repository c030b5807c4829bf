// The words of a command.
ghost use Rattle.std.specs.Prelude.{◌≡◌, None, Some, MatchOption, map, string_bytes};
ghost use Rattle.sig_types.specs.Text.{number_of, within};
ghost use Rattle.junction_run.specs.Form.{form_of, form_of_one, form_of_audit, form_of_play, form_of_sample};
ghost use Rattle.junction_run.specs.FormWords.{site_in, form_in};

use crate::seconds::SampleSeconds;
use sig_types::MOST_LINES;
use sig_types::text::{number, number64};
use site_load::SiteWords;

const RUN: &str = "run";

const COMPILE: &str = "compile";

const EXEC: &str = "exec";

const SAMPLE: &str = "sample";

const AUDIT: &str = "audit";

/// The names of the files of a site.
pub(crate) fn site_words<'a>(
    plan: &'a String,
    times: &'a String,
    intergreens: &'a String,
) -> SiteWords<'a>
    ensures { site_in result ≡
        record { plan = string_bytes plan.now; times = string_bytes times.now; intergreens = string_bytes intergreens.now } }
{
    SiteWords {
        plan: plan.as_str(),
        times: times.as_str(),
        intergreens: intergreens.as_str(),
    }
}

/// What decides the passes of a run: the name of a program or of a code.
#[derive(Clone, Copy)]
pub enum Source<'a> {
    Program(&'a str),
    Code(&'a str),
}

/// What the words ask for.
#[derive(Clone, Copy)]
pub(crate) enum Form<'a> {
    Play {
        source: Source<'a>,
        site: SiteWords<'a>,
        detectors: &'a str,
    },
    Compile {
        program: &'a str,
    },
    Sample {
        program: &'a str,
        site: SiteWords<'a>,
        seed: u64,
        seconds: SampleSeconds,
    },
    Audit {
        log: &'a str,
        site: SiteWords<'a>,
    },
}

// COMMAND PROGRAM
fn form_of_one<'a>(command: &str, program: &'a str) -> Option<Form<'a>>
    ensures { MatchOption result (form_of_one command.now program.now ≡ None)
        (λ form. form_of_one command.now program.now ≡ Some (form_in form)) }
{
    if command == COMPILE {
        Some(Form::Compile { program })
    } else {
        None
    }
}

// COMMAND LOG PUA TIMES INTERGREENS
fn form_of_audit<'a>(command: &str, log: &'a str, site: SiteWords<'a>) -> Option<Form<'a>>
    ensures { MatchOption result (form_of_audit command.now log.now (site_in site.entry) ≡ None)
        (λ form. form_of_audit command.now log.now (site_in site.entry) ≡ Some (form_in form)) }
{
    if command == AUDIT {
        Some(Form::Audit { log, site })
    } else {
        None
    }
}

// COMMAND FILE PUA TIMES INTERGREENS DETECTORS
fn form_of_play<'a>(
    command: &str,
    file: &'a str,
    site: SiteWords<'a>,
    detectors: &'a str,
) -> Option<Form<'a>>
    ensures { MatchOption result (form_of_play command.now file.now (site_in site.entry) detectors.now ≡ None)
        (λ form. form_of_play command.now file.now (site_in site.entry) detectors.now ≡ Some (form_in form)) }
{
    if command == RUN {
        Some(Form::Play {
            source: Source::Program(file),
            site,
            detectors,
        })
    } else if command == EXEC {
        Some(Form::Play {
            source: Source::Code(file),
            site,
            detectors,
        })
    } else {
        None
    }
}

// A number of seconds for a sample.
fn seconds_of(word: &str) -> Option<SampleSeconds>
    ensures { MatchOption result (within 0 604800 (number_of word.now) ≡ None)
        (λ seconds. within 0 604800 (number_of word.now) ≡ Some seconds.count) }
{
    match number(word.as_bytes(), 0, MOST_LINES) {
        Some(count) => Some(SampleSeconds { count }),
        None => None,
    }
}

// COMMAND PROGRAM PUA TIMES INTERGREENS SEED SECONDS
fn form_of_sample<'a>(
    command: &str,
    program: &'a str,
    site: SiteWords<'a>,
    seed: &str,
    seconds: &str,
) -> Option<Form<'a>>
    ensures { MatchOption result (form_of_sample command.now program.now (site_in site.entry) seed.now seconds.now ≡ None)
        (λ form. form_of_sample command.now program.now (site_in site.entry) seed.now seconds.now ≡ Some (form_in form)) }
{
    if command != SAMPLE {
        return None;
    }
    match (number64(seed.as_bytes(), 0, u64::MAX), seconds_of(seconds)) {
        (Some(seed), Some(seconds)) => Some(Form::Sample {
            program,
            site,
            seed,
            seconds,
        }),
        (None, _) | (Some(_), None) => None,
    }
}

/// What the words ask for; None where they are no form.
pub(crate) fn form_of(words: &[String]) -> Option<Form<'_>>
    ensures { MatchOption result (form_of (map string_bytes words.now) ≡ None)
        (λ form. form_of (map string_bytes words.now) ≡ Some (form_in form)) }
{
    match words {
        [command, program] => form_of_one(command.as_str(), program.as_str()),
        [command, log, plan, times, intergreens] => {
            let site = site_words(plan, times, intergreens);
            form_of_audit(command.as_str(), log.as_str(), site)
        }
        [command, file, plan, times, intergreens, detectors] => {
            let site = site_words(plan, times, intergreens);
            form_of_play(command.as_str(), file.as_str(), site, detectors.as_str())
        }
        [command, program, plan, times, intergreens, seed, seconds] => {
            let site = site_words(plan, times, intergreens);
            form_of_sample(
                command.as_str(),
                program.as_str(),
                site,
                seed.as_str(),
                seconds.as_str(),
            )
        }
        _ => None,
    }
}
