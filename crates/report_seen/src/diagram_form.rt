// The words of a call.
ghost use Rattle.std.specs.Prelude.{◌≡◌, ◌+◌, ◌<◌, ◌≤◌, IfOk, map, string_bytes};
ghost use Rattle.report_seen.specs.Asked.{IsInOrder, asked_by};
ghost use Rattle.report_seen.specs.DiagramForm.{IsWindow, form_of, letters_form, lone_form, look_form, window_form, window_of};
ghost use Rattle.report_seen.specs.Look.{look_of};

use crate::look::look_of;
use crate::stop::Stop;
use log_svg::Look;
use sig_types::MOST_SECONDS;
use sig_types::text::number;

// The most seconds of a diagram.
const MOST: u32 = 3600;

/// Some seconds of a log.
#[derive(Clone, Copy)]
pub struct Window {
    /// The first second, from 1.
    pub from: u32,
    /// The last second.
    pub to: u32,
}

/// What the words ask for.
#[derive(Clone, Copy)]
pub enum Form<'a> {
    /// How it is called.
    Help,
    /// Which version it is.
    Version,
    /// A signal timing diagram of these seconds, which is to look so.
    Diagram(&'a str, Window, Look<'a>),
    /// The same as characters.
    Text(&'a str, Window),
}

/// The seconds that two words ask for.
pub fn window_of(from: &str, to: &str) -> Result<Window, Stop>
    ensures window { result ≡ window_of from.now to.now }
    ensures order { IfOk result IsWindow }
{
    let Some(from) = number(from.as_bytes(), 1, MOST_SECONDS) else {
        return Err(Stop::Words);
    };
    let Some(to) = number(to.as_bytes(), from, MOST_SECONDS) else {
        return Err(Stop::Words);
    };
    if to - from >= MOST {
        return Err(Stop::TooManySeconds);
    }
    Ok(Window { from, to })
}

// --help and --version
fn lone_form(word: &str) -> Result<Form<'_>, Stop>
    ensures form { asked_by result ≡ lone_form word.now }
    ensures order { IfOk result IsInOrder }
{
    if word == "--help" {
        Ok(Form::Help)
    } else if word == "--version" {
        Ok(Form::Version)
    } else {
        Err(Stop::Words)
    }
}

// A diagram of these seconds, and how it is to look.
fn look_form<'a>(log: &'a str, window: Window, rest: &'a [String]) -> Result<Form<'a>, Stop>
    requires { IsWindow window }
    ensures form { asked_by result ≡ look_form log.now window (look_of (map string_bytes rest.now)) }
    ensures order { IfOk result IsInOrder }
{
    match look_of(rest) {
        Some(look) => Ok(Form::Diagram(log, window, look)),
        None => Err(Stop::Words),
    }
}

// Characters of these seconds, where nothing follows.
fn letters_form<'a>(log: &'a str, window: Window, rest: &[String]) -> Result<Form<'a>, Stop>
    requires { IsWindow window }
    ensures form { asked_by result ≡ letters_form log.now window (map string_bytes rest.now) }
    ensures order { IfOk result IsInOrder }
{
    match rest {
        [] => Ok(Form::Text(log, window)),
        [_, ..] => Err(Stop::Words),
    }
}

// `diagram LOG FROM TO` and how it is to look, and `text LOG FROM TO`.
fn window_form<'a>(
    word: &str,
    log: &'a str,
    from: &str,
    to: &str,
    rest: &'a [String],
) -> Result<Form<'a>, Stop>
    ensures form { asked_by result ≡ window_form word.now log.now (window_of from.now to.now) (map string_bytes rest.now) }
    ensures order { IfOk result IsInOrder }
{
    if word == "diagram" {
        let window = window_of(from, to)?;
        look_form(log, window, rest)
    } else if word == "text" {
        let window = window_of(from, to)?;
        letters_form(log, window, rest)
    } else {
        Err(Stop::Words)
    }
}

/// What the words after the program's name ask for.
pub fn form_of(words: &[String]) -> Result<Form<'_>, Stop>
    ensures form { asked_by result ≡ form_of (map string_bytes words.now) }
    ensures order { IfOk result IsInOrder }
{
    match words {
        [] => Err(Stop::Words),
        [word] => lone_form(word.as_str()),
        [_, _] => Err(Stop::Words),
        [_, _, _] => Err(Stop::Words),
        [word, log, from, to, rest @ ..] => window_form(
            word.as_str(),
            log.as_str(),
            from.as_str(),
            to.as_str(),
            rest,
        ),
    }
}
