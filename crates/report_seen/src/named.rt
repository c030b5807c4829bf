// The forms that read one log, by their first word, and the log that the words of a call name.
ghost use Rattle.std.specs.Prelude.{◌≡◌, map, string_bytes};
ghost use Rattle.report_seen.specs.Named.{form_begun, form_called, form_limits, form_words, log_named};

/// A form of a call that reads one log, by its first word.
#[derive(Clone, Copy)]
pub enum FormName {
    /// `diagram`.
    Diagram,
    /// `text`.
    Text,
    /// `sums`.
    Sums,
}

/// How a form is written: in the usage, and in the note on words that are no form.
pub fn form_words(form: FormName) -> &'static [u8]
    ensures { result.now ≡ form_words form }
{
    match form {
        FormName::Diagram =>
            b"log_report diagram LOG FROM TO [--site PUA TIMES INTERGREENS] [--strip N] [--title TEXT] [--begin HH:MM:SS]",
        FormName::Text => b"log_report text LOG FROM TO",
        FormName::Sums =>
            b"log_report sums LOG [FROM TO] ([--each SECONDS] [--serves DETECTORS:GROUP] | --lost) [--csv]",
    }
}

/// What the words of a form may be, as the note on words that are no form tells it.
pub(crate) fn form_limits(form: FormName) -> &'static [u8]
    ensures { result.now ≡ form_limits form }
{
    match form {
        FormName::Diagram =>
            b", with N from 30 to 600, TEXT of 1 to 80 bytes without control characters, and HH:MM:SS up to 23:59:59",
        FormName::Text => b"",
        FormName::Sums => b"",
    }
}

// The form with this first word.
fn form_called(word: &str) -> Option<FormName>
    ensures { result ≡ form_called word.now }
{
    if word == "diagram" {
        Some(FormName::Diagram)
    } else if word == "text" {
        Some(FormName::Text)
    } else if word == "sums" {
        Some(FormName::Sums)
    } else {
        None
    }
}

/// The form that the words begin, where it is one of these.
pub fn form_begun(words: &[String]) -> Option<FormName>
    ensures { result ≡ form_begun (map string_bytes words.now) }
{
    match words {
        [] => None,
        [word, ..] => form_called(word.as_str()),
    }
}

/// The log that the words name, their second one; no text where there is none.
pub fn log_named(words: &[String]) -> &str
    ensures { result.now ≡ log_named (map string_bytes words.now) }
{
    match words {
        [] => "",
        [_] => "",
        [_, log, ..] => log.as_str(),
    }
}
