// The lines of a text.
ghost use Rattle.std.specs.Prelude.{◌≡◌, ◌<◌, length, ◌∷◌};
ghost use Rattle.std.specs.Str.Lines.{lines, strip_carriage_return};
ghost use Rattle.pua_reader.specs.Accepted.{without_mark};

use sig_types::text::cut_at;

/// The text without a byte order mark at its beginning.
pub(crate) fn without_mark(text: &[u8]) -> &[u8]
    ensures { result.now ≡ without_mark text.now }
{
    if text.starts_with(&[0xEF, 0xBB, 0xBF]) {
        let (_, rest) = text.split_at(3);
        rest
    } else {
        text
    }
}

// A line without the carriage return at its end, if it has one.
fn without_return(line: &[u8]) -> &[u8]
    ensures { result.now ≡ strip_carriage_return line.now }
{
    if !line.is_empty() && line[line.len() - 1] == b'\r' {
        &line[..line.len() - 1]
    } else {
        line
    }
}

/// The first line, and what stands after it.
pub(crate) fn first_line(text: &[u8]) -> (&[u8], &[u8])
    requires { 0 < length text.now }
    ensures lines { lines text.now ≡ result.0.now ∷ lines result.1.now }
    ensures rest { length result.1.now < length text.now }
{
    match cut_at(b'\n', text) {
        Some((line, rest)) => (without_return(line), rest),
        None => (text, &[]),
    }
}
