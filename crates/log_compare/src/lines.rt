// The lines of a text, one after another.
ghost use Rattle.std.specs.Prelude.{◌≡◌, ◌<◌, ◌≤◌, [], ◌∷◌, drop, length, None, Some, MatchOption};
ghost use Rattle.sig_types.specs.Text.{fed_lines};
ghost use Rattle.log_read.specs.Watchers.{told_lines};
ghost use Rattle.log_compare.specs.Stepping.{Begins};

use log_read::is_watch;
use sig_types::text::cut_at;

/// The first line of a text that isn't empty, and what follows it.
pub(crate) fn first_line(text: &[u8]) -> (&[u8], &[u8])
    requires { 0 < length text.now }
    ensures line { fed_lines text.now ≡ result.0.now ∷ fed_lines result.1.now }
    ensures shorter { length result.1.now < length text.now }
{
    match cut_at(b'\n', text) {
        Some((line, rest)) => (line, rest),
        None => (text, &[]),
    }
}

/// What follows the first line of a text.
pub(crate) fn behind_first(text: &[u8]) -> &[u8]
    ensures { fed_lines result.now ≡ drop 1 (fed_lines text.now) }
{
    if text.is_empty() {
        return text;
    }
    let (_, rest) = first_line(text);
    rest
}

/// The first line that tells a log with these bytes, and what follows it: none where no line is left, or a watcher's is the next.
pub(crate) fn next_told(text: &[u8]) -> Option<(&[u8], &[u8])>
    ensures { MatchOption result (told_lines text.now ≡ [])
        (λ next. Begins text.now next.0.now next.1.now × (length next.1.now < length text.now)) }
{
    if text.is_empty() {
        return None;
    }
    let (line, rest) = first_line(text);
    if is_watch(line) {
        return None;
    }
    Some((line, rest))
}

/// What follows the header of a log with these bytes.
pub(crate) fn behind_header(text: &[u8]) -> &[u8]
    ensures { told_lines result.now ≡ drop 1 (told_lines text.now) }
{
    match next_told(text) {
        None => text,
        Some((_, rest)) => rest,
    }
}
