// The words of a line.
ghost use Rattle.std.specs.Prelude.{◌≡◌, map, IfOk, is_some, ℤ, ◌≤ℤ◌, MatchOption, Some, None, true, false, length, ◌<◌, ◌≤◌};
ghost use Rattle.pua_model.specs.Plan.{is_end};
ghost use Rattle.pua_reader.specs.Interstages.{word, last_word};
ghost use Rattle.pua_reader.specs.Words.{parts, words, is_text, signed_of};

use sig_types::text::{is_number, number};
use std::alloc::{AllocError, Global};

// Spaces and tabs part words, and in an interstage `:` and `=` do.
fn parts(keys: bool, b: u8) -> bool
    ensures { result ≡ parts keys b }
{
    b == b' ' || b == b'\t' || keys && (b == b':' || b == b'=')
}

/// Whether all bytes are printable ASCII or tabs.
pub(crate) fn is_text(line: &[u8]) -> bool
    ensures { result ≡ is_text line.now }
{
    line.iter()
        .all(|b| (b' ' <= *b && *b <= b'~') || *b == b'\t')
}

/// The words of a line; `keys` tells that it stands in an interstage.
pub(crate) fn words(alloc: Global, keys: bool, line: &[u8]) -> Result<Vec<&[u8]>, AllocError>
    ensures { IfOk result (λ v. map (λ w. w.now) v.items ≡ words keys line.now) }
{
    let mut words = Vec::new(alloc);
    for word in line.split(|b| parts(keys, *b)) {
        if !word.is_empty() {
            words.push(word)?;
        }
    }
    Ok(words)
}

/// Whether the word is a signed number.
pub(crate) fn is_signed(word: &[u8]) -> bool
    ensures { result ≡ is_some (signed_of word.now) }
{
    match word.split_first() {
        Some((b'-', rest)) => is_number(rest) && number(rest, 0, 0).is_none(),
        _ => is_number(word),
    }
}

/// The red end or green end that a signed number is; None where it is out of its range, -127 to 127.
pub(crate) fn end_of(word: &[u8]) -> Option<i8>
    requires { is_some (signed_of word.now) ≡ true }
    ensures { MatchOption result ((z : ℤ) → signed_of word.now ≡ Some z → is_end z ≡ false)
        (λ e. (signed_of word.now ≡ Some e) × (is_end e ≡ true)) }
{
    match word.split_first() {
        Some((b'-', rest)) => match number(rest, 1, 127) {
            Some(n) => Some(-(n as i8)),
            None => None,
        },
        _ => match number(word, 0, 127) {
            Some(n) => Some(n as i8),
            None => None,
        },
    }
}

/// The word at that place.
pub(crate) fn word_at<'a>(words: &[&'a [u8]], place: usize) -> &'a [u8]
    requires { place < length words.now }
    ensures { result.now ≡ word (map (λ w. w.now) words.now) place }
{
    words[place]
}

/// The last word.
pub(crate) fn last_word<'a>(words: &[&'a [u8]]) -> &'a [u8]
    requires { 1 ≤ length words.now }
    ensures { result.now ≡ last_word (map (λ w. w.now) words.now) }
{
    word_at(words, words.len() - 1)
}
