// The words of a line.
ghost use Rattle.std.specs.Prelude.{◌≡◌, ◌+◌, ◌≤◌, length, not, MatchOption, [], ◌∷◌, false, None, Some};
ghost use Rattle.std.specs.List.{prefix_len};
ghost use Rattle.pua_reader.specs.Interstages.{word};
ghost use Rattle.pua_reader.specs.Words.{parts, words};
ghost use Rattle.pua_lines.specs.Sections.{first_spot, dollar_word};

use crate::spot::Spot;

// Spaces and tabs part words, and in an interstage `:` and `=` do.
fn parts(keys: bool, b: u8) -> bool
    ensures { result ≡ parts keys b }
{
    b == b' ' || b == b'\t' || keys && (b == b':' || b == b'=')
}

// How many bytes of a line stand before its first word.
fn gap(keys: bool, line: &[u8]) -> usize
    ensures gap { result ≡ prefix_len (parts keys) line.now }
    ensures within { result ≤ length line.now }
{
    for i in 0..line.len() {
        if !parts(keys, line[i]) {
            return i;
        }
    }
    line.len()
}

// How many bytes the word has with which a line begins.
fn word_size(keys: bool, line: &[u8]) -> usize
    ensures size { result ≡ prefix_len (λ b. not (parts keys b)) line.now }
    ensures within { result ≤ length line.now }
{
    for i in 0..line.len() {
        if parts(keys, line[i]) {
            return i;
        }
    }
    line.len()
}

/// The first word of a line, and what stands after it; `keys` tells that the line stands in an interstage.
pub(crate) fn cut_word(keys: bool, line: &[u8]) -> Option<(&[u8], &[u8])>
    ensures { MatchOption result (words keys line.now ≡ []) (λ p. words keys line.now ≡ p.0.now ∷ words keys p.1.now) }
{
    let (_, rest) = line.split_at(gap(keys, line));
    if rest.is_empty() {
        return None;
    }
    Some(rest.split_at(word_size(keys, rest)))
}

/// The first word of a line; no bytes where it has none.
pub(crate) fn first_word(keys: bool, line: &[u8]) -> &[u8]
    ensures { result.now ≡ word (words keys line.now) 0 }
{
    match cut_word(keys, line) {
        Some((word, _)) => word,
        None => &[],
    }
}

/// The place of the first word of the line with this number.
pub(crate) fn first_spot(number: u32, line: &[u8]) -> Spot
    ensures { result ≡ first_spot number line.now }
{
    let from = gap(false, line);
    let (_, rest) = line.split_at(from);
    Spot {
        line: number,
        from,
        to: from + word_size(false, rest),
    }
}

/// The word after the `$` with which a line begins.
pub(crate) fn dollar_word(line: &[u8]) -> Option<&[u8]>
    ensures { MatchOption result (dollar_word (words false line.now) ≡ None)
        (λ w. dollar_word (words false line.now) ≡ Some w.now) }
{
    let (word, _) = cut_word(false, line)?;
    match word.split_first() {
        Some((b'$', rest)) => Some(rest),
        _ => None,
    }
}
