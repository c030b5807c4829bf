// Bytes and ends of a line.
ghost use Rattle.std.specs.Prelude.{◌≡◌, ◌≤◌, length};
ghost use Rattle.line_slips.specs.Bytes.{begins, begins_with_decimal, begins_with_two, behind_word, has_blank, has_decimal, has_two_spaces};
ghost use Rattle.line_slips.specs.Bytes.{is_blank, is_word_byte, last_byte, trimmed, trimmed_end};

use sig_types::text::{is_digit, is_letter, same_name};

/// A blank or a tab.
pub(crate) fn is_blank(b: u8) -> bool
    ensures { result ≡ is_blank b }
{
    b == b' ' || b == b'\t'
}

/// A letter, a digit or `_`.
pub(crate) fn is_word_byte(b: u8) -> bool
    ensures { result ≡ is_word_byte b }
{
    is_letter(b) || is_digit(b)
}

/// Whether a text begins with these bytes, whatever the case of their letters.
#[tactic(auto, unfolding(crate::specs::Bytes::begins))]
pub(crate) fn begins(text: &[u8], start: &[u8]) -> bool
    ensures { result ≡ begins text.now start.now }
{
    let (head, _) = text.split_at(start.len().min(text.len()));
    same_name(head, start)
}

/// The byte that a text ends with; 0 where it has none.
#[tactic(auto, unfolding(crate::specs::Bytes::last_byte))]
pub(crate) fn last_byte(text: &[u8]) -> u8
    ensures { result ≡ last_byte text.now }
{
    if text.is_empty() {
        0
    } else {
        text[text.len() - 1]
    }
}

/// A text without the white space at its end.
#[tactic(auto, unfolding(crate::specs::Bytes::trimmed_end))]
pub(crate) fn trimmed_end(text: &[u8]) -> &[u8]
    ensures { result.now ≡ trimmed_end text.now }
{
    text.trim_ascii_end()
}

/// A text without the white space around it.
#[tactic(auto, unfolding(crate::specs::Bytes::trimmed))]
pub fn trimmed(text: &[u8]) -> &[u8]
    ensures { result.now ≡ trimmed text.now }
{
    trimmed_end(text.trim_ascii_start())
}

/// Whether a line has a blank or a tab.
pub(crate) fn has_blank(line: &[u8]) -> bool
    ensures { result ≡ has_blank line.now }
{
    line.iter().any(|b| is_blank(*b))
}

// Whether a text begins with a digit, a point or a comma, and a digit.
#[tactic(auto, unfolding(crate::specs::Bytes::begins_with_decimal))]
fn begins_with_decimal(text: &[u8]) -> bool
    ensures { result ≡ begins_with_decimal text.now }
{
    3 <= text.len()
        && is_digit(text[0])
        && (text[1] == b'.' || text[1] == b',')
        && is_digit(text[2])
}

/// Whether a line has a decimal.
pub(crate) fn has_decimal(line: &[u8]) -> bool
    ensures { result ≡ has_decimal line.now }
{
    for i in 0..line.len() {
        let (_, here) = line.split_at(i);
        if begins_with_decimal(here) {
            return true;
        }
    }
    false
}

// Whether a text begins with two spaces.
#[tactic(auto, unfolding(crate::specs::Bytes::begins_with_two))]
fn begins_with_two(text: &[u8]) -> bool
    ensures { result ≡ begins_with_two text.now }
{
    2 <= text.len() && text[0] == b' ' && text[1] == b' '
}

/// Whether a line has two spaces with nothing between them.
pub(crate) fn has_two_spaces(line: &[u8]) -> bool
    ensures { result ≡ has_two_spaces line.now }
{
    for i in 0..line.len() {
        let (_, here) = line.split_at(i);
        if begins_with_two(here) {
            return true;
        }
    }
    false
}

/// What stands behind the first word of a line.
#[tactic(auto, unfolding(crate::specs::Bytes::behind_word))]
pub(crate) fn behind_word(line: &[u8]) -> &[u8]
    ensures { result.now ≡ behind_word line.now }
{
    for i in 0..line.len() {
        if is_blank(line[i]) {
            let (_, behind) = line.split_at(i);
            return behind;
        }
    }
    &[]
}
