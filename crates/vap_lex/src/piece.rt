// What stands at the beginning of a text.
ghost use Rattle.std.specs.Prelude.{◌≡◌, ◌<◌, ◌≤◌, ◌^◌, length, take, IfOk, IfSome};
ghost use Rattle.sig_types.specs.Text.{is_digit};
ghost use Rattle.vap_ast.specs.Name.{is_word_byte, IsWord};
ghost use Rattle.vap_lex.specs.Piece as spec;
ghost use Rattle.vap_lex.specs.Piece.{IsNumbered};
ghost use Rattle.vap_lex.specs.declared.piece.Piece.TheVariants.{Word};

use crate::token::Sign;
use sig_types::text::{is_digit, is_letter};

/// Why a text has no token at a place.
#[derive(Clone, Copy, Debug)]
pub enum LexWhy {
    /// 1: a byte that begins nothing.
    Byte = 1,
    /// 2: a comment that is not closed; the line is that of its beginning.
    OpenComment = 2,
    /// 3: a number with a decimal point.
    Decimal = 3,
    /// 4: a number above 2,147,483,647.
    NumberRange = 4,
}

/// What stands at a place of a text.
#[derive(Clone, Copy)]
pub(crate) enum Piece {
    /// A blank or a comment.
    Gap,
    /// A word, reserved or a name.
    Word,
    /// A number and its value.
    Number(i32),
    /// A sign.
    Sign(Sign),
}

// The largest number of a text.
const MOST: u64 = 2_147_483_647;

// Whether a byte is a space, a tab, a carriage return or a line feed.
fn is_blank(b: u8) -> bool
    ensures { result ≡ spec.is_blank b }
{
    b == b' ' || b == b'\t' || b == b'\r' || b == b'\n'
}

// Whether a word may go on with a byte.
fn is_word_byte(b: u8) -> bool
    ensures { result ≡ is_word_byte b }
{
    is_letter(b) || is_digit(b)
}

// How many bytes from the beginning on a word may have.
fn word_len(bytes: &[u8]) -> usize
    ensures len { result ≡ spec.run_len is_word_byte bytes.now }
    ensures within { result ≤ length bytes.now }
{
    bytes.iter().take_while(|b| is_word_byte(**b)).count()
}

// How many digits stand at the beginning.
fn digits_len(bytes: &[u8]) -> usize
    ensures len { result ≡ spec.run_len is_digit bytes.now }
    ensures within { result ≤ length bytes.now }
{
    bytes.iter().take_while(|b| is_digit(**b)).count()
}

// The bytes up to the end of a comment, that included.
fn comment_len(bytes: &[u8]) -> Option<usize>
    ensures len { result ≡ spec.comment_len bytes.now }
    ensures within { IfSome result (λ n. n ≤ length bytes.now) }
{
    let mut rest = bytes;
    let mut passed = 0;
    while let [first, after @ ..] = rest {
        if *first == b'*' && begins_slash(after) {
            return Some(passed + 2);
        }
        passed += 1;
        rest = after;
    }
    None
}

// Whether the bytes begin with `/`.
fn begins_slash(bytes: &[u8]) -> bool
    ensures { result ≡ spec.begins_slash bytes.now }
{
    match bytes {
        [] => false,
        [first, ..] => *first == b'/',
    }
}

// The value of the digits, where it is not too large.
fn number(digits: &[u8]) -> Option<u32>
    ensures value { result ≡ spec.number digits.now }
    ensures at_most { IfSome result (λ n. n ≤ 2147483647) }
{
    let mut value: u64 = 0;
    for digit in digits {
        value = value * 10 + u64::from(digit.saturating_sub(b'0'));
        if value > MOST {
            return None;
        }
    }
    Some(value as u32)
}

// The byte at a place, or 0 past the end.
fn byte_at(bytes: &[u8], place: usize) -> u8
    ensures byte { result ≡ spec.byte_at bytes.now place }
    ensures here { 0 < result → place < length bytes.now }
{
    match bytes.get(place) {
        Some(byte) => *byte,
        None => 0,
    }
}

// The sign of one byte.
fn short_sign(byte: u8) -> Option<Sign>
    ensures sign { result ≡ spec.short_sign byte }
    ensures not_zero { IfSome result (λ s. 0 < byte) }
{
    match byte {
        b':' => Some(Sign::Colon),
        b';' => Some(Sign::Semi),
        b',' => Some(Sign::Comma),
        b'.' => Some(Sign::Dot),
        b'(' => Some(Sign::Open),
        b')' => Some(Sign::Close),
        b'[' => Some(Sign::OpenIndex),
        b']' => Some(Sign::CloseIndex),
        b'=' => Some(Sign::Eq),
        b'<' => Some(Sign::Lt),
        b'>' => Some(Sign::Gt),
        b'+' => Some(Sign::Plus),
        b'-' => Some(Sign::Minus),
        b'*' => Some(Sign::Star),
        b'/' => Some(Sign::Slash),
        _ => None,
    }
}

// The sign of two bytes.
fn long_sign(first: u8, second: u8) -> Option<Sign>
    ensures sign { result ≡ spec.long_sign first second }
    ensures not_zero { IfSome result (λ s. 0 < second) }
{
    if first == b':' && second == b'=' {
        Some(Sign::Assign)
    } else if first == b'<' && second == b'>' {
        Some(Sign::Ne)
    } else if first == b'<' && second == b'=' {
        Some(Sign::Le)
    } else if first == b'>' && second == b'=' {
        Some(Sign::Ge)
    } else {
        None
    }
}

// The longest sign at the beginning, and how many bytes it has.
#[tactic(auto, unfolding(crate::specs::Piece::sign))]
fn sign(bytes: &[u8]) -> Result<(Piece, usize), LexWhy>
    ensures sign { result ≡ spec.sign bytes.now }
    ensures within { IfOk result (λ r. (0 < r.1) × (r.1 ≤ length bytes.now)) }
    ensures unsigned { IfOk result (λ r. IsNumbered r.0) }
    ensures word { IfOk result (λ r. r.0 ≡ Word → IsWord (take r.1 bytes.now)) }
{
    if let Some(sign) = long_sign(byte_at(bytes, 0), byte_at(bytes, 1)) {
        return Ok((Piece::Sign(sign), 2));
    }
    match short_sign(byte_at(bytes, 0)) {
        Some(sign) => Ok((Piece::Sign(sign), 1)),
        None => Err(LexWhy::Byte),
    }
}

// The number at the beginning, and how many digits it has.
#[tactic(auto, unfolding(crate::specs::Piece::digits))]
fn digits(bytes: &[u8]) -> Result<(Piece, usize), LexWhy>
    requires not_empty { 0 < length bytes.now }
    requires short { length bytes.now < 2 ^ 32 }
    ensures digits { result ≡ spec.digits bytes.now }
    ensures within { IfOk result (λ r. (0 < r.1) × (r.1 ≤ length bytes.now)) }
    ensures unsigned { IfOk result (λ r. IsNumbered r.0) }
    ensures word { IfOk result (λ r. r.0 ≡ Word → IsWord (take r.1 bytes.now)) }
{
    let len = digits_len(&bytes[1..]) + 1;
    if byte_at(bytes, len) == b'.' && is_digit(byte_at(bytes, len + 1)) {
        return Err(LexWhy::Decimal);
    }
    match number(&bytes[..len]) {
        Some(value) => Ok((Piece::Number(value as i32), len)),
        None => Err(LexWhy::NumberRange),
    }
}

/// What stands at the beginning, and how many bytes it has.
#[tactic(auto, unfolding(crate::specs::Piece::beginning))]
pub(crate) fn beginning(bytes: &[u8]) -> Result<(Piece, usize), LexWhy>
    requires not_empty { 0 < length bytes.now }
    requires short { length bytes.now < 2 ^ 32 }
    ensures beginning { result ≡ spec.beginning bytes.now }
    ensures within { IfOk result (λ r. (0 < r.1) × (r.1 ≤ length bytes.now)) }
    ensures unsigned { IfOk result (λ r. IsNumbered r.0) }
    ensures word { IfOk result (λ r. r.0 ≡ Word → IsWord (take r.1 bytes.now)) }
{
    let first = byte_at(bytes, 0);
    if is_blank(first) {
        Ok((Piece::Gap, 1))
    } else if first == b'/' && byte_at(bytes, 1) == b'*' {
        match comment_len(&bytes[2..]) {
            Some(len) => Ok((Piece::Gap, len + 2)),
            None => Err(LexWhy::OpenComment),
        }
    } else if is_letter(first) {
        Ok((Piece::Word, word_len(bytes.split_at(1).1) + 1))
    } else if is_digit(first) {
        digits(bytes)
    } else {
        sign(bytes)
    }
}
