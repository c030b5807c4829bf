// Numbers and names in a text: what the readers of all formats share.
ghost use Rattle.std.specs.Prelude.{◌≡◌, ◌≤◌, ◌<◌, ◌^◌, None, Some, MatchOption, IfSome, IsTrue, is_some, length, if◌then◌else◌};
ghost use Rattle.sig_types.specs.Text.{all_digits, cut_at, strip, number_of, value_from, within, is_digit, is_letter, is_name, is_word, lower, same_name};

/// What stands before the first `stop`, and what stands after it; None where no `stop` stands.
pub fn cut_at(stop: u8, bytes: &[u8]) -> Option<(&[u8], &[u8])>
    ensures { MatchOption result (cut_at stop bytes.now ≡ None) (λ p. cut_at stop bytes.now ≡ Some (p.0.now, p.1.now)) }
{
    for (i, b) in bytes.iter().enumerate() {
        if *b == stop {
            let (front, rest) = bytes.split_at(i);
            let (_, rest) = rest.split_at(1);
            return Some((front, rest));
        }
    }
    None
}

/// What follows `front` in a text that begins with it; None where it doesn't.
pub fn strip<'a>(front: &[u8], bytes: &'a [u8]) -> Option<&'a [u8]>
    ensures { MatchOption result (strip front.now bytes.now ≡ None) (λ rest. strip front.now bytes.now ≡ Some rest.now) }
{
    if bytes.len() < front.len() {
        return None;
    }
    let (head, rest) = bytes.split_at(front.len());
    if head == front { Some(rest) } else { None }
}

/// Whether the byte is an ASCII digit, `0` to `9`.
pub fn is_digit(b: u8) -> bool
    ensures { result ≡ is_digit b }
{
    b'0' <= b && b <= b'9'
}

// The number that the bytes are, where they are digits and it is at most `most`.
fn digits(bytes: &[u8], most: u64) -> Option<u64>
    ensures { result ≡ (if all_digits bytes.now then within 0 most (Some (value_from 0 bytes.now)) else None) }
{
    let mut value = 0u128;
    for b in bytes {
        if !is_digit(*b) {
            return None;
        }
        if value > most as u128 {
            return None;
        }
        value = 10 * value + (*b - b'0') as u128;
    }
    if value <= most as u128 {
        Some(value as u64)
    } else {
        None
    }
}

// Whether all bytes are digits.
fn all_digits(bytes: &[u8]) -> bool
    ensures { result ≡ all_digits bytes.now }
{
    for b in bytes {
        if !is_digit(*b) {
            return false;
        }
    }
    true
}

/// Whether the bytes are a decimal number: `0`, or digits of which the first is no `0`. Any length will do.
pub fn is_number(bytes: &[u8]) -> bool
    ensures { result ≡ is_some (number_of bytes.now) }
{
    match bytes {
        [] => false,
        [b'0', _, ..] => false,
        _ => all_digits(bytes),
    }
}

/// The decimal number of 64 bits that the bytes are, where it is one from `least` to `most`; None for any other bytes,
/// of any length.
pub fn number64(bytes: &[u8], least: u64, most: u64) -> Option<u64>
    ensures value { result ≡ within least most (number_of bytes.now) }
    ensures range { IfSome result (λ n. (least ≤ n) × (n ≤ most)) }
{
    match bytes {
        [] => None,
        [b'0', _, ..] => None,
        _ => match digits(bytes, most) {
            Some(value) if least <= value => Some(value),
            _ => None,
        },
    }
}

/// The decimal number of 32 bits that the bytes are, where it is one from `least` to `most`; None for any other bytes.
pub fn number(bytes: &[u8], least: u32, most: u32) -> Option<u32>
    ensures value { result ≡ within least most (number_of bytes.now) }
    ensures range { IfSome result (λ n. (least ≤ n) × (n ≤ most)) }
{
    match number64(bytes, least as u64, most as u64) {
        Some(n) => Some(n as u32),
        None => None,
    }
}

/// Whether the byte is an ASCII letter, `A` to `Z` or `a` to `z`, or `_`.
pub fn is_letter(b: u8) -> bool
    ensures { result ≡ is_letter b }
{
    (b'A' <= b && b <= b'Z') || (b'a' <= b && b <= b'z') || b == b'_'
}

/// Whether all bytes are ASCII letters, digits or `_`.
pub fn is_word(bytes: &[u8]) -> bool
    ensures { result ≡ is_word bytes.now }
{
    for b in bytes {
        if !is_letter(*b) && !is_digit(*b) {
            return false;
        }
    }
    true
}

/// Whether the bytes are a name: a letter or `_`, then letters, digits and `_`, 1 to 32 bytes in all.
pub fn is_name(bytes: &[u8]) -> bool
    ensures name { result ≡ is_name bytes.now }
    ensures length { IsTrue result → (0 < length bytes.now) × (length bytes.now ≤ 32) }
{
    match bytes.split_first() {
        Some((first, rest)) => is_letter(*first) && is_word(rest) && rest.len() <= 31,
        None => false,
    }
}

/// The byte with an ASCII capital turned to its small letter.
pub fn lower(b: u8) -> u8
    ensures { result ≡ lower b }
{
    if b'A' <= b && b <= b'Z' { b + 32 } else { b }
}

/// Whether two names are the same without regard to ASCII case.
pub fn same_name(x: &[u8], y: &[u8]) -> bool
    ensures { result ≡ same_name x.now y.now }
{
    if x.len() != y.len() {
        return false;
    }
    for i in 0..x.len() {
        if lower(x[i]) != lower(y[i]) {
            return false;
        }
    }
    true
}
