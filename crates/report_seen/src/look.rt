// The words behind the seconds of a diagram.
ghost use Rattle.std.specs.Prelude.{◌≡◌, ◌+◌, ◌<◌, ◌≤◌, ◌==◌, ◌&&◌, [], ◌∷◌, IfSome, IsTrue, length, map, string_bytes};
ghost use Rattle.log_svg.specs.LookIn.{look_in};
ghost use Rattle.log_svg.specs.Words.{IsLook};
ghost use Rattle.report_seen.specs.Look.{byte_at, clock_by, clock_of, fine_to, is_digit, is_fine, is_no_character, is_title, look_of, looked_by, pair_at};
ghost use Rattle.report_seen.specs.Look.{two_digits, with_begin, with_title};

use log_svg::Look;
use sig_types::text::number;

// How many seconds a strip of a diagram has, where no word says it.
const STRIP: u32 = 120;

// A byte of a word; 0 behind it.
fn byte_at(word: &[u8], place: usize) -> u8
    ensures { result ≡ byte_at word.now place }
{
    match word.get(place) {
        Some(byte) => *byte,
        None => 0,
    }
}

// Whether the byte is a digit.
fn is_digit(byte: u8) -> bool
    ensures digit { result ≡ is_digit byte }
    ensures range { IsTrue result → (48 ≤ byte) × (byte ≤ 57) }
{
    48 <= byte && byte <= 57
}

// The number of two digits, where it is at most this one.
fn two_digits(most: u32, a: u8, b: u8) -> Option<u32>
    ensures number { result ≡ two_digits most a b }
    ensures range { IfSome result (λ n. n ≤ most) }
{
    if is_digit(a) && is_digit(b) {
        let number = 10 * u32::from(a - 48) + u32::from(b - 48);
        if number <= most {
            return Some(number);
        }
    }
    None
}

// The number of the two digits of a word from this place on.
fn pair_at(word: &[u8], most: u32, place: usize) -> Option<u32>
    requires { place < 10 }
    ensures number { result ≡ pair_at word.now most place }
    ensures range { IfSome result (λ n. n ≤ most) }
{
    two_digits(most, byte_at(word, place), byte_at(word, place + 1))
}

// The seconds after midnight of hours, minutes and seconds.
fn clock_by(hours: Option<u32>, minutes: Option<u32>, seconds: Option<u32>) -> Option<u32>
    requires hours { IfSome hours (λ n. n ≤ 23) }
    requires minutes { IfSome minutes (λ n. n ≤ 59) }
    requires seconds { IfSome seconds (λ n. n ≤ 59) }
    ensures clock { result ≡ clock_by hours minutes seconds }
    ensures range { IfSome result (λ n. n < 86400) }
{
    let Some(hours) = hours else {
        return None;
    };
    let Some(minutes) = minutes else {
        return None;
    };
    match seconds {
        Some(seconds) => Some(hours * 3600 + minutes * 60 + seconds),
        None => None,
    }
}

// `HH:MM:SS` or `HH:MM`
fn clock_of(word: &[u8]) -> Option<u32>
    ensures clock { result ≡ clock_of word.now }
    ensures range { IfSome result (λ n. n < 86400) }
{
    if word.len() == 8 && (byte_at(word, 2) == b':' && byte_at(word, 5) == b':') {
        clock_by(
            pair_at(word, 23, 0),
            pair_at(word, 59, 3),
            pair_at(word, 59, 6),
        )
    } else if word.len() == 5 && byte_at(word, 2) == b':' {
        clock_by(pair_at(word, 23, 0), pair_at(word, 59, 3), Some(0))
    } else {
        None
    }
}

// Whether the bytes from this place on are one of the two characters that an SVG may not have, beside the control characters.
fn is_no_character(title: &[u8], place: usize) -> bool
    requires { place < 100 }
    ensures { result ≡ is_no_character title.now place }
{
    byte_at(title, place) == 239
        && (byte_at(title, place + 1) == 191 && 190 <= byte_at(title, place + 2))
}

// Whether no control character stands at this place, and no such character begins there.
fn is_fine(title: &[u8], place: usize) -> bool
    requires { place < 100 }
    ensures { result ≡ is_fine title.now place }
{
    let byte = byte_at(title, place);
    32 <= byte && (byte != 127 && !is_no_character(title, place))
}

// Whether that is so, and nothing was wrong before.
fn and_fine(fine: bool, title: &[u8], place: usize) -> bool
    requires { place < 100 }
    ensures { result ≡ (fine && is_fine title.now place) }
{
    fine && is_fine(title, place)
}

// Whether none stands at any place.
fn is_all_fine(title: &[u8]) -> bool
    requires { length title.now ≤ 80 }
    ensures { result ≡ fine_to title.now (length title.now) }
{
    let mut fine = true;
    for place in 0..title.len() {
        fine = and_fine(fine, title, place);
    }
    fine
}

// Whether it is a title.
fn is_title(title: &[u8]) -> bool
    ensures title { result ≡ is_title title.now }
    ensures short { IsTrue result → length title.now ≤ 80 }
{
    if 1 <= title.len() && title.len() <= 80 {
        is_all_fine(title)
    } else {
        false
    }
}

// With the time of the day at which second 1 begins.
fn with_clock<'a>(strip: u32, title: &'a str, option: &str, clock: &str) -> Option<Look<'a>>
    requires strip { (30 ≤ strip) × (strip ≤ 600) }
    requires title { length title.now ≤ 80 }
    ensures look { looked_by result ≡ with_begin strip title.now (option.now ∷ clock.now ∷ []) }
    ensures fits { IfSome result (λ l. IsLook (look_in l)) }
{
    if option != "--begin" {
        return None;
    }
    match clock_of(clock.as_bytes()) {
        Some(begin) => Some(Look {
            strip,
            title,
            begin: Some(begin),
            minimums: &[],
            stages: &[],
        }),
        None => None,
    }
}

// Nothing, or `--begin HH:MM:SS`.
fn with_begin<'a>(strip: u32, title: &'a str, words: &'a [String]) -> Option<Look<'a>>
    requires strip { (30 ≤ strip) × (strip ≤ 600) }
    requires title { length title.now ≤ 80 }
    ensures look { looked_by result ≡ with_begin strip title.now (map string_bytes words.now) }
    ensures fits { IfSome result (λ l. IsLook (look_in l)) }
{
    match words {
        [] => Some(Look {
            strip,
            title,
            begin: None,
            minimums: &[],
            stages: &[],
        }),
        [_] => None,
        [option, clock] => with_clock(strip, title, option.as_str(), clock.as_str()),
        [_, _, _, ..] => None,
    }
}

// `--title TEXT`, where it is given, and what follows.
fn with_title<'a>(strip: u32, words: &'a [String]) -> Option<Look<'a>>
    requires strip { (30 ≤ strip) × (strip ≤ 600) }
    ensures look { looked_by result ≡ with_title strip (map string_bytes words.now) }
    ensures fits { IfSome result (λ l. IsLook (look_in l)) }
{
    let [option, title, rest @ ..] = words else {
        return with_begin(strip, "", words);
    };
    if option.as_str() != "--title" {
        return with_begin(strip, "", words);
    }
    if is_title(title.as_bytes()) {
        with_begin(strip, title.as_str(), rest)
    } else {
        None
    }
}

/// How the words behind the seconds of a diagram ask it to look: `--strip N`, `--title TEXT` and `--begin HH:MM:SS`, in this order,
/// each where it is wanted.
pub fn look_of(words: &[String]) -> Option<Look<'_>>
    ensures look { looked_by result ≡ look_of (map string_bytes words.now) }
    ensures fits { IfSome result (λ l. IsLook (look_in l)) }
{
    let [option, n, rest @ ..] = words else {
        return with_title(STRIP, words);
    };
    if option.as_str() != "--strip" {
        return with_title(STRIP, words);
    }
    match number(n.as_bytes(), 30, 600) {
        Some(strip) => with_title(strip, rest),
        None => None,
    }
}
