// What a line behind the header says.
ghost use Rattle.std.specs.Prelude.{◌≡◌, ◌≤◌, ◌+◌, IfSome, IfOk, length};
ghost use Rattle.tenth_records.specs.Answers.{IsSized};
ghost use Rattle.tenth_records.specs.Record.{after, entry_of, is_late, shown_in, time_in};

use crate::entry::{Entry, Shown, TenthWhy};
use log_read::read_letters;
use sig_tables::tenths;
use sig_types::text::cut_at;

/// What was read before a line.
#[derive(Clone, Copy)]
pub(crate) struct Point {
    /// The first time, where there was one.
    pub(crate) first: Option<u32>,
    /// The earliest time that may follow.
    pub(crate) next: u32,
    /// Whether the end was read.
    pub(crate) ended: bool,
}

// The most tenths from the first time to the end: a week.
const WEEK: u32 = 6_048_000;

// The tenths of a time: seconds with a point and one digit.
fn time_in(text: &[u8]) -> Option<u32>
    ensures time { result ≡ time_in text.now }
    ensures at_most { IfSome result (λ n. n ≤ 999999999) }
{
    if cut_at(b'.', text).is_some() {
        tenths(text)
    } else {
        None
    }
}

// What stands behind the bar.
fn shown_in(groups: u8, text: &[u8]) -> Option<Shown>
    requires { groups ≤ 64 }
    ensures shown { result ≡ shown_in groups text.now }
    ensures sized { IfSome result (λ shown. IsSized groups shown) }
{
    if text == b"?".as_slice() {
        return Some(Shown::Unknown);
    }
    if text == b"-".as_slice() {
        return Some(Shown::End);
    }
    match read_letters(groups, text) {
        Some(picture) => Some(Shown::Picture(picture)),
        None => None,
    }
}

// Whether a time is more than a week after the first one.
fn is_late(first: Option<u32>, at: u32) -> bool
    requires { IfSome first (λ n. n ≤ 999999999) }
    ensures { result ≡ is_late first at }
{
    match first {
        Some(first) => first + WEEK < at,
        None => false,
    }
}

/// What a line of this many groups says at this point. It has at most 262,144 bytes.
#[tactic(auto, unfolding(crate::specs::Record::entry_of))]
pub(crate) fn entry_of(groups: u8, point: Point, line: &[u8]) -> Result<Entry, TenthWhy>
    requires groups { groups ≤ 64 }
    requires first { IfSome point.first (λ n. n ≤ 999999999) }
    requires short { length line.now ≤ 262144 }
    ensures entry { result ≡ entry_of groups point line.now }
    ensures at_most { IfOk result (λ e. e.at ≤ 999999999) }
    ensures sized { IfOk result (λ e. IsSized groups e.shown) }
    ensures later { IfOk result (λ e. point.next ≤ e.at) }
    ensures within { IfOk result (λ e. IfSome point.first (λ n. e.at ≤ n + 6048000)) }
{
    if point.ended {
        return Err(TenthWhy::AfterEnd);
    }
    let Some((time, text)) = cut_at(b'|', line) else {
        return Err(TenthWhy::Time);
    };
    let Some(at) = time_in(time) else {
        return Err(TenthWhy::Time);
    };
    if at < point.next {
        return Err(TenthWhy::Order);
    }
    if is_late(point.first, at) {
        return Err(TenthWhy::TooManySeconds);
    }
    match shown_in(groups, text) {
        Some(shown) => Ok(Entry { at, shown }),
        None => Err(TenthWhy::Aspects),
    }
}

/// The point behind an entry.
pub(crate) fn after(point: Point, entry: &Entry) -> Point
    requires { entry.now.at ≤ 999999999 }
    ensures { result ≡ after point entry.now }
{
    let first = match point.first {
        Some(first) => first,
        None => entry.at,
    };
    let ended = match entry.shown {
        Shown::End => true,
        Shown::Picture(_) => false,
        Shown::Unknown => false,
    };
    Point {
        first: Some(first),
        next: entry.at + 1,
        ended,
    }
}
