// The entries of a line.
ghost use Rattle.std.specs.Prelude.{◌≡◌, ◌<◌, ◌≤◌, ◌-◌, length, replicate, Some, None, true, false, MatchOption, OnOk, IfOk, IfSome, is_some, ◌&&◌, ◌==◌, ◌+◌, ◌*◌, drop, position};
ghost use Rattle.sig_types.specs.Text.{is_digit};
ghost use Rattle.det_stream.specs.Totals.{HasAtMost, IsSum, RearsWithinFronts};
ghost use Rattle.det_stream.specs.Entries.{BeginsWith, HasNumbers, HasParts, IsJudged, ends_at, entries_reason, entry_end, field_number, first_entry, frame_of, numbers_of, numbers_why};

use crate::refusal::StreamWhy;
use crate::totals::{Totals, add_counts};
use sig_types::Frame;
use sig_types::text::{cut_at, is_digit, is_number, number};

// A detector with its fronts and rears.
#[derive(Clone, Copy)]
struct Entry {
    detector: u32,
    fronts: u32,
    rears: u32,
}

// Whether this is a decimal number of at most 9 digits.
fn is_field(bytes: &[u8]) -> bool
    ensures { result ≡ is_some (field_number bytes.now) }
{
    bytes.len() <= 9 && is_number(bytes)
}

// The detector, fronts and rears of an entry, where it has three parts with colons between.
fn cut_entry(entry: &[u8]) -> Option<(&[u8], &[u8], &[u8])>
    ensures { MatchOption result (numbers_of entry.now ≡ None) (λ p. HasParts entry.now p.0.now p.1.now p.2.now) }
{
    let Some((detector, rest)) = cut_at(b':', entry) else {
        return None;
    };
    let Some((fronts, rears)) = cut_at(b':', rest) else {
        return None;
    };
    match cut_at(b':', rears) {
        Some(_) => None,
        None => Some((detector, fronts, rears)),
    }
}

// Whether all three parts of an entry are decimal numbers of at most 9 digits.
fn are_numbers(d: &[u8], f: &[u8], r: &[u8]) -> bool
    ensures { result ≡ (is_some (field_number d.now) && is_some (field_number f.now) && is_some (field_number r.now)) }
{
    is_field(d) && is_field(f) && is_field(r)
}

// The three numbers of an entry, where it has its form.
fn entry_numbers(entry: &[u8]) -> Option<(&[u8], &[u8], &[u8])>
    ensures { MatchOption result (numbers_of entry.now ≡ None) (λ p. HasNumbers entry.now p.0.now p.1.now p.2.now) }
{
    let Some((detector, fronts, rears)) = cut_entry(entry) else {
        return None;
    };
    if !are_numbers(detector, fronts, rears) {
        return None;
    }
    Some((detector, fronts, rears))
}

// The number of a digit.
fn digit(b: u8) -> u32
    requires { is_digit b ≡ true }
    ensures value { result ≡ b - 48 }
    ensures few { result ≤ 9 }
{
    u32::from(b - b'0')
}

// Whether there is a space or the end of the text at that place.
fn ends_at(text: &[u8], place: usize) -> bool
    requires { place ≤ length text.now }
    ensures { result ≡ ends_at text.now place }
{
    place == text.len() || text[place] == b' '
}

// The numbers of the entry that a text begins with, where it is three digits with colons between, as most entries are.
fn entry_of_five(text: &[u8]) -> Option<(u32, u32, u32)>
    ensures begins { IfSome result (λ n. BeginsWith text.now 5 (n.0, n.1, n.2)) }
    ensures few { IfSome result (λ n. (n.0 ≤ 9) × (n.1 ≤ 9) × (n.2 ≤ 9)) }
{
    if text.len() < 5 || text[1] != b':' || text[3] != b':' || !ends_at(text, 5) {
        return None;
    }
    if !is_digit(text[0]) || !is_digit(text[2]) || !is_digit(text[4]) {
        return None;
    }
    Some((digit(text[0]), digit(text[2]), digit(text[4])))
}

// The numbers of the entry that a text begins with, where its detector has two digits, and its fronts and rears one each.
fn entry_of_six(text: &[u8]) -> Option<(u32, u32, u32)>
    ensures begins { IfSome result (λ n. BeginsWith text.now 6 (n.0, n.1, n.2)) }
    ensures few { IfSome result (λ n. (n.0 ≤ 99) × (n.1 ≤ 9) × (n.2 ≤ 9)) }
{
    if text.len() < 6 || text[2] != b':' || text[4] != b':' || !ends_at(text, 6) {
        return None;
    }
    if !is_digit(text[0]) || text[0] == b'0' || !is_digit(text[1]) {
        return None;
    }
    if !is_digit(text[3]) || !is_digit(text[5]) {
        return None;
    }
    let detector = 10 * digit(text[0]) + digit(text[1]);
    Some((detector, digit(text[3]), digit(text[5])))
}

// The numbers and the length of the entry that a text begins with, where its detector has one digit or two, and its fronts
// and rears one each.
fn short_entry(text: &[u8]) -> Option<((u32, u32, u32), usize)>
    ensures begins { IfSome result (λ p. BeginsWith text.now p.1 (p.0.0, p.0.1, p.0.2)) }
    ensures few { IfSome result (λ p. (p.0.1 ≤ 9) × (p.0.2 ≤ 9)) }
{
    if let Some(numbers) = entry_of_five(text) {
        return Some((numbers, 5));
    }
    match entry_of_six(text) {
        Some(numbers) => Some((numbers, 6)),
        None => None,
    }
}

// The entry of these numbers, which follows one of the detector `last`.
fn read_digits(last: u32, numbers: (u32, u32, u32)) -> Result<Entry, StreamWhy>
    requires { (numbers.1 ≤ 9) × (numbers.2 ≤ 9) }
    ensures judged { IsJudged (numbers_why last (Some (numbers.0, numbers.1, numbers.2))) result }
    ensures numbers { IfOk result (λ e. (e.detector ≡ numbers.0) × (e.fronts ≡ numbers.1) × (e.rears ≡ numbers.2)) }
    ensures detector { IfOk result (λ e. (1 ≤ e.detector) × (e.detector ≤ 64)) }
    ensures rises { IfOk result (λ e. last < e.detector) }
    ensures counts { IfOk result (λ e. (e.fronts ≤ 99) × (e.rears ≤ 99)) }
{
    let (detector, fronts, rears) = numbers;
    if detector == 0 || detector > 64 {
        return Err(StreamWhy::Unknown);
    }
    if detector <= last {
        return Err(StreamWhy::Order);
    }
    Ok(Entry {
        detector,
        fronts,
        rears,
    })
}

// The entry, which follows one of the detector `last`, or the first one where that is 0.
fn read_entry(last: u32, entry: &[u8]) -> Result<Entry, StreamWhy>
    ensures judged { IsJudged (numbers_why last (numbers_of entry.now)) result }
    ensures numbers { IfOk result (λ e. numbers_of entry.now ≡ Some (e.detector, e.fronts, e.rears)) }
    ensures detector { IfOk result (λ e. (1 ≤ e.detector) × (e.detector ≤ 64)) }
    ensures rises { IfOk result (λ e. last < e.detector) }
    ensures counts { IfOk result (λ e. (e.fronts ≤ 99) × (e.rears ≤ 99)) }
{
    let Some((detector, fronts, rears)) = entry_numbers(entry) else {
        return Err(StreamWhy::Entry);
    };
    let Some(detector) = number(detector, 1, 64) else {
        return Err(StreamWhy::Unknown);
    };
    let Some(fronts) = number(fronts, 0, 99) else {
        return Err(StreamWhy::Range);
    };
    let Some(rears) = number(rears, 0, 99) else {
        return Err(StreamWhy::Range);
    };
    if detector <= last {
        return Err(StreamWhy::Order);
    }
    Ok(Entry {
        detector,
        fronts,
        rears,
    })
}

// Where the first space stands.
fn find_space(text: &[u8]) -> Option<usize>
    ensures { result ≡ position (λ b. b == 32) text.now }
{
    text.iter().position(|b| *b == b' ')
}

// Where the entry that a text begins with ends.
fn entry_end(text: &[u8]) -> usize
    ensures end { result ≡ entry_end text.now }
    ensures inside { result ≤ length text.now }
{
    match find_space(text) {
        Some(end) => end,
        None => text.len(),
    }
}

// What stands behind the space at that place.
fn behind(text: &[u8], place: usize) -> &[u8]
    requires { place < length text.now }
    ensures { result.now ≡ drop (place + 1) text.now }
{
    &text[place + 1..]
}

// The entry that a text begins with, and where it ends. It follows one of the detector `last`, or is the first one where
// that is 0.
fn next_entry(last: u32, text: &[u8]) -> Result<(Entry, usize), StreamWhy>
    ensures judged { IsJudged (numbers_why last (numbers_of (first_entry text.now))) result }
    ensures numbers { IfOk result (λ p. numbers_of (first_entry text.now) ≡ Some (p.0.detector, p.0.fronts, p.0.rears)) }
    ensures end { IfOk result (λ p. p.1 ≡ entry_end text.now) }
    ensures inside { IfOk result (λ p. p.1 ≤ length text.now) }
    ensures detector { IfOk result (λ p. (1 ≤ p.0.detector) × (p.0.detector ≤ 64)) }
    ensures rises { IfOk result (λ p. last < p.0.detector) }
    ensures counts { IfOk result (λ p. (p.0.fronts ≤ 99) × (p.0.rears ≤ 99)) }
{
    if let Some((numbers, end)) = short_entry(text) {
        return match read_digits(last, numbers) {
            Ok(entry) => Ok((entry, end)),
            Err(why) => Err(why),
        };
    }
    let end = entry_end(text);
    match read_entry(last, &text[..end]) {
        Ok(entry) => Ok((entry, end)),
        Err(why) => Err(why),
    }
}

// Reads the entries of a line that isn't empty into a frame without counts, and adds them to the counts so far; whether no
// detector has more rears than fronts in these.
fn read_some_entries(line: &[u8], totals: &mut Totals, frame: &mut Frame) -> Result<bool, StreamWhy>
    requires some { (length line.now == 0) ≡ false }
    requires clear { frame.old ≡ replicate 64 (0, 0) }
    requires totals { HasAtMost (99 * 604799) totals.old }
    requires within_fronts { RearsWithinFronts totals.old }
    ensures judged { IsJudged (entries_reason line.now) result }
    ensures frame { OnOk result (frame.new ≡ frame_of line.now) }
    ensures counts { OnOk result (HasAtMost 99 frame.new) }
    ensures size { OnOk result (length frame.new ≡ 64) }
    ensures sum { OnOk result (IsSum totals.old frame.new totals.new) }
    ensures within_fronts { IfOk result (λ within. within ≡ true → RearsWithinFronts totals.new) }
{
    let mut last = 0;
    let mut rest = line;
    let mut within = true;
    loop {
        let (entry, end) = match next_entry(last, rest) {
            Ok(found) => found,
            Err(why) => return Err(why),
        };
        let place = (entry.detector - 1) as u8;
        let counts = (entry.fronts, entry.rears);
        frame.set(place, counts);
        within = add_counts(totals, place, counts, within);
        last = entry.detector;
        if end == rest.len() {
            return Ok(within);
        }
        rest = behind(rest, end);
    }
}

/// Reads the entries of a line into a frame, whatever it had before, and adds them to the counts so far; whether no
/// detector has more rears than fronts in these.
#[inline(always)]
pub fn read_entries(line: &[u8], totals: &mut Totals, frame: &mut Frame) -> Result<bool, StreamWhy>
    requires totals { HasAtMost (99 * 604799) totals.old }
    requires within_fronts { RearsWithinFronts totals.old }
    ensures judged { IsJudged (entries_reason line.now) result }
    ensures frame { OnOk result (frame.new ≡ frame_of line.now) }
    ensures counts { OnOk result (HasAtMost 99 frame.new) }
    ensures size { OnOk result (length frame.new ≡ 64) }
    ensures sum { OnOk result (IsSum totals.old frame.new totals.new) }
    ensures within_fronts { IfOk result (λ within. within ≡ true → RearsWithinFronts totals.new) }
{
    frame.clear();
    if line.is_empty() {
        return Ok(true);
    }
    read_some_entries(line, totals, frame)
}
