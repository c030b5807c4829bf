// The first difference of two logs.
ghost use Rattle.std.specs.Prelude.{◌≡◌, ◌<◌, ◌≤◌, ℕ, List, IfOk, None, true, false, length};
ghost use Rattle.sig_io.specs.Draft.{Puts};
ghost use Rattle.sig_types.specs.declared.record.Record.{Record};
ghost use Rattle.log_read.specs.declared.begin.Begin.{Begin};
ghost use Rattle.log_read.specs.Readings.{IsRecords};
ghost use Rattle.log_read.specs.Records.{IsEntry};
ghost use Rattle.log_compare.specs.Difference.{IsDifference};
ghost use Rattle.log_compare.specs.Stepping.{IsStep};
ghost use Rattle.log_compare.specs.Text.{difference_text, ends_text};

use crate::alike::are_alike;
use crate::fields::put_lines;
use crate::lines::{behind_header, next_told};
use crate::long::put_long;
use log_read::read_record;
use sig_io::{Draft, Sink};
use sig_types::{
    Frame, Memory, Picture, Record, Second, ShortName, StagePlace, StageRefusals, TurnRefusals,
};
use std::alloc::Global;

/// The first difference of two logs of the same groups.
#[derive(Clone, Copy)]
pub enum Difference<'a> {
    /// They have the same records.
    Nowhere,
    /// The one log ends with this second, and the other goes on; up to it they have the same records.
    OneEnds(u32),
    /// The other log ends with this second, and the one goes on.
    OtherEnds(u32),
    /// This is the first second in which they have different records, whose lines these are.
    In {
        /// The second.
        second: u32,
        /// The line of the one log.
        one: &'a [u8],
        /// The line of the other log.
        other: &'a [u8],
    },
}

// Two records that are read again and again.
#[derive(Drop)]
struct Pair {
    one: Record,
    other: Record,
}

// A record of no second.
fn no_record(alloc: Global) -> Result<Record, Memory> {
    let stages = StageRefusals::with_room(alloc)?;
    Ok(Record {
        second: Second(0),
        place: StagePlace::NoPlan,
        picture: Picture::all_red(0),
        frame: Frame::empty(),
        stages,
        turns: TurnRefusals::empty(),
        fault: None,
    })
}

impl Pair {
    // Two records of no second.
    fn new(alloc: Global) -> Result<Pair, Memory> {
        let one = no_record(alloc)?;
        let other = no_record(alloc)?;
        Ok(Pair { one, other })
    }

    // Whether two lines of this second say the same record. Lines that are refused say none.
    fn says_same(&mut self, names: &[ShortName], second: u32, one: &[u8], other: &[u8]) -> bool
        requires { length names.now ≤ 64 }
        ensures same { result ≡ true → (r s : Record) → IsEntry names.now second one.now r → IsEntry names.now second other.now s → r ≡ s }
        ensures differs { result ≡ false → (r s : Record) → IsEntry names.now second one.now r → IsEntry names.now second other.now s → r ≡ s → ⊥ }
    {
        if one == other {
            return true;
        }
        match read_record(names, second, one, &mut self.one) {
            Ok(()) => {}
            Err(_) => return false,
        }
        match read_record(names, second, other, &mut self.other) {
            Ok(()) => are_alike(&self.one, &self.other),
            Err(_) => false,
        }
    }
}

// What the next lines of two logs show: how they differ, or that they say the same, and what follows them.
enum Step<'a> {
    Found(Difference<'a>),
    Same(&'a [u8], &'a [u8]),
}

// Compares the next lines of two logs, which are those of this second.
fn compare_next<'a>(
    pair: &mut Pair,
    names: &[ShortName],
    second: u32,
    one: &'a [u8],
    other: &'a [u8],
) -> Step<'a>
    requires { length names.now ≤ 64 }
    ensures { IsStep names.now second one.now other.now result }
{
    let last = second.saturating_sub(1);
    match (next_told(one), next_told(other)) {
        (None, None) => Step::Found(Difference::Nowhere),
        (None, Some(_)) => Step::Found(Difference::OneEnds(last)),
        (Some(_), None) => Step::Found(Difference::OtherEnds(last)),
        (Some((line, rest)), Some((other_line, other_rest))) => {
            if pair.says_same(names, second, line, other_line) {
                Step::Same(rest, other_rest)
            } else {
                Step::Found(Difference::In {
                    second,
                    one: line,
                    other: other_line,
                })
            }
        }
    }
}

/// The first difference of two logs with these bytes, all of whose lines are accepted, of groups with these names.
pub fn first_difference<'a>(
    alloc: Global,
    names: &[ShortName],
    one: &'a [u8],
    other: &'a [u8],
) -> Result<Difference<'a>, Memory>
    requires { length names.now ≤ 64 }
    ensures { IfOk result (λ d. (rs ss : List Record) → IsRecords false Begin.AtOne names.now one.now rs None → IsRecords false Begin.AtOne names.now other.now ss None →
        IsDifference one.now other.now rs ss d) }
{
    let mut pair = Pair::new(alloc)?;
    let mut rest = behind_header(one);
    let mut other_rest = behind_header(other);
    let mut second: u32 = 1;
    'seconds: loop {
        match compare_next(&mut pair, names, second, rest, other_rest) {
            Step::Found(difference) => return Ok(difference),
            Step::Same(next, other_next) => {
                rest = next;
                other_rest = other_next;
                second = second.saturating_add(1);
            }
        }
    }
}

// Puts the line of a log that ends before the other one.
fn put_end<O: Sink>(draft: &mut Draft, sink: &mut O, last: u32, word: &[u8])
    ensures { Puts O.taken O.faults draft.old draft.new sink.old sink.new (ends_text last word.now) }
{
    draft.put(sink, b"second ");
    draft.put_number(sink, last);
    draft.put(sink, b" is the last of ");
    put_long(draft, sink, word);
    draft.put(sink, b"\n");
}

/// Puts the first difference of two logs with these words, of groups with these names.
pub fn put_difference<O: Sink>(
    draft: &mut Draft,
    sink: &mut O,
    names: &[ShortName],
    word: &[u8],
    other_word: &[u8],
    difference: Difference<'_>,
)
    ensures { Puts O.taken O.faults draft.old draft.new sink.old sink.new
        (difference_text names.now word.now other_word.now difference.entry) }
{
    match difference {
        Difference::Nowhere => draft.put(sink, b"no second differs\n"),
        Difference::OneEnds(last) => put_end(draft, sink, last, word),
        Difference::OtherEnds(last) => put_end(draft, sink, last, other_word),
        Difference::In { second, one, other } => {
            put_lines(draft, sink, second, names, one, other)
        }
    }
}
