// The rows of a table.
ghost use Rattle.std.specs.Prelude.{◌≡◌, ◌+◌, ◌-◌, ◌*◌, ◌/◌, ◌%◌, ◌^◌, ◌<◌, ◌≤◌, ◌++◌, ◌==◌, max, ℕ, List, Some, codes, length, if◌then◌else◌};
ghost use Rattle.std.specs.Fmt.{decimal};
ghost use Rattle.sig_io.specs.Draft.{Puts};
ghost use Rattle.sums_text.specs.Words.{pair_text, tenths_text};
ghost use Rattle.sums_text.specs.Table.{item_text, last_in, lead_text, lengths_rows, place_cells, row_text, some_lengths, some_row, span_of, span_text, tenths_row};

use crate::numbers::{mean_of, put_pair, put_tenths};
use crate::serves::put_serve_name;
use log_sums::{Figures, LogSums, Serve};
use sig_io::{Draft, Sink};
use sig_types::{Fault, ShortName, StagePlace, StageRefusal, TurnRefusal};
use signal_log::{put_fault, put_named_turn, put_stage_refusal};

/// What a row is of.
#[derive(Clone, Copy)]
pub(crate) enum Item<'a> {
    /// The seconds that count.
    Seconds,
    /// The group of this name.
    Group(&'a ShortName),
    /// A stage or an interstage.
    Place(StagePlace),
    /// A refused stage command.
    Command(StageRefusal),
    /// A refused turn, of groups with these names.
    Turn(&'a [ShortName], TurnRefusal),
    /// The turns of a group that a rule refused.
    Rule(&'a [ShortName], TurnRefusal),
    /// Those of them before the group's first green.
    Early(&'a [ShortName], TurnRefusal),
    /// A fault.
    Fault(Fault),
    /// The detector of this number.
    Detector(u32),
    /// Detectors that serve a group, of groups with these names.
    Serve(&'a [ShortName], Serve),
}

/// What stands in a row before its key.
#[derive(Clone, Copy)]
pub(crate) struct Lead<'a> {
    /// The first second that counts.
    pub(crate) from: u32,
    /// The last one.
    pub(crate) to: u32,
    /// What the row is of.
    pub(crate) item: Item<'a>,
}

/// The last second that counts; where none does, the one before the first.
pub(crate) fn last_in(sums: &LogSums) -> u32
    ensures { result ≡ last_in sums.now }
{
    sums.seconds.max(sums.from.saturating_sub(1))
}

/// What stands before the keys of sums, of this.
pub(crate) fn lead_of<'a>(sums: &LogSums, item: Item<'a>) -> Lead<'a>
    ensures { lead_text result ≡ span_of sums.now ++ item_text item.entry }
{
    Lead {
        from: sums.from,
        to: last_in(sums),
        item,
    }
}

// Puts the word and the name of a stage or an interstage.
fn put_place_cells<O: Sink>(draft: &mut Draft, sink: &mut O, place: StagePlace)
    ensures { Puts O.taken O.faults draft.old draft.new sink.old sink.new (place_cells place) }
{
    match place {
        StagePlace::NoPlan => draft.put(sink, b"NO_STAGE,"),
        StagePlace::Stage(stage) => put_pair(draft, sink, b"STAGE,", u32::from(stage.0)),
        StagePlace::Inter { from, to, t: _ } => {
            put_pair(draft, sink, b"INTERSTAGE,", u32::from(from.0));
            put_pair(draft, sink, b"-", u32::from(to.0));
        }
    }
}

// Puts the word and the name of what a row is of.
fn put_item<O: Sink>(draft: &mut Draft, sink: &mut O, item: Item<'_>)
    ensures { Puts O.taken O.faults draft.old draft.new sink.old sink.new (item_text item.entry) }
{
    match item {
        Item::Seconds => draft.put(sink, b"SECONDS,"),
        Item::Group(name) => {
            draft.put(sink, b"GROUP,");
            draft.put(sink, name.bytes());
        }
        Item::Place(place) => put_place_cells(draft, sink, place),
        Item::Command(refusal) => {
            draft.put(sink, b"REFUSED,");
            put_stage_refusal(refusal, draft, sink);
        }
        Item::Turn(names, turn) => {
            draft.put(sink, b"REFUSED,");
            put_named_turn(turn, names, draft, sink);
        }
        Item::Rule(names, turn) => {
            draft.put(sink, b"RULE,");
            put_named_turn(turn, names, draft, sink);
        }
        Item::Early(names, turn) => {
            draft.put(sink, b"BEFORE_GREEN,");
            put_named_turn(turn, names, draft, sink);
        }
        Item::Fault(fault) => {
            draft.put(sink, b"FAULT,");
            put_fault(fault, draft, sink);
        }
        Item::Detector(number) => put_pair(draft, sink, b"DETECTOR,", number),
        Item::Serve(names, serve) => {
            draft.put(sink, b"SERVES,");
            put_serve_name(draft, sink, names, &serve);
        }
    }
}

// Puts the first and the last second that count.
fn put_span<O: Sink>(draft: &mut Draft, sink: &mut O, from: u32, to: u32)
    ensures { Puts O.taken O.faults draft.old draft.new sink.old sink.new (span_text from to) }
{
    draft.put_number(sink, from);
    draft.put(sink, b",");
    draft.put_number(sink, to);
    draft.put(sink, b",");
}

// Puts what stands before the key.
fn put_lead<O: Sink>(draft: &mut Draft, sink: &mut O, lead: &Lead<'_>)
    ensures { Puts O.taken O.faults draft.old draft.new sink.old sink.new (lead_text lead.now) }
{
    put_span(draft, sink, lead.from, lead.to);
    put_item(draft, sink, lead.item);
}

/// Puts the row of a number, whose key stands between commas.
pub(crate) fn put_row<O: Sink>(draft: &mut Draft, sink: &mut O, lead: &Lead<'_>, key: &[u8], n: u64)
    requires { length key.now ≤ 20 }
    ensures { Puts O.taken O.faults draft.old draft.new sink.old sink.new (row_text (lead_text lead.now) key.now n) }
{
    put_lead(draft, sink, lead);
    draft.put(sink, key);
    draft.put_long_number(sink, n);
    draft.put(sink, b"\n");
}

/// Puts the row of a number of tenths.
pub(crate) fn put_tenths_row<O: Sink>(
    draft: &mut Draft,
    sink: &mut O,
    lead: &Lead<'_>,
    key: &[u8],
    tenths: u64,
)
    requires { length key.now ≤ 20 }
    ensures { Puts O.taken O.faults draft.old draft.new sink.old sink.new (tenths_row (lead_text lead.now) key.now tenths) }
{
    put_lead(draft, sink, lead);
    draft.put(sink, key);
    put_tenths(draft, sink, tenths);
    draft.put(sink, b"\n");
}

/// Puts the row of a number where it isn't 0.
#[tactic(auto, unfolding(crate::specs::Table::some_row))]
pub(crate) fn put_some_row<O: Sink>(
    draft: &mut Draft,
    sink: &mut O,
    lead: &Lead<'_>,
    key: &[u8],
    n: u32,
)
    requires { length key.now ≤ 20 }
    ensures { Puts O.taken O.faults draft.old draft.new sink.old sink.new (some_row (lead_text lead.now) key.now n) }
{
    if n == 0 {
        return;
    }
    put_row(draft, sink, lead, key, u64::from(n));
}

// Puts the rows of the shortest, the mean and the longest, by these keys.
fn put_some_lengths<O: Sink>(
    draft: &mut Draft,
    sink: &mut O,
    lead: &Lead<'_>,
    shortest: &[u8],
    mean: &[u8],
    longest: &[u8],
    figures: Figures,
)
    requires shortest { length shortest.now ≤ 20 }
    requires mean { length mean.now ≤ 20 }
    requires longest { length longest.now ≤ 20 }
    requires some { 1 ≤ figures.count }
    requires small { figures.sum < 2 ^ 60 }
    ensures { Puts O.taken O.faults draft.old draft.new sink.old sink.new
        (some_lengths (lead_text lead.now) shortest.now mean.now longest.now figures) }
{
    put_row(draft, sink, lead, shortest, u64::from(figures.least));
    put_tenths_row(draft, sink, lead, mean, mean_of(figures));
    put_row(draft, sink, lead, longest, u64::from(figures.most));
}

/// Puts the rows of the shortest, the mean and the longest, by these keys, where there are some.
#[tactic(auto, unfolding(crate::specs::Table::lengths_rows))]
pub(crate) fn put_lengths_rows<O: Sink>(
    draft: &mut Draft,
    sink: &mut O,
    lead: &Lead<'_>,
    shortest: &[u8],
    mean: &[u8],
    longest: &[u8],
    figures: Figures,
)
    requires shortest { length shortest.now ≤ 20 }
    requires mean { length mean.now ≤ 20 }
    requires longest { length longest.now ≤ 20 }
    requires small { figures.sum < 2 ^ 60 }
    ensures { Puts O.taken O.faults draft.old draft.new sink.old sink.new
        (lengths_rows (lead_text lead.now) shortest.now mean.now longest.now figures) }
{
    if figures.count == 0 {
        return;
    }
    put_some_lengths(draft, sink, lead, shortest, mean, longest, figures);
}
