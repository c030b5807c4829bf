// The rows of a group.
ghost use Rattle.std.specs.Prelude.{◌≡◌, ◌+◌, ◌-◌, ◌*◌, ◌/◌, ◌%◌, ◌^◌, ◌<◌, ◌≤◌, ◌++◌, ◌==◌, max, ℕ, List, Bool, codes, length, slice_index_or, if◌then◌else◌};
ghost use Rattle.sig_io.specs.Draft.{Puts};
ghost use Rattle.log_sums.specs.declared.group.GroupSums.{GroupSums};
ghost use Rattle.sums_text.specs.Words.{IsSmall, longest_from, longest_of};
ghost use Rattle.sums_text.specs.Table.{cycles_rows, greens_rows, group_rows, groups_rows, lead_text, longest_rows, reds_rows, share_rows, span_of};

use crate::cells::{Item, Lead, lead_of, put_lengths_rows, put_row, put_some_row, put_tenths_row};
use crate::group::longest_begin;
use crate::numbers::longest_of;
use log_sums::{Figures, GroupSums, LogSums, Spells};
use sig_io::{Draft, Sink};
use sig_types::ShortName;

// Puts the greens of a group.
#[tactic(auto, unfolding(crate::specs::Table::greens_rows))]
fn put_greens_rows<O: Sink>(draft: &mut Draft, sink: &mut O, lead: &Lead<'_>, sums: &GroupSums)
    requires { sums.now.greens.over.sum < 2 ^ 60 }
    ensures { Puts O.taken O.faults draft.old draft.new sink.old sink.new (greens_rows (lead_text lead.now) sums.now) }
{
    put_row(
        draft,
        sink,
        lead,
        b",greens,",
        u64::from(sums.greens.begun.count),
    );
    put_row(
        draft,
        sink,
        lead,
        b",ended,",
        u64::from(sums.greens.over.count),
    );
    put_lengths_rows(
        draft,
        sink,
        lead,
        b",shortest,",
        b",mean,",
        b",longest,",
        sums.greens.over,
    );
}

// Puts the longest red of a group.
#[tactic(auto, unfolding(crate::specs::Table::longest_rows))]
fn put_longest_rows<O: Sink>(
    draft: &mut Draft,
    sink: &mut O,
    lead: &Lead<'_>,
    goes_on: bool,
    seconds: u32,
    reds: &Spells,
)
    requires { seconds < 2 ^ 31 }
    ensures { Puts O.taken O.faults draft.old draft.new sink.old sink.new (longest_rows (lead_text lead.now) goes_on seconds reds.now) }
{
    put_row(
        draft,
        sink,
        lead,
        b",longest_red,",
        u64::from(longest_of(goes_on, reds)),
    );
    put_some_row(
        draft,
        sink,
        lead,
        b",longest_red_from,",
        longest_begin(goes_on, seconds, reds),
    );
}

// The share of these seconds in all, in tenths of a percent.
fn share_of(seconds: u32, counted: u32) -> u64
    requires { 1 ≤ counted }
    ensures { result ≡ seconds * 1000 / counted }
{
    u64::from(seconds) * 1000 / u64::from(counted)
}

// Puts the share of green, and the first second of green.
#[tactic(auto, unfolding(crate::specs::Table::share_rows))]
fn put_share_rows<O: Sink>(
    draft: &mut Draft,
    sink: &mut O,
    lead: &Lead<'_>,
    counted: u32,
    greens: &Spells,
)
    requires { 1 ≤ counted }
    ensures { Puts O.taken O.faults draft.old draft.new sink.old sink.new (share_rows (lead_text lead.now) counted greens.now) }
{
    put_row(
        draft,
        sink,
        lead,
        b",seconds,",
        u64::from(greens.held.count),
    );
    put_tenths_row(
        draft,
        sink,
        lead,
        b",share,",
        share_of(greens.held.count, counted),
    );
    put_some_row(draft, sink, lead, b",first_green,", greens.begun.at);
}

// Puts the reds of a group.
#[tactic(auto, unfolding(crate::specs::Table::reds_rows))]
fn put_reds_rows<O: Sink>(draft: &mut Draft, sink: &mut O, lead: &Lead<'_>, reds: &Spells)
    requires { reds.now.over.sum < 2 ^ 60 }
    ensures { Puts O.taken O.faults draft.old draft.new sink.old sink.new (reds_rows (lead_text lead.now) reds.now) }
{
    put_row(draft, sink, lead, b",reds,", u64::from(reds.begun.count));
    put_row(
        draft,
        sink,
        lead,
        b",reds_ended,",
        u64::from(reds.over.count),
    );
    put_lengths_rows(
        draft,
        sink,
        lead,
        b",shortest_red,",
        b",mean_red,",
        b",longest_ended_red,",
        reds.over,
    );
}

// Puts the cycles of a group.
#[tactic(auto, unfolding(crate::specs::Table::cycles_rows))]
fn put_cycles_rows<O: Sink>(draft: &mut Draft, sink: &mut O, lead: &Lead<'_>, cycles: Figures)
    requires { cycles.sum < 2 ^ 60 }
    ensures { Puts O.taken O.faults draft.old draft.new sink.old sink.new (cycles_rows (lead_text lead.now) cycles) }
{
    put_row(draft, sink, lead, b",cycles,", u64::from(cycles.count));
    put_lengths_rows(
        draft,
        sink,
        lead,
        b",shortest_cycle,",
        b",mean_cycle,",
        b",longest_cycle,",
        cycles,
    );
}

// Puts the rows of a group.
#[tactic(auto, unfolding(crate::specs::Table::group_rows))]
fn put_group_rows<O: Sink>(
    draft: &mut Draft,
    sink: &mut O,
    lead: &Lead<'_>,
    goes_on: bool,
    seconds: u32,
    counted: u32,
    sums: &GroupSums,
)
    requires seconds { seconds < 2 ^ 31 }
    requires counted { 1 ≤ counted }
    requires small { IsSmall sums.now }
    ensures { Puts O.taken O.faults draft.old draft.new sink.old sink.new (group_rows (lead_text lead.now) goes_on seconds counted sums.now) }
{
    put_greens_rows(draft, sink, lead, sums);
    put_longest_rows(draft, sink, lead, goes_on, seconds, &sums.reds);
    put_share_rows(draft, sink, lead, counted, &sums.greens);
    put_reds_rows(draft, sink, lead, &sums.reds);
    put_cycles_rows(draft, sink, lead, sums.cycles.gaps);
}

/// Puts the rows of the groups with these names, of which so many seconds count, behind the seconds of those sums.
pub(crate) fn put_groups_rows<O: Sink>(
    draft: &mut Draft,
    sink: &mut O,
    names: &[ShortName],
    counted: u32,
    sums: &LogSums,
    groups: &[GroupSums; 64],
)
    requires few { length names.now ≤ 64 }
    requires seconds { sums.now.seconds < 2 ^ 31 }
    requires counted { 1 ≤ counted }
    requires small { (g : ℕ) (d : GroupSums) → g < length names.now → IsSmall (slice_index_or groups.now g d) }
    ensures { Puts O.taken O.faults draft.old draft.new sink.old sink.new
        (groups_rows (span_of sums.now) sums.now.goes_on sums.now.seconds counted names.now groups.now) }
{
    for (place, name) in names.iter().enumerate() {
        put_group_rows(
            draft,
            sink,
            &lead_of(sums, Item::Group(name)),
            sums.goes_on,
            sums.seconds,
            counted,
            &groups[place],
        );
    }
}
