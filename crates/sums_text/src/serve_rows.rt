// The rows of detectors that serve a group.
ghost use Rattle.std.specs.Prelude.{◌≡◌, ◌+◌, ◌-◌, ◌*◌, ◌/◌, ◌%◌, ◌^◌, ◌<◌, ◌≤◌, ◌++◌, ◌==◌, All, ℕ, List, [], Bool, codes, length, if◌then◌else◌};
ghost use Rattle.std.specs.List.{flat_map};
ghost use Rattle.sig_io.specs.Draft.{Puts};
ghost use Rattle.sums_text.specs.Words.{AreTextual, IsServeSmall, mean_served};
ghost use Rattle.sums_text.specs.Table.{lead_text, lengths_rows, per_green_rows, row_text, seen_rows, serve_rows, some_per_green, span_of, tenths_row};

use crate::cells::{Item, Lead, lead_of, put_lengths_rows, put_row, put_tenths_row};
use crate::serves::{mean_served, one_less};
use log_sums::{LogSums, LongFigures, ServeSums, Served};
use sig_io::{Draft, Sink};
use sig_types::ShortName;

// Puts the fewest fronts of a green, their mean and the most.
fn put_some_per_green<O: Sink>(
    draft: &mut Draft,
    sink: &mut O,
    lead: &Lead<'_>,
    figures: LongFigures,
)
    requires some { 1 ≤ figures.count }
    requires small { figures.sum < 2 ^ 60 }
    ensures { Puts O.taken O.faults draft.old draft.new sink.old sink.new (some_per_green (lead_text lead.now) figures) }
{
    put_row(draft, sink, lead, b",fewest,", one_less(figures.least));
    put_tenths_row(draft, sink, lead, b",mean,", mean_served(figures));
    put_row(draft, sink, lead, b",most,", one_less(figures.most));
}

// Puts the same where a green is over.
#[tactic(auto, unfolding(crate::specs::Table::per_green_rows))]
fn put_per_green_rows<O: Sink>(
    draft: &mut Draft,
    sink: &mut O,
    lead: &Lead<'_>,
    figures: LongFigures,
)
    requires { figures.sum < 2 ^ 60 }
    ensures { Puts O.taken O.faults draft.old draft.new sink.old sink.new (per_green_rows (lead_text lead.now) figures) }
{
    if figures.count == 0 {
        return;
    }
    put_some_per_green(draft, sink, lead, figures);
}

// Puts what detectors saw that serve a group.
#[tactic(auto, unfolding(crate::specs::Table::seen_rows))]
fn put_seen_rows<O: Sink>(draft: &mut Draft, sink: &mut O, lead: &Lead<'_>, sums: &ServeSums)
    requires { IsServeSmall sums.now }
    ensures { Puts O.taken O.faults draft.old draft.new sink.old sink.new (seen_rows (lead_text lead.now) sums.now) }
{
    put_row(draft, sink, lead, b",in_green,", sums.in_green);
    put_row(draft, sink, lead, b",not_in_green,", sums.not_in_green);
    put_row(
        draft,
        sink,
        lead,
        b",ended,",
        u64::from(sums.per_green.count),
    );
    put_per_green_rows(draft, sink, lead, sums.per_green);
    put_row(draft, sink, lead, b",waits,", u64::from(sums.waits.count));
    put_lengths_rows(
        draft,
        sink,
        lead,
        b",shortest_wait,",
        b",mean_wait,",
        b",longest_wait,",
        sums.waits,
    );
}

// Puts the rows of detectors that serve a group, behind the seconds of those sums.
#[tactic(auto, unfolding(crate::specs::Table::serve_rows))]
fn put_serve_rows<O: Sink>(
    draft: &mut Draft,
    sink: &mut O,
    sums: &LogSums,
    names: &[ShortName],
    served: &Served,
)
    requires { IsServeSmall served.now.sums }
    ensures { Puts O.taken O.faults draft.old draft.new sink.old sink.new (serve_rows (span_of sums.now) names.now served.now) }
{
    put_seen_rows(
        draft,
        sink,
        &lead_of(sums, Item::Serve(names, served.serve)),
        &served.sums,
    );
}

/// Puts the rows of all detectors that serve a group.
pub(crate) fn put_serves_rows<O: Sink>(
    draft: &mut Draft,
    sink: &mut O,
    names: &[ShortName],
    sums: &LogSums,
)
    requires { All (λ s. IsServeSmall s.sums) sums.now.serves.items }
    ensures { Puts O.taken O.faults draft.old draft.new sink.old sink.new (flat_map (serve_rows (span_of sums.now) names.now) sums.now.serves.items) }
{
    for served in &sums.serves {
        put_serve_rows(draft, sink, sums, names, served);
    }
}
