// The line of detectors that serve a group.
ghost use Rattle.std.specs.Prelude.{◌≡◌, ◌+◌, ◌-◌, ◌*◌, ◌/◌, ◌%◌, ◌^◌, ◌<◌, ◌≤◌, ◌++◌, ◌==◌, All, ℕ, List, [], Bool, codes, length, if◌then◌else◌};
ghost use Rattle.std.specs.Fmt.{decimal};
ghost use Rattle.std.specs.List.{flat_map};
ghost use Rattle.sig_io.specs.Draft.{Puts};
ghost use Rattle.signal_log.specs.Log.{name_of};
ghost use Rattle.sums_text.specs.Words.{IsServeSmall, detectors_of, lengths_text, mean_served, pair_text, per_green_text, seen_text, serve_name, serve_text, tenths_text};

use crate::numbers::{put_lengths, put_long, put_pair, put_tenths};
use log_sums::{LongFigures, Serve, ServeSums, Served};
use sig_io::{Draft, Sink};
use sig_types::ShortName;
use signal_log::put_group_name;

// Puts the number of a detector where it is chosen.
fn put_chosen<O: Sink>(draft: &mut Draft, sink: &mut O, chosen: bool, number: u32)
    ensures { Puts O.taken O.faults draft.old draft.new sink.old sink.new (if chosen then pair_text (codes ":") number else []) }
{
    if chosen {
        put_pair(draft, sink, b":", number);
    }
}

// Puts the numbers of the chosen detectors.
fn put_numbers<O: Sink>(draft: &mut Draft, sink: &mut O, detectors: &[bool; 64])
    ensures { Puts O.taken O.faults draft.old draft.new sink.old sink.new (detectors_of 1 detectors.now) }
{
    for place in 0..64u8 {
        put_chosen(
            draft,
            sink,
            detectors[usize::from(place)],
            u32::from(place) + 1,
        );
    }
}

/// Puts a group and the detectors that serve it.
#[tactic(auto, unfolding(crate::specs::Words::serve_name))]
pub(crate) fn put_serve_name<O: Sink>(
    draft: &mut Draft,
    sink: &mut O,
    names: &[ShortName],
    serve: &Serve,
)
    ensures { Puts O.taken O.faults draft.old draft.new sink.old sink.new (serve_name names.now serve.now) }
{
    put_group_name(serve.group, names, draft, sink);
    put_numbers(draft, sink, &serve.detectors);
}

/// The mean of the fronts of a green in tenths, rounded down.
pub(crate) fn mean_served(figures: LongFigures) -> u64
    requires some { 1 ≤ figures.count }
    requires small { figures.sum < 2 ^ 60 }
    ensures { result ≡ mean_served figures }
{
    figures.sum.saturating_sub(u64::from(figures.count)) * 10 / u64::from(figures.count)
}

/// One less.
pub(crate) fn one_less(n: u64) -> u64
    ensures { result ≡ n - 1 }
{
    n.saturating_sub(1)
}

// Puts the fewest fronts of a green, their mean and the most.
#[tactic(auto, unfolding(crate::specs::Words::per_green_text))]
fn put_per_green<O: Sink>(draft: &mut Draft, sink: &mut O, figures: LongFigures)
    requires { figures.sum < 2 ^ 60 }
    ensures { Puts O.taken O.faults draft.old draft.new sink.old sink.new (per_green_text figures) }
{
    if figures.count == 0 {
        return;
    }
    put_long(draft, sink, b" fewest:", one_less(figures.least));
    draft.put(sink, b" mean:");
    put_tenths(draft, sink, mean_served(figures));
    put_long(draft, sink, b" most:", one_less(figures.most));
}

// Puts what detectors saw that serve a group.
#[tactic(auto, unfolding(crate::specs::Words::seen_text))]
fn put_seen<O: Sink>(draft: &mut Draft, sink: &mut O, sums: &ServeSums)
    requires { IsServeSmall sums.now }
    ensures { Puts O.taken O.faults draft.old draft.new sink.old sink.new (seen_text sums.now) }
{
    put_long(draft, sink, b" in_green:", sums.in_green);
    put_long(draft, sink, b" not_in_green:", sums.not_in_green);
    put_pair(draft, sink, b" ended:", sums.per_green.count);
    put_per_green(draft, sink, sums.per_green);
    put_pair(draft, sink, b" waits:", sums.waits.count);
    put_lengths(
        draft,
        sink,
        b" shortest_wait:",
        b" mean_wait:",
        b" longest_wait:",
        sums.waits,
    );
}

// Puts the line of detectors that serve a group.
#[tactic(auto, unfolding(crate::specs::Words::serve_text))]
fn put_serve<O: Sink>(draft: &mut Draft, sink: &mut O, names: &[ShortName], served: &Served)
    requires { IsServeSmall served.now.sums }
    ensures { Puts O.taken O.faults draft.old draft.new sink.old sink.new (serve_text names.now served.now) }
{
    draft.put(sink, b"SERVES ");
    put_serve_name(draft, sink, names, &served.serve);
    put_seen(draft, sink, &served.sums);
    draft.put(sink, b"\n");
}

/// Puts the lines of detectors that serve a group.
pub(crate) fn put_serves<O: Sink>(
    draft: &mut Draft,
    sink: &mut O,
    names: &[ShortName],
    serves: &[Served],
)
    requires { All (λ s. IsServeSmall s.sums) serves.now }
    ensures { Puts O.taken O.faults draft.old draft.new sink.old sink.new (flat_map (serve_text names.now) serves.now) }
{
    for served in serves {
        put_serve(draft, sink, names, served);
    }
}
