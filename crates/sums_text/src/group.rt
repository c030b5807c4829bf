// The line of a group.
ghost use Rattle.std.specs.Prelude.{◌≡◌, ◌+◌, ◌-◌, ◌*◌, ◌/◌, ◌%◌, ◌^◌, ◌<◌, ◌≤◌, ◌++◌, ◌==◌, max, ℕ, List, Bool, codes, length, slice_index_or, if◌then◌else◌};
ghost use Rattle.std.specs.Fmt.{decimal};
ghost use Rattle.sig_io.specs.Draft.{Puts};
ghost use Rattle.log_sums.specs.declared.group.GroupSums.{GroupSums};
ghost use Rattle.sums_text.specs.Words.{IsSmall, cycles_text, groups_text, greens_text, group_text, longest_from, longest_of, longest_text, reds_text, share_text};

use crate::numbers::{longest_from, longest_of, put_lengths, put_pair, put_some, put_tenths};
use log_sums::{Figures, GroupSums, Spells};
use sig_io::{Draft, Sink};
use sig_types::ShortName;

// Puts the greens of a group.
#[tactic(auto, unfolding(crate::specs::Words::greens_text))]
fn put_greens<O: Sink>(draft: &mut Draft, sink: &mut O, sums: &GroupSums)
    requires { sums.now.greens.over.sum < 2 ^ 60 }
    ensures { Puts O.taken O.faults draft.old draft.new sink.old sink.new (greens_text sums.now) }
{
    put_pair(draft, sink, b" greens:", sums.greens.begun.count);
    put_pair(draft, sink, b" ended:", sums.greens.over.count);
    put_lengths(
        draft,
        sink,
        b" shortest:",
        b" mean:",
        b" longest:",
        sums.greens.over,
    );
}

/// Where the longest red began, and 0 where there is none.
pub(crate) fn longest_begin(goes_on: bool, seconds: u32, reds: &Spells) -> u32
    requires { seconds < 2 ^ 31 }
    ensures { result ≡ (if longest_of goes_on reds.now == 0 then 0 else longest_from goes_on seconds reds.now) }
{
    if longest_of(goes_on, reds) == 0 {
        0
    } else {
        longest_from(goes_on, seconds, reds)
    }
}

// Puts the longest red of a group.
#[tactic(auto, unfolding(crate::specs::Words::longest_text))]
fn put_longest<O: Sink>(draft: &mut Draft, sink: &mut O, goes_on: bool, seconds: u32, reds: &Spells)
    requires { seconds < 2 ^ 31 }
    ensures { Puts O.taken O.faults draft.old draft.new sink.old sink.new (longest_text goes_on seconds reds.now) }
{
    put_pair(draft, sink, b" longest_red:", longest_of(goes_on, reds));
    put_some(
        draft,
        sink,
        b" longest_red_from:",
        longest_begin(goes_on, seconds, reds),
    );
}

// Puts the share of green, and the first second of green.
#[tactic(auto, unfolding(crate::specs::Words::share_text))]
fn put_share<O: Sink>(draft: &mut Draft, sink: &mut O, counted: u32, greens: &Spells)
    requires { 1 ≤ counted }
    ensures { Puts O.taken O.faults draft.old draft.new sink.old sink.new (share_text counted greens.now) }
{
    put_pair(draft, sink, b" seconds:", greens.held.count);
    draft.put(sink, b" share:");
    put_tenths(
        draft,
        sink,
        u64::from(greens.held.count) * 1000 / u64::from(counted),
    );
    put_some(draft, sink, b" first_green:", greens.begun.at);
}

// Puts the reds of a group.
#[tactic(auto, unfolding(crate::specs::Words::reds_text))]
fn put_reds<O: Sink>(draft: &mut Draft, sink: &mut O, reds: &Spells)
    requires { reds.now.over.sum < 2 ^ 60 }
    ensures { Puts O.taken O.faults draft.old draft.new sink.old sink.new (reds_text reds.now) }
{
    put_pair(draft, sink, b" reds:", reds.begun.count);
    put_pair(draft, sink, b" reds_ended:", reds.over.count);
    put_lengths(
        draft,
        sink,
        b" shortest_red:",
        b" mean_red:",
        b" longest_ended_red:",
        reds.over,
    );
}

// Puts the cycles of a group.
#[tactic(auto, unfolding(crate::specs::Words::cycles_text))]
fn put_cycles<O: Sink>(draft: &mut Draft, sink: &mut O, cycles: Figures)
    requires { cycles.sum < 2 ^ 60 }
    ensures { Puts O.taken O.faults draft.old draft.new sink.old sink.new (cycles_text cycles) }
{
    put_pair(draft, sink, b" cycles:", cycles.count);
    put_lengths(
        draft,
        sink,
        b" shortest_cycle:",
        b" mean_cycle:",
        b" longest_cycle:",
        cycles,
    );
}

// Puts what stands behind the name.
fn put_rest<O: Sink>(
    draft: &mut Draft,
    sink: &mut O,
    goes_on: bool,
    seconds: u32,
    counted: u32,
    sums: &GroupSums,
)
    requires seconds { seconds < 2 ^ 31 }
    requires counted { 1 ≤ counted }
    requires small { IsSmall sums.now }
    ensures { Puts O.taken O.faults draft.old draft.new sink.old sink.new
        (greens_text sums.now ++ longest_text goes_on seconds sums.now.reds ++ share_text counted sums.now.greens
        ++ reds_text sums.now.reds ++ cycles_text sums.now.cycles.gaps) }
{
    put_greens(draft, sink, sums);
    put_longest(draft, sink, goes_on, seconds, &sums.reds);
    put_share(draft, sink, counted, &sums.greens);
    put_reds(draft, sink, &sums.reds);
    put_cycles(draft, sink, sums.cycles.gaps);
}

/// Puts the line of a group.
#[tactic(auto, unfolding(crate::specs::Words::group_text))]
pub(crate) fn put_group<O: Sink>(
    draft: &mut Draft,
    sink: &mut O,
    name: &ShortName,
    goes_on: bool,
    seconds: u32,
    counted: u32,
    sums: &GroupSums,
)
    requires seconds { seconds < 2 ^ 31 }
    requires counted { 1 ≤ counted }
    requires small { IsSmall sums.now }
    ensures { Puts O.taken O.faults draft.old draft.new sink.old sink.new (group_text name.now goes_on seconds counted sums.now) }
{
    draft.put(sink, b"GROUP ");
    draft.put(sink, name.bytes());
    put_rest(draft, sink, goes_on, seconds, counted, sums);
    draft.put(sink, b"\n");
}

/// Puts the lines of the groups with these names.
pub(crate) fn put_groups<O: Sink>(
    draft: &mut Draft,
    sink: &mut O,
    names: &[ShortName],
    goes_on: bool,
    seconds: u32,
    counted: u32,
    groups: &[GroupSums; 64],
)
    requires few { length names.now ≤ 64 }
    requires seconds { seconds < 2 ^ 31 }
    requires counted { 1 ≤ counted }
    requires small { (g : ℕ) (d : GroupSums) → g < length names.now → IsSmall (slice_index_or groups.now g d) }
    ensures { Puts O.taken O.faults draft.old draft.new sink.old sink.new (groups_text goes_on seconds counted names.now groups.now) }
{
    for (place, name) in names.iter().enumerate() {
        put_group(draft, sink, name, goes_on, seconds, counted, &groups[place]);
    }
}
