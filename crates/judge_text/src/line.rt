// The words of breaches.
ghost use Rattle.std.specs.Prelude.{◌≡◌, ◌+◌, ◌-◌, ◌≤◌, ◌++◌, List, ℕ, Option, length, codes};
ghost use Rattle.std.specs.List.{flat_map};
ghost use Rattle.sig_io.specs.Draft.{Puts};
ghost use Rattle.judge_text.specs.Lines.{aspect_name, behind_text, breaches_text, cleared_text, evidence_text, green_text, hidden_text, lasted_text, line_text, time_name};

use crate::sums::put_sums;
use crate::tick::{Tick, put_ticks};
use crate::words::{put_between, put_head, put_name, put_second};
use log_judge::Breach;
use pua_model::Plan;
use sig_io::{Draft, Sink};
use sig_types::{Aspect, GroupNo};

// The name of an aspect.
fn aspect_name(aspect: Aspect) -> &'static [u8]
    ensures name { result.now ≡ aspect_name aspect }
    ensures short { length result.now ≤ 16 }
{
    match aspect {
        Aspect::Red => b"red",
        Aspect::RedAmber => b"red-amber",
        Aspect::Green => b"green",
        Aspect::Amber => b"amber",
    }
}

// The words before the time that an aspect should have lasted.
fn time_name(aspect: Aspect) -> &'static [u8]
    ensures name { result.now ≡ time_name aspect }
    ensures short { length result.now ≤ 16 }
{
    match aspect {
        Aspect::Red => b" s; minimum ",
        Aspect::RedAmber => b" s; time ",
        Aspect::Green => b" s; minimum ",
        Aspect::Amber => b" s; time ",
    }
}

// Puts an aspect from a second on, how long it lasted, and what it should have.
fn put_lasted<O: Sink>(
    draft: &mut Draft,
    sink: &mut O,
    tick: Tick,
    first: u32,
    aspect: Aspect,
    from: u32,
    to: u32,
    needed: u32,
)
    ensures { Puts O.taken O.faults draft.old draft.new sink.old sink.new (lasted_text tick first aspect from to needed) }
{
    draft.put(sink, b": ");
    draft.put(sink, aspect_name(aspect));
    draft.put(sink, b" from second ");
    put_second(draft, sink, tick, first, from);
    draft.put(sink, b" for ");
    put_ticks(draft, sink, tick, u64::from(to.saturating_sub(from)));
    draft.put(sink, time_name(aspect));
    put_ticks(draft, sink, tick, u64::from(needed));
    draft.put(sink, b" s");
}

// Puts in which second a group is green, or turns green at the latest.
fn put_green<O: Sink>(
    draft: &mut Draft,
    sink: &mut O,
    tick: Tick,
    first: u32,
    pictures: u32,
    second: u32,
)
    ensures { Puts O.taken O.faults draft.old draft.new sink.old sink.new (green_text tick first pictures second) }
{
    if second < pictures {
        draft.put(sink, b" is green in second ");
        put_second(draft, sink, tick, first, second);
    } else {
        draft.put(sink, b" is red-amber, green in second ");
        put_second(draft, sink, tick, first, second);
        draft.put(sink, b" at the latest");
    }
}

// A green that comes too soon.
#[derive(Clone, Copy)]
struct TooSoon {
    second: u32,
    group: GroupNo,
    other: GroupNo,
    ended: u32,
    least: u32,
}

// Puts an end, and the green too soon after it.
fn put_cleared<O: Sink>(
    draft: &mut Draft,
    sink: &mut O,
    plan: &Plan,
    tick: Tick,
    first: u32,
    pictures: u32,
    soon: TooSoon,
)
    ensures { Puts O.taken O.faults draft.old draft.new sink.old sink.new
        (cleared_text plan.now.names tick first pictures soon.second soon.group soon.other soon.ended soon.least) }
{
    draft.put(sink, b" ");
    put_name(draft, sink, plan, soon.other);
    draft.put(sink, b": ");
    put_name(draft, sink, plan, soon.other);
    draft.put(sink, b" ended in second ");
    put_second(draft, sink, tick, first, soon.ended);
    draft.put(sink, b", ");
    put_name(draft, sink, plan, soon.group);
    put_green(draft, sink, tick, first, pictures, soon.second);
    draft.put(sink, b", ");
    put_ticks(
        draft,
        sink,
        tick,
        u64::from(soon.second.saturating_sub(soon.ended)),
    );
    draft.put(sink, b" s later; intergreen ");
    put_ticks(draft, sink, tick, u64::from(soon.least));
    draft.put(sink, b" s");
}

// A green that comes too soon after an end before the log.
#[derive(Clone, Copy)]
struct Hidden {
    second: u32,
    group: GroupNo,
    other: GroupNo,
    ended: u32,
    before: u32,
    least: u32,
}

// Puts where a green is, and what passed since an end before the log.
fn put_behind<O: Sink>(
    draft: &mut Draft,
    sink: &mut O,
    tick: Tick,
    first: u32,
    pictures: u32,
    second: u32,
    ended: u32,
    before: u32,
)
    ensures { Puts O.taken O.faults draft.old draft.new sink.old sink.new (behind_text tick first pictures second ended before) }
{
    if before == 0 {
        put_green(draft, sink, tick, first, pictures, second);
        draft.put(sink, b", at most ");
        put_between(draft, sink, tick, second, ended, before);
        draft.put(sink, b" s later");
    } else {
        draft.put(sink, b" turned green at least ");
        put_ticks(draft, sink, tick, u64::from(before));
        draft.put(sink, b" s before it");
    }
}

// Puts an end before the log, and the green too soon after it.
fn put_hidden<O: Sink>(
    draft: &mut Draft,
    sink: &mut O,
    plan: &Plan,
    tick: Tick,
    first: u32,
    pictures: u32,
    soon: Hidden,
)
    ensures { Puts O.taken O.faults draft.old draft.new sink.old sink.new
        (hidden_text plan.now.names tick first pictures soon.second soon.group soon.other soon.ended soon.before soon.least) }
{
    draft.put(sink, b" ");
    put_name(draft, sink, plan, soon.other);
    draft.put(sink, b": ");
    put_name(draft, sink, plan, soon.other);
    draft.put(sink, b" ended at most ");
    put_ticks(draft, sink, tick, u64::from(soon.ended));
    draft.put(sink, b" s before second ");
    put_ticks(draft, sink, tick, u64::from(first));
    draft.put(sink, b", ");
    put_name(draft, sink, plan, soon.group);
    put_behind(
        draft,
        sink,
        tick,
        first,
        pictures,
        soon.second,
        soon.ended,
        soon.before,
    );
    draft.put(sink, b"; intergreen ");
    put_ticks(draft, sink, tick, u64::from(soon.least));
    draft.put(sink, b" s");
}

// Puts what shows a breach.
fn put_evidence<O: Sink>(
    draft: &mut Draft,
    sink: &mut O,
    plan: &Plan,
    tick: Tick,
    first: u32,
    pictures: u32,
    breach: &Breach,
)
    ensures { Puts O.taken O.faults draft.old draft.new sink.old sink.new (evidence_text plan.now.names tick first pictures breach.now) }
{
    match *breach {
        Breach::Step { was, is, .. } => {
            draft.put(sink, b": ");
            draft.put(sink, aspect_name(is));
            draft.put(sink, b" after ");
            draft.put(sink, aspect_name(was));
        }
        Breach::Short {
            second,
            aspect,
            since,
            least,
            ..
        } => put_lasted(draft, sink, tick, first, aspect, since, second, least),
        Breach::Long {
            second,
            aspect,
            since,
            most,
            ..
        } => put_lasted(draft, sink, tick, first, aspect, since, second, most),
        Breach::Conflict {
            second,
            other,
            since,
            ..
        } => {
            draft.put(sink, b" ");
            put_name(draft, sink, plan, other);
            draft.put(sink, b": both on from second ");
            put_second(draft, sink, tick, first, since);
            draft.put(sink, b" for ");
            put_ticks(draft, sink, tick, u64::from(second.saturating_sub(since)));
            draft.put(sink, b" s");
        }
        Breach::Intergreen {
            second,
            group,
            other,
            ended,
            least,
        } => {
            let soon = TooSoon {
                second,
                group,
                other,
                ended,
                least,
            };
            put_cleared(draft, sink, plan, tick, first, pictures, soon)
        }
        Breach::Hidden {
            second,
            group,
            other,
            ended,
            before,
            least,
        } => {
            let soon = Hidden {
                second,
                group,
                other,
                ended,
                before,
                least,
            };
            put_hidden(draft, sink, plan, tick, first, pictures, soon)
        }
    }
}

// Puts the line of a breach.
#[tactic(auto, unfolding(crate::specs::Lines::line_text))]
fn put_line<O: Sink>(
    draft: &mut Draft,
    sink: &mut O,
    plan: &Plan,
    tick: Tick,
    first: u32,
    pictures: u32,
    breach: &Breach,
)
    ensures { Puts O.taken O.faults draft.old draft.new sink.old sink.new (line_text plan.now.names tick first pictures breach.now) }
{
    put_head(draft, sink, plan, tick, first, b" ", breach);
    put_evidence(draft, sink, plan, tick, first, pictures, breach);
    draft.put(sink, b"\n");
}

/// Puts the lines of breaches, of a history whose first picture has this second, or of so many tenths, and that has so many.
pub fn put_lines<O: Sink>(
    draft: &mut Draft,
    sink: &mut O,
    plan: &Plan,
    tick: Tick,
    first: u32,
    pictures: u32,
    found: &[Breach],
)
    ensures { Puts O.taken O.faults draft.old draft.new sink.old sink.new (flat_map (line_text plan.now.names tick first pictures) found.now) }
{
    for breach in found {
        put_line(draft, sink, plan, tick, first, pictures, breach);
    }
}

/// Puts the breaches of a log in words, of which the first picture has this second, and that has so many: a line for each, then how
/// many seconds and breaches there are, and how often each rule was broken by each group or each two groups.
#[tactic(auto, unfolding(crate::specs::Lines::breaches_text))]
pub fn put_breaches<O: Sink>(
    draft: &mut Draft,
    sink: &mut O,
    plan: &Plan,
    first: u32,
    pictures: u32,
    found: &[Breach],
)
    ensures { Puts O.taken O.faults draft.old draft.new sink.old sink.new (breaches_text plan.now.names first pictures found.now) }
{
    put_lines(draft, sink, plan, Tick::Second, first, pictures, found);
    draft.put(sink, b"SECONDS ");
    draft.put_number(sink, pictures);
    draft.put(sink, b"\nBREACHES ");
    draft.put_long_number(sink, found.len() as u64);
    draft.put(sink, b"\n");
    put_sums(draft, sink, plan, found);
}
