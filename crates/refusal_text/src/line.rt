// The words of refusals.
ghost use Rattle.std.specs.Prelude.{◌≡◌, ◌+◌, ◌-◌, ◌≤◌, ◌++◌, [], List, ℕ, Option, length, codes};
ghost use Rattle.std.specs.List.{flat_map};
ghost use Rattle.std.specs.Fmt.{decimal};
ghost use Rattle.sig_io.specs.Draft.{Puts};
ghost use Rattle.refusal_text.specs.Lines.{are_text, cause_text, change_name, earliest_text, lasts_text, line_text, needed_text, other_text, place_words, refusal_text, said_text, sake_text, second_text, stand_name, uncleared_text, words_text};
ghost use Rattle.refusal_text.specs.Order.{AreInOrder};

use crate::refusal::{Refusal, Said};
use crate::sums::put_sums;
use crate::words::{asked_name, put_command, put_name, put_second, second_of};
use log_judge::{Asked, Reason};
use pua_model::Plan;
use sig_io::{Draft, Sink};
use sig_types::{GroupNo, StagePlace};
use signal_log::rule_name;

// The verb of so many seconds.
fn are_text(n: u64) -> &'static [u8]
    ensures verb { result.now ≡ are_text n }
    ensures short { length result.now ≤ 16 }
{
    if n == 1 { b" is " } else { b" are " }
}

// Puts a second as the log numbers it.
fn put_in<O: Sink>(draft: &mut Draft, sink: &mut O, first: u32, place: u64)
    requires { place ≤ 12884901888 }
    ensures { Puts O.taken O.faults draft.old draft.new sink.old sink.new (second_text first place) }
{
    draft.put(sink, b" second ");
    put_second(draft, sink, first, place);
}

// Puts since when, and how long up to before this place.
fn put_lasts<O: Sink>(draft: &mut Draft, sink: &mut O, first: u32, since: u32, second: u32)
    ensures { Puts O.taken O.faults draft.old draft.new sink.old sink.new (lasts_text first since second) }
{
    draft.put(sink, b" since");
    put_in(draft, sink, first, u64::from(since));
    draft.put(sink, b", for ");
    draft.put_number(sink, second.saturating_sub(since));
    draft.put(sink, b" s");
}

// Puts how many seconds are needed, and how many are missing.
fn put_needed<O: Sink>(draft: &mut Draft, sink: &mut O, needed: u32, missing: u64)
    ensures { Puts O.taken O.faults draft.old draft.new sink.old sink.new (needed_text needed missing) }
{
    draft.put(sink, b"; ");
    draft.put_number(sink, needed);
    draft.put(sink, b" s");
    draft.put(sink, are_text(u64::from(needed)));
    draft.put(sink, b"needed, ");
    draft.put_long_number(sink, missing);
    draft.put(sink, are_text(missing));
    draft.put(sink, b"missing");
}

// Puts the earliest second in which a turn is free of the cause.
fn put_earliest<O: Sink>(draft: &mut Draft, sink: &mut O, first: u32, asked: Asked, place: u64)
    requires { place ≤ 12884901888 }
    ensures { Puts O.taken O.faults draft.old draft.new sink.old sink.new (earliest_text first asked place) }
{
    draft.put(sink, b"; earliest ");
    draft.put(sink, asked_name(asked));
    draft.put(sink, b" in");
    put_in(draft, sink, first, place);
}

// What a group shows that isn't yet red, or green.
fn change_name(asked: Asked) -> &'static [u8]
    ensures name { result.now ≡ change_name asked }
    ensures short { length result.now ≤ 16 }
{
    match asked {
        Asked::Start => b"amber",
        Asked::End => b"red-amber",
    }
}

// What a group shows that is asked to start, or to end.
fn stand_name(asked: Asked) -> &'static [u8]
    ensures name { result.now ≡ stand_name asked }
    ensures short { length result.now ≤ 16 }
{
    match asked {
        Asked::Start => b"red",
        Asked::End => b"green",
    }
}

// Puts the group for whose sake the earliest second is that one, where it's another one.
fn put_sake<O: Sink>(draft: &mut Draft, sink: &mut O, plan: &Plan, other: GroupNo, by: GroupNo)
    ensures { Puts O.taken O.faults draft.old draft.new sink.old sink.new (sake_text plan.now.names other by) }
{
    if by.0 != other.0 {
        draft.put(sink, b" because of ");
        put_name(draft, sink, plan, by);
    }
}

// What is told of an intergreen.
#[derive(Clone, Copy)]
struct Uncleared {
    group: GroupNo,
    other: GroupNo,
    ended: u32,
    due: u32,
    least: u32,
    free: u32,
    by: GroupNo,
}

// Puts an end, the green that would come after it, what it lacks, and the earliest start.
fn put_uncleared<O: Sink>(draft: &mut Draft, sink: &mut O, plan: &Plan, first: u32, u: Uncleared)
    ensures { Puts O.taken O.faults draft.old draft.new sink.old sink.new
        (uncleared_text plan.now.names first u.group u.other u.ended u.due u.least u.free u.by) }
{
    let missing = (u64::from(u.ended) + u64::from(u.least)).saturating_sub(u64::from(u.due));
    put_name(draft, sink, plan, u.other);
    draft.put(sink, b" ended in");
    put_in(draft, sink, first, u64::from(u.ended));
    draft.put(sink, b", ");
    put_name(draft, sink, plan, u.group);
    draft.put(sink, b" would be green in");
    put_in(draft, sink, first, u64::from(u.due));
    put_needed(draft, sink, u.least, missing);
    put_earliest(draft, sink, first, Asked::Start, u64::from(u.free));
    put_sake(draft, sink, plan, u.other, u.by);
}

// Puts a red-amber or an amber that isn't over.
fn put_not_yet<O: Sink>(
    draft: &mut Draft,
    sink: &mut O,
    first: u32,
    second: u32,
    asked: Asked,
    since: u32,
    time: u32,
)
    ensures { Puts O.taken O.faults draft.old draft.new sink.old sink.new
        (change_name asked ++ lasts_text first since second ++ codes "; its time is " ++ decimal time ++ codes " s"
        ++ earliest_text first asked (since + time + 1)) }
{
    draft.put(sink, change_name(asked));
    put_lasts(draft, sink, first, since, second);
    draft.put(sink, b"; its time is ");
    draft.put_number(sink, time);
    draft.put(sink, b" s");
    put_earliest(
        draft,
        sink,
        first,
        asked,
        u64::from(since) + u64::from(time) + 1,
    );
}

// Puts a green or a red that has to last.
fn put_least<O: Sink>(
    draft: &mut Draft,
    sink: &mut O,
    first: u32,
    second: u32,
    asked: Asked,
    since: u32,
    least: u32,
)
    ensures { Puts O.taken O.faults draft.old draft.new sink.old sink.new
        (stand_name asked ++ lasts_text first since second ++ needed_text least (since + least - second)
        ++ earliest_text first asked (since + least)) }
{
    let end = u64::from(since) + u64::from(least);
    draft.put(sink, stand_name(asked));
    put_lasts(draft, sink, first, since, second);
    put_needed(draft, sink, least, end.saturating_sub(u64::from(second)));
    put_earliest(draft, sink, first, asked, end);
}

// Puts the cause in numbers.
fn put_cause<O: Sink>(
    draft: &mut Draft,
    sink: &mut O,
    plan: &Plan,
    first: u32,
    second: u32,
    group: GroupNo,
    asked: Asked,
    why: Reason,
)
    ensures { Puts O.taken O.faults draft.old draft.new sink.old sink.new (cause_text plan.now.names first second group asked why) }
{
    match why {
        Reason::NotYet { since, time } => {
            put_not_yet(draft, sink, first, second, asked, since, time)
        }
        Reason::Least { since, least } => {
            put_least(draft, sink, first, second, asked, since, least)
        }
        Reason::On { other, since } => {
            put_name(draft, sink, plan, other);
            draft.put(sink, b" has been on");
            put_lasts(draft, sink, first, since, second);
        }
        Reason::Uncleared {
            other,
            ended,
            due,
            least,
            free,
            by,
        } => {
            let uncleared = Uncleared {
                group,
                other,
                ended,
                due,
                least,
                free,
                by,
            };
            put_uncleared(draft, sink, plan, first, uncleared)
        }
        Reason::Nothing => draft.put(sink, b"no numbers"),
    }
}

// Puts the cause, or that it isn't borne out.
fn put_said<O: Sink>(
    draft: &mut Draft,
    sink: &mut O,
    plan: &Plan,
    first: u32,
    second: u32,
    group: GroupNo,
    asked: Asked,
    said: Said,
)
    ensures { Puts O.taken O.faults draft.old draft.new sink.old sink.new (said_text plan.now.names first second group asked said) }
{
    match said {
        Said::Borne(why) => put_cause(draft, sink, plan, first, second, group, asked, why),
        Said::Unknown => {
            draft.put(sink, asked_name(asked));
            draft.put(
                sink,
                b" refused; what would bear this out lies before the log",
            );
        }
        Said::Contradicted => {
            draft.put(sink, asked_name(asked));
            draft.put(
                sink,
                b" refused; the pictures and the tables do not bear this out",
            );
        }
    }
}

// Puts what ran, or was active.
fn put_place<O: Sink>(draft: &mut Draft, sink: &mut O, place: StagePlace)
    ensures { Puts O.taken O.faults draft.old draft.new sink.old sink.new (place_words place) }
{
    match place {
        StagePlace::NoPlan => draft.put(sink, b"no stage was active"),
        StagePlace::Stage(stage) => {
            draft.put(sink, b"stage ");
            draft.put_number(sink, u32::from(stage.0));
            draft.put(sink, b" was active");
        }
        StagePlace::Inter { from, to, t } => {
            draft.put(sink, b"interstage ");
            draft.put_number(sink, u32::from(from.0));
            draft.put(sink, b"-");
            draft.put_number(sink, u32::from(to.0));
            draft.put(sink, b" was in its second ");
            draft.put_number(sink, u32::from(t));
        }
    }
}

// Puts the other group, where one is named.
fn put_other<O: Sink>(draft: &mut Draft, sink: &mut O, plan: &Plan, other: Option<GroupNo>)
    ensures { Puts O.taken O.faults draft.old draft.new sink.old sink.new (other_text plan.now.names other) }
{
    match other {
        None => {}
        Some(other) => {
            draft.put(sink, b" ");
            put_name(draft, sink, plan, other);
        }
    }
}

// Puts the words behind the second.
fn put_refusal<O: Sink>(draft: &mut Draft, sink: &mut O, plan: &Plan, first: u32, refusal: &Refusal)
    ensures { Puts O.taken O.faults draft.old draft.new sink.old sink.new (refusal_text plan.now.names first refusal.now) }
{
    draft.put(sink, b" ");
    match *refusal {
        Refusal::Command { refused, place, .. } => {
            put_command(draft, sink, refused);
            draft.put(sink, b" ");
            draft.put(sink, rule_name(refused.rule));
            draft.put(sink, b": ");
            put_place(draft, sink, place);
        }
        Refusal::Turn {
            second,
            turn,
            asked,
            said,
        } => {
            put_name(draft, sink, plan, turn.group);
            draft.put(sink, b" ");
            draft.put(sink, rule_name(turn.rule));
            put_other(draft, sink, plan, turn.other);
            draft.put(sink, b": ");
            put_said(draft, sink, plan, first, second, turn.group, asked, said);
        }
    }
}

// Puts the line of a refusal.
#[tactic(auto, unfolding(crate::specs::Lines::line_text))]
fn put_line<O: Sink>(draft: &mut Draft, sink: &mut O, plan: &Plan, first: u32, refusal: &Refusal)
    ensures { Puts O.taken O.faults draft.old draft.new sink.old sink.new (line_text plan.now.names first refusal.now) }
{
    put_second(draft, sink, first, u64::from(second_of(refusal)));
    put_refusal(draft, sink, plan, first, refusal);
    draft.put(sink, b"\n");
}

// Puts the lines of refusals.
fn put_lines<O: Sink>(draft: &mut Draft, sink: &mut O, plan: &Plan, first: u32, found: &[Refusal])
    ensures { Puts O.taken O.faults draft.old draft.new sink.old sink.new (flat_map (line_text plan.now.names first) found.now) }
{
    for refusal in found {
        put_line(draft, sink, plan, first, refusal);
    }
}

/// Puts refusals in words, of a log whose place 0 has this second: a line for each, then how many there are, and how often and
/// how long each group was refused by each rule.
#[tactic(auto, unfolding(crate::specs::Lines::words_text))]
pub(crate) fn put_words<O: Sink>(
    draft: &mut Draft,
    sink: &mut O,
    plan: &Plan,
    first: u32,
    found: &[Refusal],
)
    requires { AreInOrder found.now }
    ensures { Puts O.taken O.faults draft.old draft.new sink.old sink.new (words_text plan.now.names first found.now) }
{
    put_lines(draft, sink, plan, first, found);
    draft.put(sink, b"REFUSALS ");
    draft.put_long_number(sink, found.len() as u64);
    draft.put(sink, b"\n");
    put_sums(draft, sink, plan, found);
}
