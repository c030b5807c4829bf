// The table of refusals.
ghost use Rattle.std.specs.Prelude.{◌≡◌, ◌+◌, ◌-◌, ◌≤◌, ◌++◌, [], List, ℕ, Option, length, codes};
ghost use Rattle.std.specs.List.{flat_map};
ghost use Rattle.std.specs.Fmt.{decimal};
ghost use Rattle.sig_io.specs.Draft.{Puts};
ghost use Rattle.signal_log.specs.Log.{place_text};
ghost use Rattle.refusal_text.specs.Rows.{cause_fields, fields_text, numbers_text, other_field, row_text, said_fields, span_text, table_text};

use crate::refusal::{Refusal, Said};
use crate::words::{asked_name, put_command, put_name, put_second, second_of};
use log_judge::Reason;
use pua_model::Plan;
use sig_io::{Draft, Sink};
use sig_types::{GroupNo, StagePlace};
use signal_log::rule_name;

// Puts since when, and how long up to before this place.
fn put_span<O: Sink>(draft: &mut Draft, sink: &mut O, first: u32, from: u32, to: u32)
    ensures { Puts O.taken O.faults draft.old draft.new sink.old sink.new (span_text first from to) }
{
    put_second(draft, sink, first, u64::from(from));
    draft.put(sink, b",");
    draft.put_number(sink, to.saturating_sub(from));
    draft.put(sink, b",");
}

// Puts these, how many seconds are needed, and the earliest second without this cause.
fn put_numbers<O: Sink>(
    draft: &mut Draft,
    sink: &mut O,
    first: u32,
    span: (u32, u32),
    needed: u32,
    earliest: u64,
)
    requires { earliest ≤ 12884901888 }
    ensures { Puts O.taken O.faults draft.old draft.new sink.old sink.new (numbers_text first span.0 span.1 needed earliest) }
{
    put_span(draft, sink, first, span.0, span.1);
    draft.put_number(sink, needed);
    draft.put(sink, b",");
    put_second(draft, sink, first, earliest);
    draft.put(sink, b",");
}

// Puts the five fields of a cause.
fn put_cause<O: Sink>(
    draft: &mut Draft,
    sink: &mut O,
    plan: &Plan,
    first: u32,
    second: u32,
    why: Reason,
)
    ensures { Puts O.taken O.faults draft.old draft.new sink.old sink.new (cause_fields plan.now.names first second why) }
{
    match why {
        Reason::NotYet { since, time } => {
            let earliest = u64::from(since) + u64::from(time) + 1;
            put_numbers(draft, sink, first, (since, second), time, earliest);
        }
        Reason::Least { since, least } => {
            let earliest = u64::from(since) + u64::from(least);
            put_numbers(draft, sink, first, (since, second), least, earliest);
        }
        Reason::On { other: _, since } => {
            put_span(draft, sink, first, since, second);
            draft.put(sink, b",,");
        }
        Reason::Uncleared {
            other: _,
            ended,
            due,
            least,
            free,
            by,
        } => {
            put_numbers(draft, sink, first, (ended, due), least, u64::from(free));
            put_name(draft, sink, plan, by);
        }
        Reason::Nothing => draft.put(sink, b",,,,"),
    }
}

// Puts whether a turn is borne out, and the cause where it is.
fn put_said<O: Sink>(
    draft: &mut Draft,
    sink: &mut O,
    plan: &Plan,
    first: u32,
    second: u32,
    said: Said,
)
    ensures { Puts O.taken O.faults draft.old draft.new sink.old sink.new (said_fields plan.now.names first second said) }
{
    match said {
        Said::Borne(why) => {
            draft.put(sink, b"yes,");
            put_cause(draft, sink, plan, first, second, why);
        }
        Said::Unknown => draft.put(sink, b"unknown,,,,,"),
        Said::Contradicted => draft.put(sink, b"no,,,,,"),
    }
}

// Puts the other group, where one is named.
fn put_other<O: Sink>(draft: &mut Draft, sink: &mut O, plan: &Plan, other: Option<GroupNo>)
    ensures { Puts O.taken O.faults draft.old draft.new sink.old sink.new (other_field plan.now.names other) }
{
    match other {
        None => {}
        Some(other) => put_name(draft, sink, plan, other),
    }
}

// Puts the stage, or the interstage and its second.
fn put_place<O: Sink>(draft: &mut Draft, sink: &mut O, place: StagePlace)
    ensures { Puts O.taken O.faults draft.old draft.new sink.old sink.new (place_text place) }
{
    match place {
        StagePlace::NoPlan => draft.put(sink, b"-"),
        StagePlace::Stage(stage) => {
            draft.put(sink, b"S");
            draft.put_number(sink, u32::from(stage.0));
        }
        StagePlace::Inter { from, to, t } => {
            draft.put(sink, b"I");
            draft.put_number(sink, u32::from(from.0));
            draft.put(sink, b"-");
            draft.put_number(sink, u32::from(to.0));
            draft.put(sink, b"+");
            draft.put_number(sink, u32::from(t));
        }
    }
}

// Puts the fields behind the second.
fn put_fields<O: Sink>(draft: &mut Draft, sink: &mut O, plan: &Plan, first: u32, refusal: &Refusal)
    ensures { Puts O.taken O.faults draft.old draft.new sink.old sink.new (fields_text plan.now.names first refusal.now) }
{
    match *refusal {
        Refusal::Command { refused, place, .. } => {
            draft.put(sink, b",,");
            put_command(draft, sink, refused);
            draft.put(sink, b",");
            draft.put(sink, rule_name(refused.rule));
            draft.put(sink, b",");
            put_place(draft, sink, place);
            draft.put(sink, b",,,,,,");
        }
        Refusal::Turn {
            second,
            turn,
            asked,
            said,
        } => {
            draft.put(sink, b",");
            put_name(draft, sink, plan, turn.group);
            draft.put(sink, b",");
            draft.put(sink, asked_name(asked));
            draft.put(sink, b",");
            draft.put(sink, rule_name(turn.rule));
            draft.put(sink, b",");
            put_other(draft, sink, plan, turn.other);
            draft.put(sink, b",");
            put_said(draft, sink, plan, first, second, said);
        }
    }
}

// Puts the row of a refusal.
#[tactic(auto, unfolding(crate::specs::Rows::row_text))]
fn put_row<O: Sink>(draft: &mut Draft, sink: &mut O, plan: &Plan, first: u32, refusal: &Refusal)
    ensures { Puts O.taken O.faults draft.old draft.new sink.old sink.new (row_text plan.now.names first refusal.now) }
{
    put_second(draft, sink, first, u64::from(second_of(refusal)));
    put_fields(draft, sink, plan, first, refusal);
    draft.put(sink, b"\n");
}

// Puts the rows of refusals.
fn put_rows<O: Sink>(draft: &mut Draft, sink: &mut O, plan: &Plan, first: u32, found: &[Refusal])
    ensures { Puts O.taken O.faults draft.old draft.new sink.old sink.new (flat_map (row_text plan.now.names first) found.now) }
{
    for refusal in found {
        put_row(draft, sink, plan, first, refusal);
    }
}

/// Puts the table of refusals, of a log whose place 0 has this second: a line with the names of the columns, and a row for each
/// refusal, with commas between the fields.
#[tactic(auto, unfolding(crate::specs::Rows::table_text))]
pub(crate) fn put_table<O: Sink>(
    draft: &mut Draft,
    sink: &mut O,
    plan: &Plan,
    first: u32,
    found: &[Refusal],
)
    ensures { Puts O.taken O.faults draft.old draft.new sink.old sink.new (table_text plan.now.names first found.now) }
{
    draft.put(
        sink,
        b"second,group,asked,rule,other,borne_out,since,seconds,needed,earliest,by\n",
    );
    put_rows(draft, sink, plan, first, found);
}
