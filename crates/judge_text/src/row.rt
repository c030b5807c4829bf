// The table of breaches.
ghost use Rattle.std.specs.Prelude.{◌≡◌, ◌+◌, ◌-◌, ◌≤◌, ◌++◌, ◌∷◌, [], List, ℕ, Option, length, codes};
ghost use Rattle.std.specs.List.{flat_map};
ghost use Rattle.sig_io.specs.Draft.{Puts};
ghost use Rattle.judge_text.specs.Rows.{columns_text, fields_text, row_text, span_text, table_text};

use crate::tick::{Tick, put_ticks};
use crate::words::{put_between, put_head, put_name, put_second};
use log_judge::Breach;
use pua_model::Plan;
use sig_io::{Draft, Sink};
use signal_log::letter;

// Puts since when, and how long up to before this place.
fn put_span<O: Sink>(draft: &mut Draft, sink: &mut O, tick: Tick, first: u32, from: u32, to: u32)
    ensures { Puts O.taken O.faults draft.old draft.new sink.old sink.new (span_text tick first from to) }
{
    put_second(draft, sink, tick, first, from);
    draft.put(sink, b",");
    put_ticks(draft, sink, tick, u64::from(to.saturating_sub(from)));
    draft.put(sink, b",");
}

// Puts the fields behind the group.
fn put_fields<O: Sink>(
    draft: &mut Draft,
    sink: &mut O,
    plan: &Plan,
    tick: Tick,
    first: u32,
    breach: &Breach,
)
    ensures { Puts O.taken O.faults draft.old draft.new sink.old sink.new (fields_text plan.now.names tick first breach.now) }
{
    match *breach {
        Breach::Step { was, is, .. } => {
            draft.put(sink, b",");
            draft.put(sink, &[letter(was), letter(is)]);
            draft.put(sink, b",,,");
        }
        Breach::Short {
            second,
            aspect,
            since,
            least,
            ..
        } => {
            draft.put(sink, b",");
            draft.put(sink, &[letter(aspect)]);
            draft.put(sink, b",");
            put_span(draft, sink, tick, first, since, second);
            put_ticks(draft, sink, tick, u64::from(least));
        }
        Breach::Long {
            second,
            aspect,
            since,
            most,
            ..
        } => {
            draft.put(sink, b",");
            draft.put(sink, &[letter(aspect)]);
            draft.put(sink, b",");
            put_span(draft, sink, tick, first, since, second);
            put_ticks(draft, sink, tick, u64::from(most));
        }
        Breach::Conflict {
            second,
            other,
            since,
            ..
        } => {
            put_name(draft, sink, plan, other);
            draft.put(sink, b",,");
            put_span(draft, sink, tick, first, since, second);
        }
        Breach::Intergreen {
            second,
            other,
            ended,
            least,
            ..
        } => {
            put_name(draft, sink, plan, other);
            draft.put(sink, b",,");
            put_span(draft, sink, tick, first, ended, second);
            put_ticks(draft, sink, tick, u64::from(least));
        }
        Breach::Hidden {
            second,
            other,
            ended,
            before,
            least,
            ..
        } => {
            put_name(draft, sink, plan, other);
            draft.put(sink, b",,,");
            put_between(draft, sink, tick, second, ended, before);
            draft.put(sink, b",");
            put_ticks(draft, sink, tick, u64::from(least));
        }
    }
}

// Puts the row of a breach.
#[tactic(auto, unfolding(crate::specs::Rows::row_text))]
fn put_row<O: Sink>(
    draft: &mut Draft,
    sink: &mut O,
    plan: &Plan,
    tick: Tick,
    first: u32,
    breach: &Breach,
)
    ensures { Puts O.taken O.faults draft.old draft.new sink.old sink.new (row_text plan.now.names tick first breach.now) }
{
    put_head(draft, sink, plan, tick, first, b",", breach);
    draft.put(sink, b",");
    put_fields(draft, sink, plan, tick, first, breach);
    draft.put(sink, b"\n");
}

/// Puts the rows of breaches, of a history whose first picture has this second, or of so many tenths.
pub fn put_rows<O: Sink>(
    draft: &mut Draft,
    sink: &mut O,
    plan: &Plan,
    tick: Tick,
    first: u32,
    found: &[Breach],
)
    ensures { Puts O.taken O.faults draft.old draft.new sink.old sink.new (flat_map (row_text plan.now.names tick first) found.now) }
{
    for breach in found {
        put_row(draft, sink, plan, tick, first, breach);
    }
}

/// Puts the names of the columns of the table.
pub fn put_columns<O: Sink>(draft: &mut Draft, sink: &mut O)
    ensures { Puts O.taken O.faults draft.old draft.new sink.old sink.new columns_text }
{
    draft.put(
        sink,
        b"second,rule,group,other,shown,since,seconds,needed\n",
    );
}

/// Puts the table of the breaches of a log, of which the first picture has this second: a line with the names of the columns, and a
/// row for each breach, with commas between the fields.
#[tactic(auto, unfolding(crate::specs::Rows::table_text))]
pub fn put_table<O: Sink>(
    draft: &mut Draft,
    sink: &mut O,
    plan: &Plan,
    first: u32,
    found: &[Breach],
)
    ensures { Puts O.taken O.faults draft.old draft.new sink.old sink.new (table_text plan.now.names first found.now) }
{
    put_columns(draft, sink);
    put_rows(draft, sink, plan, Tick::Second, first, found);
}
