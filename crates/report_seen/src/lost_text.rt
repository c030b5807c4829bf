// The text of lost starts.
ghost use Rattle.std.specs.Prelude.{ℕ, List, Option, Bool};
ghost use Rattle.std.specs.List.{flat_map};
ghost use Rattle.sig_io.specs.Draft.{Puts};
ghost use Rattle.report_seen.specs.LostText.{lost_line, lost_row, lost_table, lost_text, other_name};

use crate::lost::LostStart;
use sig_io::{Draft, Sink};
use sig_types::{GroupNo, ShortName};
use signal_log::{put_group_name, rule_name};

// Puts the line of a lost start.
fn put_line<O: Sink>(draft: &mut Draft, sink: &mut O, names: &[ShortName], start: &LostStart)
    ensures { Puts O.taken O.faults draft.old draft.new sink.old sink.new (lost_line names.now start.now) }
{
    draft.put(sink, b"LOST ");
    put_group_name(start.group, names, draft, sink);
    draft.put(sink, b" asked:");
    draft.put_number(sink, start.asked);
    draft.put(sink, b" lost:");
    draft.put_number(sink, start.lost);
    draft.put(sink, b"\n");
}

// Puts the group that stood in the way, where there is one.
fn put_other<O: Sink>(draft: &mut Draft, sink: &mut O, names: &[ShortName], other: Option<GroupNo>)
    ensures { Puts O.taken O.faults draft.old draft.new sink.old sink.new (other_name names.now other) }
{
    match other {
        None => {}
        Some(other) => put_group_name(other, names, draft, sink),
    }
}

// Puts the row of a lost start.
fn put_row<O: Sink>(draft: &mut Draft, sink: &mut O, names: &[ShortName], start: &LostStart)
    ensures { Puts O.taken O.faults draft.old draft.new sink.old sink.new (lost_row names.now start.now) }
{
    put_group_name(start.group, names, draft, sink);
    draft.put(sink, b",");
    draft.put_number(sink, start.asked);
    draft.put(sink, b",");
    draft.put_number(sink, start.lost);
    draft.put(sink, b",");
    draft.put_number(sink, start.lost.saturating_sub(start.asked));
    draft.put(sink, b",");
    draft.put(sink, rule_name(start.rule));
    draft.put(sink, b",");
    put_other(draft, sink, names, start.other);
    draft.put(sink, b"\n");
}

// Puts the lines of lost starts.
fn put_lines<O: Sink>(draft: &mut Draft, sink: &mut O, names: &[ShortName], starts: &[LostStart])
    ensures { Puts O.taken O.faults draft.old draft.new sink.old sink.new (flat_map (lost_line names.now) starts.now) }
{
    for start in starts {
        put_line(draft, sink, names, start);
    }
}

// Puts the rows of lost starts.
fn put_rows<O: Sink>(draft: &mut Draft, sink: &mut O, names: &[ShortName], starts: &[LostStart])
    ensures { Puts O.taken O.faults draft.old draft.new sink.old sink.new (flat_map (lost_row names.now) starts.now) }
{
    for start in starts {
        put_row(draft, sink, names, start);
    }
}

// Puts the table of lost starts.
fn put_table<O: Sink>(draft: &mut Draft, sink: &mut O, names: &[ShortName], starts: &[LostStart])
    ensures { Puts O.taken O.faults draft.old draft.new sink.old sink.new (lost_table names.now starts.now) }
{
    draft.put(sink, b"group,asked,lost,seconds,rule,other\n");
    put_rows(draft, sink, names, starts);
}

/// Puts lost starts, of groups with these names, as a table or as lines.
pub(crate) fn put_lost_starts<O: Sink>(
    draft: &mut Draft,
    sink: &mut O,
    csv: bool,
    names: &[ShortName],
    starts: &[LostStart],
)
    ensures { Puts O.taken O.faults draft.old draft.new sink.old sink.new (lost_text csv names.now starts.now) }
{
    if csv {
        put_table(draft, sink, names, starts);
    } else {
        put_lines(draft, sink, names, starts);
    }
}
