// The text of the breaches of a record.
ghost use Rattle.std.specs.Prelude.{◌≡◌, ◌≤◌, ◌++◌, List, ℕ, Option, length};
ghost use Rattle.sig_io.specs.Draft.{Puts};
ghost use Rattle.tenth_report.specs.Kept.{counted, found_text, kept_table, kept_text, kept_words};
ghost use Rattle.tenth_report.specs.Told.{counts_text, part_text, unknown_text};

use crate::search::{Found, JudgedPart};
use judge_text::{Tick, put_columns, put_lines, put_rows, put_sums, put_ticks};
use log_judge::Breach;
use pua_model::Plan;
use sig_io::{Draft, Sink};

// Puts the breaches of a part, as rows of a table or in words.
fn put_part<O: Sink>(
    draft: &mut Draft,
    sink: &mut O,
    plan: &Plan,
    csv: bool,
    part: JudgedPart,
    found: &[Breach],
)
    ensures { Puts O.taken O.faults draft.old draft.new sink.old sink.new (part_text csv plan.now.names part.first part.tenths found.now) }
{
    if csv {
        put_rows(draft, sink, plan, Tick::Tenth, part.first, found)
    } else {
        put_lines(
            draft,
            sink,
            plan,
            Tick::Tenth,
            part.first,
            part.tenths,
            found,
        )
    }
}

// Puts the breaches of parts, of which each has as many as it counts, one part after the other.
fn put_parts<O: Sink>(
    draft: &mut Draft,
    sink: &mut O,
    plan: &Plan,
    csv: bool,
    parts: &[JudgedPart],
    found: &[Breach],
)
    requires { counted parts.now ≤ length found.now }
    ensures { Puts O.taken O.faults draft.old draft.new sink.old sink.new (kept_text csv plan.now.names parts.now found.now) }
{
    let mut rest = found;
    for part in parts {
        let (own, others) = rest.split_at(part.count);
        put_part(draft, sink, plan, csv, *part, own);
        rest = others;
    }
}

// Puts of how much nothing is known, where there is some.
fn put_unknown<O: Sink>(draft: &mut Draft, sink: &mut O, unknown: u32)
    ensures { Puts O.taken O.faults draft.old draft.new sink.old sink.new (unknown_text unknown) }
{
    if unknown == 0 {
        return;
    }
    draft.put(sink, b"\nUNKNOWN ");
    put_ticks(draft, sink, Tick::Tenth, u64::from(unknown));
}

// Puts how much was judged and how much isn't known, and how many breaches there are.
fn put_counts<O: Sink>(draft: &mut Draft, sink: &mut O, known: u32, unknown: u32, found: &[Breach])
    ensures { Puts O.taken O.faults draft.old draft.new sink.old sink.new (counts_text known unknown found.now) }
{
    draft.put(sink, b"SECONDS ");
    put_ticks(draft, sink, Tick::Tenth, u64::from(known));
    put_unknown(draft, sink, unknown);
    draft.put(sink, b"\nBREACHES ");
    draft.put_long_number(sink, found.len() as u64);
    draft.put(sink, b"\n");
}

// Puts the breaches as a table.
fn put_table<O: Sink>(draft: &mut Draft, sink: &mut O, plan: &Plan, found: &Found)
    requires { counted found.now.parts.items ≤ length found.now.breaches.items }
    ensures { Puts O.taken O.faults draft.old draft.new sink.old sink.new (kept_table plan.now.names found.now) }
{
    put_columns(draft, sink);
    put_parts(draft, sink, plan, true, &found.parts, &found.breaches);
}

// Puts the breaches in words.
fn put_words<O: Sink>(draft: &mut Draft, sink: &mut O, plan: &Plan, found: &Found)
    requires { counted found.now.parts.items ≤ length found.now.breaches.items }
    ensures { Puts O.taken O.faults draft.old draft.new sink.old sink.new (kept_words plan.now.names found.now) }
{
    put_parts(draft, sink, plan, false, &found.parts, &found.breaches);
    put_counts(draft, sink, found.known, found.unknown, &found.breaches);
    put_sums(draft, sink, plan, &found.breaches);
}

/// Puts the breaches as a table, or in words.
pub(crate) fn put_found<O: Sink>(
    draft: &mut Draft,
    sink: &mut O,
    plan: &Plan,
    csv: bool,
    found: &Found,
)
    requires { counted found.now.parts.items ≤ length found.now.breaches.items }
    ensures { Puts O.taken O.faults draft.old draft.new sink.old sink.new (found_text csv plan.now.names found.now) }
{
    if csv {
        put_table(draft, sink, plan, found)
    } else {
        put_words(draft, sink, plan, found)
    }
}
