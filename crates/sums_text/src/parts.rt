// The text of the sums of parts.
ghost use Rattle.std.specs.Prelude.{◌≡◌, ◌+◌, ◌-◌, ◌<◌, ◌≤◌, ◌++◌, All, ℕ, List, codes, length, max};
ghost use Rattle.std.specs.Fmt.{decimal};
ghost use Rattle.std.specs.List.{flat_map};
ghost use Rattle.sig_io.specs.Draft.{Puts};
ghost use Rattle.sums_text.specs.Parts.{AreAllTextual, named_in, part_text, parts_rows, parts_table, parts_text};
ghost use Rattle.sums_text.specs.Table.{head_text, last_in, sums_rows};
ghost use Rattle.sums_text.specs.Words.{AreTextual, lines_text, pair_text};

use crate::cells::last_in;
use crate::numbers::put_pair;
use crate::rows::put_lines;
use crate::table::put_sums_rows;
use log_sums::{DetectorSums, LogSums};
use sig_io::{Draft, Sink};
use sig_types::ShortName;

// Puts the lines of a part, with those of the detectors that are named in these.
#[tactic(auto, unfolding(crate::specs::Parts::part_text))]
fn put_part<O: Sink>(
    draft: &mut Draft,
    sink: &mut O,
    names: &[ShortName],
    named: &[DetectorSums; 64],
    sums: &LogSums,
)
    requires { AreTextual (length names.now) sums.now }
    ensures { Puts O.taken O.faults draft.old draft.new sink.old sink.new (part_text names.now named.now sums.now) }
{
    put_pair(draft, sink, b"PART ", sums.from);
    put_pair(draft, sink, b"-", last_in(sums));
    draft.put(sink, b"\n");
    put_lines(draft, sink, names, named, sums);
}

// Puts the lines of parts, each with those of the detectors that are named in these.
fn put_each<O: Sink>(
    draft: &mut Draft,
    sink: &mut O,
    names: &[ShortName],
    named: &[DetectorSums; 64],
    parts: &[LogSums],
)
    requires { AreAllTextual (length names.now) parts.now }
    ensures { Puts O.taken O.faults draft.old draft.new sink.old sink.new (flat_map (part_text names.now named.now) parts.now) }
{
    for sums in parts {
        put_part(draft, sink, names, named, sums);
    }
}

/// Puts the text of the sums of parts, of groups with these names: of each a line with its first and its last second, and then
/// the lines of its sums. Each part tells all detectors that are named up to the last one.
pub fn put_parts<O: Sink>(draft: &mut Draft, sink: &mut O, names: &[ShortName], parts: &[LogSums])
    requires { AreAllTextual (length names.now) parts.now }
    ensures { Puts O.taken O.faults draft.old draft.new sink.old sink.new (parts_text names.now parts.now) }
{
    match parts.last() {
        Some(last) => put_each(draft, sink, names, &last.detectors, parts),
        None => {}
    }
}

// Puts the rows of parts, each with those of the detectors that are named in these.
fn put_each_rows<O: Sink>(
    draft: &mut Draft,
    sink: &mut O,
    names: &[ShortName],
    named: &[DetectorSums; 64],
    parts: &[LogSums],
)
    requires { AreAllTextual (length names.now) parts.now }
    ensures { Puts O.taken O.faults draft.old draft.new sink.old sink.new (flat_map (sums_rows names.now named.now) parts.now) }
{
    for sums in parts {
        put_sums_rows(draft, sink, names, named, sums);
    }
}

// Puts the rows of the sums of parts.
fn put_parts_rows<O: Sink>(draft: &mut Draft, sink: &mut O, names: &[ShortName], parts: &[LogSums])
    requires { AreAllTextual (length names.now) parts.now }
    ensures { Puts O.taken O.faults draft.old draft.new sink.old sink.new (parts_rows names.now parts.now) }
{
    match parts.last() {
        Some(last) => put_each_rows(draft, sink, names, &last.detectors, parts),
        None => {}
    }
}

/// Puts the table of the sums of parts, of groups with these names.
#[tactic(auto, unfolding(crate::specs::Parts::parts_table))]
pub fn put_parts_table<O: Sink>(
    draft: &mut Draft,
    sink: &mut O,
    names: &[ShortName],
    parts: &[LogSums],
)
    requires { AreAllTextual (length names.now) parts.now }
    ensures { Puts O.taken O.faults draft.old draft.new sink.old sink.new (parts_table names.now parts.now) }
{
    draft.put(sink, b"from,to,line,name,key,value\n");
    put_parts_rows(draft, sink, names, parts);
}
