// The counts of lines as CSV.
ghost use Rattle.std.specs.Prelude.{◌≡◌, map};
ghost use Rattle.std.specs.Fmt.{decimal};
ghost use Rattle.std.specs.List.{flat_map};
ghost use Rattle.sig_io.specs.Draft.{Puts};
ghost use Rattle.trace_lines.specs.Csv.{answers_text, csv_text, row_text};
ghost use Rattle.trace_lines.specs.Lines.{line_in, no_of, times_of, yes_of};

use crate::line::{Line, no_of, times_of, yes_of};
use sig_io::{Draft, Sink};

// Puts how often statements of a line began.
fn put_times<O: Sink>(line: &Line, draft: &mut Draft, out: &mut O)
    ensures { Puts O.taken O.faults draft.old draft.new out.old out.new (decimal (times_of (line_in line.now))) }
{
    draft.put_long_number(out, times_of(line));
}

// Puts how often tests of a line were answered yes; nothing where it has none.
fn put_yes<O: Sink>(line: &Line, draft: &mut Draft, out: &mut O)
    ensures { Puts O.taken O.faults draft.old draft.new out.old out.new (answers_text yes_of (line_in line.now).tests) }
{
    if !line.tests.is_empty() {
        draft.put_long_number(out, yes_of(&line.tests));
    }
}

// Puts how often tests of a line were answered no; nothing where it has none.
fn put_no<O: Sink>(line: &Line, draft: &mut Draft, out: &mut O)
    ensures { Puts O.taken O.faults draft.old draft.new out.old out.new (answers_text no_of (line_in line.now).tests) }
{
    if !line.tests.is_empty() {
        draft.put_long_number(out, no_of(&line.tests));
    }
}

// Puts the row of a line.
fn put_row<O: Sink>(line: &Line, draft: &mut Draft, out: &mut O)
    ensures { Puts O.taken O.faults draft.old draft.new out.old out.new (row_text (line_in line.now)) }
{
    draft.put_number(out, line.number);
    draft.put(out, b",");
    draft.put_long_number(out, line.seconds);
    draft.put(out, b",");
    put_times(line, draft, out);
    draft.put(out, b",");
    put_yes(line, draft, out);
    draft.put(out, b",");
    put_no(line, draft, out);
    draft.put(out, b"\n");
}

// Puts the rows of lines.
fn put_rows<O: Sink>(lines: &[Line], draft: &mut Draft, out: &mut O)
    ensures { Puts O.taken O.faults draft.old draft.new out.old out.new (flat_map row_text (map line_in lines.now)) }
{
    for line in lines {
        put_row(line, draft, out);
    }
}

/// Puts a header, and a row for each line with a statement.
#[tactic(auto, unfolding(crate::specs::Csv::csv_text))]
pub fn put_csv<O: Sink>(lines: &[Line], draft: &mut Draft, out: &mut O)
    ensures { Puts O.taken O.faults draft.old draft.new out.old out.new (csv_text (map line_in lines.now)) }
{
    draft.put(out, b"line,seconds,times,yes,no\n");
    put_rows(lines, draft, out);
}
