// The counts of lines beside the text of the program.
ghost use Rattle.std.specs.Prelude.{◌≡◌, ◌≤◌, ◌<◌, ◌*◌, ◌/◌, ◌∷◌, [], None, Some, MatchOption, codes, count_by, length, map};
ghost use Rattle.std.specs.Fmt.{decimal};
ghost use Rattle.std.specs.List.{find};
ghost use Rattle.sig_io.specs.Draft.{Puts};
ghost use Rattle.trace_lines.specs.Csv.{answers_text};
ghost use Rattle.trace_lines.specs.Lcov.{was_reached};
ghost use Rattle.trace_lines.specs.Lines.{capped, line_in, no_of, total_by, yes_of};
ghost use Rattle.trace_lines.specs.Table.{
  beside_text,
  begun_of,
  both_of,
  cells_text,
  is_both,
  is_numbered,
  right,
  rows_text,
  seconds_text,
  share_text,
  some,
  statements_of,
  sum_text,
  sums_text,
  table_text,
  tests_of,
  text_lines,
};

use crate::lcov::reached;
use crate::line::{Answers, Line, no_of, times_of, yes_of};
use crate::pieces::put_long;
use itoa::Buffer;
use sig_io::{Draft, Sink};
use sig_types::text::cut_at;

// Puts bytes at the right of a column.
fn put_right<O: Sink>(width: usize, bytes: &[u8], draft: &mut Draft, out: &mut O)
    requires { length bytes.now ≤ 4096 }
    ensures { Puts O.taken O.faults draft.old draft.new out.old out.new (right width bytes.now) }
{
    let spaces = width.saturating_sub(bytes.len());
    for space in 0..spaces {
        draft.put(out, b" ");
    }
    draft.put(out, bytes);
}

// Puts a number at the right of a column.
fn put_right_number<O: Sink>(width: usize, n: u64, draft: &mut Draft, out: &mut O)
    ensures { Puts O.taken O.faults draft.old draft.new out.old out.new (right width (decimal n)) }
{
    let mut digits = Buffer::new();
    put_right(width, digits.format(n).as_bytes(), draft, out);
}

// Puts in how many seconds a line ran.
fn put_seconds<O: Sink>(line: &Line, draft: &mut Draft, out: &mut O)
    ensures { Puts O.taken O.faults draft.old draft.new out.old out.new (right 10 (seconds_text (line_in line.now))) }
{
    if times_of(line) > 0 {
        put_right_number(10, line.seconds, draft, out);
    } else {
        put_right(10, b"never", draft, out);
    }
}

// Puts how often tests were answered yes.
fn put_yes<O: Sink>(tests: &[Answers], draft: &mut Draft, out: &mut O)
    ensures { Puts O.taken O.faults draft.old draft.new out.old out.new (right 11 (answers_text yes_of tests.now)) }
{
    if tests.is_empty() {
        put_right(11, b"", draft, out);
    } else {
        put_right_number(11, yes_of(tests), draft, out);
    }
}

// Puts how often tests were answered no.
fn put_no<O: Sink>(tests: &[Answers], draft: &mut Draft, out: &mut O)
    ensures { Puts O.taken O.faults draft.old draft.new out.old out.new (right 11 (answers_text no_of tests.now)) }
{
    if tests.is_empty() {
        put_right(11, b"", draft, out);
    } else {
        put_right_number(11, no_of(tests), draft, out);
    }
}

// Puts the counts of a line with a statement.
#[tactic(auto, unfolding(crate::specs::Table::cells_text))]
fn put_counts<O: Sink>(line: &Line, draft: &mut Draft, out: &mut O)
    ensures { Puts O.taken O.faults draft.old draft.new out.old out.new (cells_text (Some (line_in line.now))) }
{
    put_seconds(line, draft, out);
    put_right_number(11, times_of(line), draft, out);
    put_yes(&line.tests, draft, out);
    put_no(&line.tests, draft, out);
}

// The line with this number, if a statement begins in it.
fn find_line(lines: &[Line], number: usize) -> Option<&Line>
    ensures { MatchOption result (find (is_numbered number) (map line_in lines.now) ≡ None)
        (λ line. find (is_numbered number) (map line_in lines.now) ≡ Some (line_in line.now)) }
{
    for line in lines {
        if line.number as usize == number {
            return Some(line);
        }
    }
    None
}

// Puts the counts of the line with this number.
#[tactic(auto, unfolding(crate::specs::Table::cells_text))]
fn put_cells<O: Sink>(lines: &[Line], number: usize, draft: &mut Draft, out: &mut O)
    ensures { Puts O.taken O.faults draft.old draft.new out.old out.new (cells_text (find (is_numbered number) (map line_in lines.now))) }
{
    match find_line(lines, number) {
        Some(line) => put_counts(line, draft, out),
        None => put_right(43, b"", draft, out),
    }
}

// Puts a line of the text with its number, behind its counts.
fn put_beside<O: Sink>(lines: &[Line], number: usize, text: &[u8], draft: &mut Draft, out: &mut O)
    ensures { Puts O.taken O.faults draft.old draft.new out.old out.new
        (beside_text (find (is_numbered number) (map line_in lines.now)) number text.now) }
{
    put_cells(lines, number, draft, out);
    put_right_number(7, number as u64, draft, out);
    draft.put(out, b": ");
    put_long(draft, out, text);
    draft.put(out, b"\n");
}

// The first line of a text, and what stands behind it.
fn cut_line(text: &[u8]) -> (&[u8], &[u8])
    requires { 0 < length text.now }
    ensures lines { text_lines text.now ≡ result.0.now ∷ text_lines result.1.now }
    ensures shorter { length result.1.now < length text.now }
{
    match cut_at(b'\n', text) {
        Some(cut) => cut,
        None => (text, b""),
    }
}

// Puts the lines of a text, each behind its counts.
fn put_rows<O: Sink>(text: &[u8], lines: &[Line], draft: &mut Draft, out: &mut O)
    ensures { Puts O.taken O.faults draft.old draft.new out.old out.new (rows_text (map line_in lines.now) 1 (text_lines text.now)) }
{
    let mut rest = text;
    let mut number = 1;
    while !rest.is_empty() {
        let (line, next) = cut_line(rest);
        put_beside(lines, number, line, draft, out);
        rest = next;
        number += 1;
    }
}

// So many in a hundred, cut to a whole number.
fn share(n: u64, all: u64) -> u64
    requires { 0 < all }
    ensures { result ≡ capped (n * 100) / all }
{
    n.saturating_mul(100) / all
}

// Puts so many in a hundred.
fn put_share<O: Sink>(n: u64, all: u64, draft: &mut Draft, out: &mut O)
    ensures { Puts O.taken O.faults draft.old draft.new out.old out.new (share_text n all) }
{
    if all > 0 {
        draft.put(out, b", ");
        draft.put_long_number(out, share(n, all));
        draft.put(out, b" in a hundred");
    }
}

// Puts so many of all.
fn put_sum<O: Sink>(name: &[u8], n: u64, all: u64, draft: &mut Draft, out: &mut O)
    requires { length name.now ≤ 4096 }
    ensures { Puts O.taken O.faults draft.old draft.new out.old out.new (sum_text name.now n all) }
{
    draft.put(out, name);
    draft.put_long_number(out, n);
    draft.put(out, b" of ");
    draft.put_long_number(out, all);
    put_share(n, all, draft, out);
    draft.put(out, b"\n");
}

// How many statements there are.
fn statements_of(lines: &[Line]) -> u64
    ensures { result ≡ total_by statements_of (map line_in lines.now) }
{
    let mut statements: u64 = 0;
    for line in lines {
        statements = statements.saturating_add(line.statements.len() as u64);
    }
    statements
}

// How many of these counts aren't 0.
fn some(counts: &[u64]) -> u64
    ensures { result ≡ count_by some counts.now }
{
    let mut some = 0;
    for count in counts {
        if *count > 0 {
            some += 1;
        }
    }
    some
}

// How many statements began.
fn begun_of(lines: &[Line]) -> u64
    ensures { result ≡ total_by begun_of (map line_in lines.now) }
{
    let mut begun: u64 = 0;
    for line in lines {
        begun = begun.saturating_add(some(&line.statements));
    }
    begun
}

// How many tests there are.
fn tests_of(lines: &[Line]) -> u64
    ensures { result ≡ total_by tests_of (map line_in lines.now) }
{
    let mut tests: u64 = 0;
    for line in lines {
        tests = tests.saturating_add(line.tests.len() as u64);
    }
    tests
}

// How many of these tests were answered both ways.
fn both(tests: &[Answers]) -> u64
    ensures { result ≡ count_by is_both tests.now }
{
    let mut both = 0;
    for test in tests {
        if test.yes > 0 && test.no > 0 {
            both += 1;
        }
    }
    both
}

// How many tests were answered both ways.
fn both_of(lines: &[Line]) -> u64
    ensures { result ≡ total_by both_of (map line_in lines.now) }
{
    let mut total: u64 = 0;
    for line in lines {
        total = total.saturating_add(both(&line.tests));
    }
    total
}

// Puts how many lines were reached.
fn put_lines_reached<O: Sink>(lines: &[Line], draft: &mut Draft, out: &mut O)
    ensures { Puts O.taken O.faults draft.old draft.new out.old out.new
        (sum_text (codes "lines reached: ") (count_by was_reached (map line_in lines.now)) (length (map line_in lines.now))) }
{
    put_sum(
        b"lines reached: ",
        reached(lines),
        lines.len() as u64,
        draft,
        out,
    );
}

// Puts how many statements were reached.
fn put_statements_reached<O: Sink>(lines: &[Line], draft: &mut Draft, out: &mut O)
    ensures { Puts O.taken O.faults draft.old draft.new out.old out.new
        (sum_text (codes "statements reached: ") (total_by begun_of (map line_in lines.now)) (total_by statements_of (map line_in lines.now))) }
{
    put_sum(
        b"statements reached: ",
        begun_of(lines),
        statements_of(lines),
        draft,
        out,
    );
}

// Puts how many tests were answered both ways.
fn put_tests_both<O: Sink>(lines: &[Line], draft: &mut Draft, out: &mut O)
    ensures { Puts O.taken O.faults draft.old draft.new out.old out.new
        (sum_text (codes "tests answered both ways: ") (total_by both_of (map line_in lines.now)) (total_by tests_of (map line_in lines.now))) }
{
    put_sum(
        b"tests answered both ways: ",
        both_of(lines),
        tests_of(lines),
        draft,
        out,
    );
}

// Puts what was reached of all.
fn put_sums<O: Sink>(lines: &[Line], draft: &mut Draft, out: &mut O)
    ensures { Puts O.taken O.faults draft.old draft.new out.old out.new (sums_text (map line_in lines.now)) }
{
    put_lines_reached(lines, draft, out);
    put_statements_reached(lines, draft, out);
    put_tests_both(lines, draft, out);
}

/// Puts a header, the text of a program with the counts of its lines before them, and what was reached of all.
#[tactic(auto, unfolding(crate::specs::Table::table_text))]
pub fn put_table<O: Sink>(text: &[u8], lines: &[Line], draft: &mut Draft, out: &mut O)
    ensures { Puts O.taken O.faults draft.old draft.new out.old out.new (table_text text.now (map line_in lines.now)) }
{
    draft.put(out, b"   seconds      times        yes         no   line\n");
    put_rows(text, lines, draft, out);
    draft.put(out, b"\n");
    put_sums(lines, draft, out);
}
