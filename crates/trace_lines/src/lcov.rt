// The counts of lines as a tracefile of LCOV.
ghost use Rattle.std.specs.Prelude.{◌≡◌, ◌<◌, ◌≤◌, codes, count_by, length, map};
ghost use Rattle.std.specs.List.{flat_map};
ghost use Rattle.sig_io.specs.Draft.{Puts};
ghost use Rattle.trace_lines.specs.Lcov.{
  branch_text,
  branches_of,
  branches_text,
  lcov_text,
  line_text,
  number_text,
  taken_in,
  taken_of,
  taken_text,
  test_at,
  test_text,
  tests_text,
  was_reached,
};
ghost use Rattle.trace_lines.specs.Lines.{line_in, total_by};

use crate::line::{Answers, Line, times_of};
use crate::pieces::put_long;
use sig_io::{Draft, Sink};

// Puts how often a branch of a test was taken.
fn put_taken<O: Sink>(test: Answers, n: u64, draft: &mut Draft, out: &mut O)
    ensures { Puts O.taken O.faults draft.old draft.new out.old out.new (taken_text test n) }
{
    if test.yes == 0 && test.no == 0 {
        draft.put(out, b"-");
    } else {
        draft.put_long_number(out, n);
    }
}

// Puts the record of a branch.
fn put_branch<O: Sink>(
    line: u32,
    block: u64,
    branch: u32,
    test: Answers,
    n: u64,
    draft: &mut Draft,
    out: &mut O,
)
    ensures { Puts O.taken O.faults draft.old draft.new out.old out.new (branch_text line block branch test n) }
{
    draft.put(out, b"BRDA:");
    draft.put_number(out, line);
    draft.put(out, b",");
    draft.put_long_number(out, block);
    draft.put(out, b",");
    draft.put_number(out, branch);
    draft.put(out, b",");
    put_taken(test, n, draft, out);
    draft.put(out, b"\n");
}

// Puts the records of a test.
#[tactic(auto, unfolding(crate::specs::Lcov::test_text))]
fn put_test<O: Sink>(line: u32, block: u64, test: &Answers, draft: &mut Draft, out: &mut O)
    ensures { Puts O.taken O.faults draft.old draft.new out.old out.new (test_text line block test.now) }
{
    put_branch(line, block, 0, *test, test.yes, draft, out);
    put_branch(line, block, 1, *test, test.no, draft, out);
}

// Puts the records of the test at a place.
fn put_block<O: Sink>(line: u32, block: usize, tests: &[Answers], draft: &mut Draft, out: &mut O)
    requires { block < length tests.now }
    ensures { Puts O.taken O.faults draft.old draft.new out.old out.new (test_text line block (test_at tests.now block)) }
{
    put_test(line, block as u64, &tests[block], draft, out);
}

// Puts the records of the tests of a line with this number.
fn put_tests<O: Sink>(line: u32, tests: &[Answers], draft: &mut Draft, out: &mut O)
    ensures { Puts O.taken O.faults draft.old draft.new out.old out.new (tests_text line 0 tests.now) }
{
    for block in 0..tests.len() {
        put_block(line, block, tests, draft, out);
    }
}

// Puts the records of the tests of a line.
fn put_branches<O: Sink>(line: &Line, draft: &mut Draft, out: &mut O)
    ensures { Puts O.taken O.faults draft.old draft.new out.old out.new (branches_text (line_in line.now)) }
{
    put_tests(line.number, &line.tests, draft, out);
}

// Puts the record of a line.
#[tactic(auto, unfolding(crate::specs::Lcov::line_text))]
fn put_line<O: Sink>(line: &Line, draft: &mut Draft, out: &mut O)
    ensures { Puts O.taken O.faults draft.old draft.new out.old out.new (line_text (line_in line.now)) }
{
    draft.put(out, b"DA:");
    draft.put_number(out, line.number);
    draft.put(out, b",");
    draft.put_long_number(out, times_of(line));
    draft.put(out, b"\n");
}

// How many branches the tests of lines have.
fn branches_of(lines: &[Line]) -> u64
    ensures { result ≡ total_by branches_of (map line_in lines.now) }
{
    let mut branches: u64 = 0;
    for line in lines {
        let tests = line.tests.len() as u64;
        branches = branches.saturating_add(tests).saturating_add(tests);
    }
    branches
}

// How many branches of a test were taken.
fn taken_in(test: Answers) -> u64
    ensures { result ≡ taken_in test }
{
    u64::from(test.yes > 0) + u64::from(test.no > 0)
}

// How many branches of tests were taken.
fn taken_of(tests: &[Answers]) -> u64
    ensures { result ≡ total_by taken_in tests.now }
{
    let mut taken: u64 = 0;
    for test in tests {
        taken = taken.saturating_add(taken_in(*test));
    }
    taken
}

// How many branches of lines were taken.
fn all_taken(lines: &[Line]) -> u64
    ensures { result ≡ total_by taken_of (map line_in lines.now) }
{
    let mut taken: u64 = 0;
    for line in lines {
        taken = taken.saturating_add(taken_of(&line.tests));
    }
    taken
}

/// How many lines have a statement that began.
pub(crate) fn reached(lines: &[Line]) -> u64
    ensures { result ≡ count_by was_reached (map line_in lines.now) }
{
    let mut reached = 0;
    for line in lines {
        if times_of(line) > 0 {
            reached += 1;
        }
    }
    reached
}

// Puts a record of a number.
fn put_number<O: Sink>(name: &[u8], n: u64, draft: &mut Draft, out: &mut O)
    requires { length name.now ≤ 4096 }
    ensures { Puts O.taken O.faults draft.old draft.new out.old out.new (number_text name.now n) }
{
    draft.put(out, name);
    draft.put_long_number(out, n);
    draft.put(out, b"\n");
}

// Puts the records of branches.
fn put_all_branches<O: Sink>(lines: &[Line], draft: &mut Draft, out: &mut O)
    ensures { Puts O.taken O.faults draft.old draft.new out.old out.new (flat_map branches_text (map line_in lines.now)) }
{
    for line in lines {
        put_branches(line, draft, out);
    }
}

// Puts the records of lines.
fn put_all_lines<O: Sink>(lines: &[Line], draft: &mut Draft, out: &mut O)
    ensures { Puts O.taken O.faults draft.old draft.new out.old out.new (flat_map line_text (map line_in lines.now)) }
{
    for line in lines {
        put_line(line, draft, out);
    }
}

// Puts how many branches there are.
fn put_branches_found<O: Sink>(lines: &[Line], draft: &mut Draft, out: &mut O)
    ensures { Puts O.taken O.faults draft.old draft.new out.old out.new
        (number_text (codes "BRF:") (total_by branches_of (map line_in lines.now))) }
{
    put_number(b"BRF:", branches_of(lines), draft, out);
}

// Puts how many branches were taken.
fn put_branches_hit<O: Sink>(lines: &[Line], draft: &mut Draft, out: &mut O)
    ensures { Puts O.taken O.faults draft.old draft.new out.old out.new
        (number_text (codes "BRH:") (total_by taken_of (map line_in lines.now))) }
{
    put_number(b"BRH:", all_taken(lines), draft, out);
}

// Puts how many lines have a statement.
fn put_lines_found<O: Sink>(lines: &[Line], draft: &mut Draft, out: &mut O)
    ensures { Puts O.taken O.faults draft.old draft.new out.old out.new (number_text (codes "LF:") (length (map line_in lines.now))) }
{
    put_number(b"LF:", lines.len() as u64, draft, out);
}

// Puts how many lines have a statement that began.
fn put_lines_hit<O: Sink>(lines: &[Line], draft: &mut Draft, out: &mut O)
    ensures { Puts O.taken O.faults draft.old draft.new out.old out.new
        (number_text (codes "LH:") (count_by was_reached (map line_in lines.now))) }
{
    put_number(b"LH:", reached(lines), draft, out);
}

/// Puts the tracefile of a program with this name.
pub fn put_lcov<O: Sink>(name: &[u8], lines: &[Line], draft: &mut Draft, out: &mut O)
    ensures { Puts O.taken O.faults draft.old draft.new out.old out.new (lcov_text name.now (map line_in lines.now)) }
{
    draft.put(out, b"SF:");
    put_long(draft, out, name);
    draft.put(out, b"\n");
    put_all_branches(lines, draft, out);
    put_branches_found(lines, draft, out);
    put_branches_hit(lines, draft, out);
    put_all_lines(lines, draft, out);
    put_lines_found(lines, draft, out);
    put_lines_hit(lines, draft, out);
    draft.put(out, b"end_of_record\n");
}
