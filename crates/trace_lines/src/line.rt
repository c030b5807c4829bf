// What is counted of a line.
ghost use Rattle.std.specs.Prelude.{◌≡◌};
ghost use Rattle.trace_lines.specs.Lines.{line_in, no_of, times_of, total_by, yes_of};

/// How often a test was answered yes, and how often no.
#[derive(Clone, Copy)]
pub struct Answers {
    pub yes: u64,
    pub no: u64,
}

/// What is counted of a line with a statement.
#[derive(Drop)]
pub struct Line {
    /// Its number, from 1.
    pub number: u32,
    /// In how many seconds one of its statements began.
    pub seconds: u64,
    /// How often each of its statements began.
    pub statements: Vec<u64>,
    /// How each of its tests was answered.
    pub tests: Vec<Answers>,
}

// The sum of counts.
fn total(counts: &[u64]) -> u64
    ensures { result ≡ total_by (λ n. n) counts.now }
{
    let mut total: u64 = 0;
    for count in counts {
        total = total.saturating_add(*count);
    }
    total
}

/// How often statements of a line began.
pub(crate) fn times_of(line: &Line) -> u64
    ensures { result ≡ times_of (line_in line.now) }
{
    total(&line.statements)
}

/// How often tests were answered yes.
pub(crate) fn yes_of(tests: &[Answers]) -> u64
    ensures { result ≡ total_by yes_of tests.now }
{
    let mut total: u64 = 0;
    for test in tests {
        total = total.saturating_add(test.yes);
    }
    total
}

/// How often tests were answered no.
pub(crate) fn no_of(tests: &[Answers]) -> u64
    ensures { result ≡ total_by no_of tests.now }
{
    let mut total: u64 = 0;
    for test in tests {
        total = total.saturating_add(test.no);
    }
    total
}
