// The tally of a run.
ghost use Rattle.std.specs.Prelude.{◌≡◌, ◌<◌, ◌∷◌, ◌++◌, ℕ, List, [], IfOk, length, map, replicate, slice_index_or};
ghost use Rattle.vap_code.specs.declared.Instr.{Instr as InstrOf};
ghost use Rattle.vap_code.specs.Sights.{Sight};
ghost use Rattle.trace_watch.specs.Counted.{HasCounted};
ghost use Rattle.trace_lines.specs.Lines.{line_in, lines_counted};
ghost use Rattle.trace_lines.specs.Rows.{row_in};
ghost use Rattle.trace_lines.specs.Tallied.{HasTallied, answers_in, any_begun, begun_in, line_by, row_at, with_second};

use crate::line::{Answers, Line};
use crate::rows::{Row, rows_of};
use controller::Controller;
use run_seconds::Teller;
use sig_io::{Draft, Sink};
use sig_types::Frame;
use std::alloc::{AllocError, Global};
use trace_watch::{Counts, add_counts};
use vap_code::Instr;

/// What tallies the seconds of a run: what is counted of all of them, and of the last one; and for each line with a statement
/// in how many of them one began.
#[derive(Drop)]
pub struct Tally {
    rows: Vec<Row>,
    seconds: Vec<u64>,
    all: Counts,
    second: Counts,
}

// Whether a statement at one of these places was counted.
fn any_begun(counts: &Counts, places: &[usize]) -> bool
    ensures { result ≡ any_begun counts.now.begun.items places.now }
{
    for place in places {
        if counts.begun(*place) > 0 {
            return true;
        }
    }
    false
}

// Adds a second to the lines that ran in it.
fn add_second(seconds: &mut Vec<u64>, rows: &[Row], second: &Counts)
    ensures long { length seconds.new.items ≡ length seconds.old.items }
    ensures added { (r : ℕ) → r < length rows.now → r < length seconds.old.items → slice_index_or seconds.new.items r 0
        ≡ with_second (slice_index_or seconds.old.items r 0)
        (any_begun second.now.begun.items (row_at (map row_in rows.now) r).statements) }
{
    for r in 0..rows.len() {
        if r < seconds.len() && any_begun(second, &rows[r].statements) {
            seconds[r] = seconds[r].saturating_add(1);
        }
    }
}

// How often statements began at these places.
fn begun_at(alloc: Global, counts: &Counts, places: &[usize]) -> Result<Vec<u64>, AllocError>
    ensures { IfOk result (λ begun. begun.items ≡ map (begun_in counts.now) places.now) }
{
    let mut begun = Vec::new(alloc);
    for place in places {
        begun.push(counts.begun(*place))?;
    }
    Ok(begun)
}

// How the test at a place was answered.
fn answers_in(counts: &Counts, place: usize) -> Answers
    ensures { result ≡ answers_in counts.now place }
{
    Answers {
        yes: counts.yes(place),
        no: counts.no(place),
    }
}

// How the tests at these places were answered.
fn answers_at(alloc: Global, counts: &Counts, places: &[usize]) -> Result<Vec<Answers>, AllocError>
    ensures { IfOk result (λ answers. answers.items ≡ map (answers_in counts.now) places.now) }
{
    let mut answers = Vec::new(alloc);
    for place in places {
        answers.push(answers_in(counts, *place))?;
    }
    Ok(answers)
}

// What was counted of a row that ran in so many seconds.
fn line_by(alloc: Global, counts: &Counts, seconds: u64, row: &Row) -> Result<Line, AllocError>
    ensures { IfOk result (λ line. line_in line ≡ line_by counts.now seconds (row_in row.now)) }
{
    let statements = begun_at(alloc, counts, &row.statements)?;
    let tests = answers_at(alloc, counts, &row.tests)?;
    Ok(Line {
        number: row.line,
        seconds,
        statements,
        tests,
    })
}

// The count at a place; 0 where there is none.
fn seconds_at(seconds: &[u64], place: usize) -> u64
    ensures { result ≡ slice_index_or seconds.now place 0 }
{
    match seconds.get(place) {
        Some(count) => *count,
        None => 0,
    }
}

// So many counts of 0.
fn zeros(alloc: Global, count: usize) -> Result<Vec<u64>, AllocError>
    ensures { IfOk result (λ counts. counts.items ≡ replicate count 0) }
{
    vec![in alloc; 0; count]
}

impl Tally {
    /// Nothing was tallied yet of a code with these instructions.
    pub fn new(alloc: Global, instrs: &[Instr]) -> Result<Tally, AllocError>
        ensures { IfOk result (λ t. HasTallied t instrs.now []) }
    {
        let rows = rows_of(alloc, instrs)?;
        let seconds = zeros(alloc, rows.len())?;
        let all = Counts::new(alloc, instrs.len())?;
        let second = Counts::new(alloc, instrs.len())?;
        Ok(Tally {
            rows,
            seconds,
            all,
            second,
        })
    }

    // Adds the second that was counted.
    fn add(&mut self)
        ensures { (instrs : List InstrOf) (seconds : List (List Sight)) (sights : List Sight) → HasTallied self.old instrs seconds →
            HasCounted self.old.second sights → HasTallied self.new instrs (seconds ++ sights ∷ []) }
    {
        self.all.add(&self.second);
        add_second(&mut self.seconds, &self.rows, &self.second);
    }

    /// Adds what another one tallied of the same code.
    pub fn add_run(&mut self, other: &Tally)
        ensures { (instrs : List InstrOf) (seconds more : List (List Sight)) → HasTallied self.old instrs seconds →
            HasTallied other.now instrs more → HasTallied self.new instrs (seconds ++ more) }
    {
        self.all.add(&other.all);
        add_counts(&mut self.seconds, &other.seconds);
    }

    /// What is counted of all lines of a code that have a statement.
    pub fn lines(&self, alloc: Global) -> Result<Vec<Line>, AllocError>
        ensures { (instrs : List InstrOf) (seconds : List (List Sight)) → HasTallied self.now instrs seconds →
            IfOk result (λ lines. map line_in lines.items ≡ lines_counted instrs seconds) }
    {
        let mut lines = Vec::new(alloc);
        for r in 0..self.rows.len() {
            let line = line_by(
                alloc,
                &self.all,
                seconds_at(&self.seconds, r),
                &self.rows[r],
            )?;
            lines.push(line)?;
        }
        Ok(lines)
    }
}

impl Teller for Tally {
    ghost use Rattle.std.specs.Prelude.{[]};
    ghost use Rattle.trace_lines.specs.Seconds.{sights_by};
    ghost use Rattle.trace_lines.specs.Tallied.{HasTallied};

    ghost telling = { λ tally code site past frame. [] };

    ghost knows = { λ tally code site first frames. HasTallied tally code.instrs (sights_by code site first frames) };

    fn tell<O: Sink>(
        &mut self,
        controller: &mut Controller,
        frame: &Frame,
        draft: &mut Draft,
        out: &mut O,
    ) {
        self.second.clear();
        controller.second_seen(frame, &mut self.second);
        self.add();
    }
}
