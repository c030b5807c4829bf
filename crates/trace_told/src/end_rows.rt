// What is told of the ends of stages.
ghost use Rattle.std.specs.Prelude.{◌≡◌, []};
ghost use Rattle.std.specs.Fmt.{decimal};
ghost use Rattle.sig_io.specs.Draft.{Puts};
ghost use Rattle.trace_told.specs.EndRows.{csv_header, csv_text, header_text, row_text, words_text};

use crate::end_lines::{FirstLines, begun};
use controller::Controller;
use pua_model::Plan;
use run_seconds::Teller;
use sig_io::{Draft, Sink};
use sig_types::{Frame, StageNo};
use stage_machine::StageState;

// Puts the row above those of a table.
#[tactic(auto, unfolding(crate::specs::EndRows::csv_header))]
fn put_csv_header<O: Sink>(draft: &mut Draft, out: &mut O)
    ensures { Puts O.taken O.faults draft.old draft.new out.old out.new csv_header }
{
    draft.put(out, b"second,stage,lasted,to,line\n");
}

/// Puts the row above those of the ends, where they are a table.
pub fn put_end_header<O: Sink>(csv: bool, draft: &mut Draft, out: &mut O)
    ensures { Puts O.taken O.faults draft.old draft.new out.old out.new (header_text csv) }
{
    if csv {
        put_csv_header(draft, out);
    }
}

// Puts the number of a stage.
fn put_stage<O: Sink>(stage: StageNo, draft: &mut Draft, out: &mut O)
    ensures { Puts O.taken O.faults draft.old draft.new out.old out.new (decimal stage.0) }
{
    draft.put_number(out, u32::from(stage.0));
}

// Puts the row of a table.
fn put_csv<O: Sink>(
    second: u32,
    stage: StageNo,
    lasted: u32,
    to: StageNo,
    line: u32,
    draft: &mut Draft,
    out: &mut O,
)
    ensures { Puts O.taken O.faults draft.old draft.new out.old out.new (csv_text second stage.0 lasted to.0 line) }
{
    draft.put_number(out, second);
    draft.put(out, b",");
    put_stage(stage, draft, out);
    draft.put(out, b",");
    draft.put_number(out, lasted);
    draft.put(out, b",");
    put_stage(to, draft, out);
    draft.put(out, b",");
    draft.put_number(out, line);
    draft.put(out, b"\n");
}

// Puts a row in words.
fn put_words<O: Sink>(
    second: u32,
    stage: StageNo,
    lasted: u32,
    to: StageNo,
    line: u32,
    draft: &mut Draft,
    out: &mut O,
)
    ensures { Puts O.taken O.faults draft.old draft.new out.old out.new (words_text second stage.0 lasted to.0 line) }
{
    draft.put(out, b"second ");
    draft.put_number(out, second);
    draft.put(out, b": stage ");
    put_stage(stage, draft, out);
    draft.put(out, b" ended after ");
    draft.put_number(out, lasted);
    draft.put(out, b" s, then stage ");
    put_stage(to, draft, out);
    draft.put(out, b", line ");
    draft.put_number(out, line);
    draft.put(out, b"\n");
}

// Puts the row of a stage that ended.
fn put_row<O: Sink>(
    csv: bool,
    second: u32,
    stage: StageNo,
    lasted: u32,
    to: StageNo,
    line: u32,
    draft: &mut Draft,
    out: &mut O,
)
    ensures { Puts O.taken O.faults draft.old draft.new out.old out.new (row_text csv second stage.0 lasted to.0 line) }
{
    if csv {
        put_csv(second, stage, lasted, to, line, draft, out);
    } else {
        put_words(second, stage, lasted, to, line, draft, out);
    }
}

/// What tells of the seconds of a run by the stages that end in them, as rows of a table or in words.
#[derive(Drop)]
pub struct Ends {
    csv: bool,
    stages: StageState,
}

impl Ends {
    ghost use Rattle.trace_told.specs.EndsKnown.{AreStages};

    /// No second of a run at a site with this plan was made.
    pub fn new(csv: bool, plan: &Plan) -> Ends
        ensures csv { result.csv ≡ csv }
        ensures stages { AreStages result plan.now [] 0 }
    {
        // A plan has groups, and all else that a plan has.
        let _groups = plan.groups();
        Ends {
            csv,
            stages: StageState::new(plan.start()),
        }
    }
}

impl Teller for Ends {
    ghost use Rattle.trace_told.specs.EndsKnown.{KnowsStages};
    ghost use Rattle.trace_told.specs.EndRows.{end_told};

    ghost telling = { λ ends code site past frame. end_told ends.csv code site past frame };

    ghost knows = { λ ends code site first frames. KnowsStages ends code site first frames };

    fn tell<O: Sink>(
        &mut self,
        controller: &mut Controller,
        frame: &Frame,
        draft: &mut Draft,
        out: &mut O,
    ) {
        self.stages.step(controller.plan());
        let since = self.stages.since().0;
        let mut lines = FirstLines::new();
        controller.second_seen(frame, &mut lines);
        let record = controller.last();
        match begun(record.place) {
            Some(stages) => {
                let second = record.second.0;
                put_row(
                    self.csv,
                    second,
                    stages.0,
                    second - since,
                    stages.1,
                    lines.line(stages.0, stages.1),
                    draft,
                    out,
                );
                let _obeyed = self.stages.order(controller.plan(), stages.0, stages.1);
            }
            None => {}
        }
    }
}
