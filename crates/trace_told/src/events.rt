// What is written of the events of a second.
ghost use Rattle.std.specs.Prelude.{◌≤◌, ◌++◌, length};
ghost use Rattle.std.specs.Fmt.{decimal};
ghost use Rattle.sig_io.specs.Draft.{Puts};
ghost use Rattle.sig_types.specs.Number.{holds};
ghost use Rattle.sig_types.specs.Recorded.{IsRecord};
ghost use Rattle.pua_model.specs.Plan.{groups_in};
ghost use Rattle.vap_ast.specs.Tree.{program_of};
ghost use Rattle.trace_told.specs.Listing.{answer_text, before_text, commanded_text, event_text, events_text, given_text, read_text, set_text, tested_text, timer_text};

use crate::became::{Answered, put_became};
use crate::words::{put_command, put_reading, put_slot, put_sub, timer_word};
use pua_model::Plan;
use sig_io::{Draft, Sink};
use sig_types::{CommandKind, ReadingKind, Record, TimerKind};
use trace_watch::{Event, Slot};
use vap_check::Checked;

// Puts a value that may not be there.
fn put_before<O: Sink>(before: Option<i32>, draft: &mut Draft, out: &mut O)
    ensures { Puts O.taken O.faults draft.old draft.new out.old out.new (before_text before) }
{
    match before {
        None => draft.put(out, b"none"),
        Some(value) => draft.put_signed(out, value),
    }
}

// Puts the answer of a test that has this value.
fn put_answer<O: Sink>(value: i32, draft: &mut Draft, out: &mut O)
    ensures { Puts O.taken O.faults draft.old draft.new out.old out.new (answer_text (holds value)) }
{
    if value != 0 {
        draft.put(out, b"yes");
    } else {
        draft.put(out, b"no");
    }
}

// Puts a reading.
fn put_read<O: Sink>(kind: ReadingKind, a: i32, b: i32, draft: &mut Draft, out: &mut O)
    ensures { Puts O.taken O.faults draft.old draft.new out.old out.new (read_text kind a b) }
{
    draft.put(out, b"\n  ");
    put_reading(kind, a, b, draft, out);
}

// Puts the value that was taken.
fn put_given<O: Sink>(value: i32, draft: &mut Draft, out: &mut O)
    ensures { Puts O.taken O.faults draft.old draft.new out.old out.new (given_text value) }
{
    draft.put(out, b" = ");
    draft.put_signed(out, value);
}

// Puts a test that has this value.
fn put_tested<O: Sink>(value: i32, draft: &mut Draft, out: &mut O)
    ensures { Puts O.taken O.faults draft.old draft.new out.old out.new (tested_text value) }
{
    draft.put(out, b"\n  test: ");
    put_answer(value, draft, out);
}

// Puts an assignment, with the value before and after it.
fn put_set<O: Sink>(
    checked: &Checked,
    slot: Slot,
    before: Option<i32>,
    after: i32,
    draft: &mut Draft,
    out: &mut O,
)
    ensures { Puts O.taken O.faults draft.old draft.new out.old out.new (set_text (program_of checked.now.tree) slot before after) }
{
    draft.put(out, b"\n  ");
    put_slot(checked, slot, draft, out);
    draft.put(out, b": ");
    put_before(before, draft, out);
    draft.put(out, b" -> ");
    draft.put_signed(out, after);
}

// Puts what is done with a timer.
fn put_timer<O: Sink>(
    checked: &Checked,
    kind: TimerKind,
    timer: u16,
    draft: &mut Draft,
    out: &mut O,
)
    ensures { Puts O.taken O.faults draft.old draft.new out.old out.new (timer_text (program_of checked.now.tree) kind timer) }
{
    draft.put(out, b"\n  ");
    draft.put(out, timer_word(kind));
    draft.put(out, b"(");
    put_slot(checked, Slot::Timer(timer), draft, out);
    draft.put(out, b")");
}

// Puts a command, behind which these events come, with what became of it.
fn put_commanded<O: Sink>(
    plan: &Plan,
    rec: &Record,
    done: Answered,
    kind: CommandKind,
    a: i32,
    b: i32,
    behind: &[Event],
    draft: &mut Draft,
    out: &mut O,
)
    requires { IsRecord (groups_in plan.now) rec.now }
    ensures { Puts O.taken O.faults draft.old draft.new out.old out.new
        (commanded_text plan.now rec.now done kind a b behind.now) }
{
    draft.put(out, b"\n  ");
    put_command(kind, a, b, draft, out);
    draft.put(out, b": ");
    put_became(plan, rec, done, kind, a, b, behind, draft, out);
}

// Puts words and a line's number.
fn put_words<O: Sink>(words: &[u8], line: u32, draft: &mut Draft, out: &mut O)
    requires { length words.now ≤ 64 }
    ensures { Puts O.taken O.faults draft.old draft.new out.old out.new (words.now ++ decimal line) }
{
    draft.put(out, words);
    draft.put_number(out, line);
}

// Puts an event, behind which these come.
fn put_event<O: Sink>(
    checked: &Checked,
    plan: &Plan,
    rec: &Record,
    done: Answered,
    event: Event,
    behind: &[Event],
    draft: &mut Draft,
    out: &mut O,
)
    requires { IsRecord (groups_in plan.now) rec.now }
    ensures { Puts O.taken O.faults draft.old draft.new out.old out.new
        (event_text plan.now (program_of checked.now.tree) rec.now done event behind.now) }
{
    match event {
        Event::Begins(line) => put_words(b"\nline ", line, draft, out),
        Event::Returns(line) => put_words(b"\nback in line ", line, draft, out),
        Event::Wants(line) => put_words(b"\nno unit for line ", line, draft, out),
        Event::Calls(routine) => {
            draft.put(out, b"\n  calls ");
            put_sub(checked, routine, draft, out);
        }
        Event::Reads { kind, a, b } => put_read(kind, a, b, draft, out),
        Event::Takes(slot) => {
            draft.put(out, b"\n  ");
            put_slot(checked, slot, draft, out);
        }
        Event::Gives(value) => put_given(value, draft, out),
        Event::Tests(value) => put_tested(value, draft, out),
        Event::Sets {
            slot,
            before,
            after,
        } => put_set(checked, slot, before, after, draft, out),
        Event::Times { kind, timer } => put_timer(checked, kind, timer, draft, out),
        Event::Commands { kind, a, b } => put_commanded(
            plan, rec, done, kind, a, b, behind, draft, out,
        ),
    }
}

/// Puts the events of a second, in order.
#[tactic(auto, unfolding(crate::specs::Listing::events_text))]
pub(crate) fn put_events<O: Sink>(
    checked: &Checked,
    plan: &Plan,
    rec: &Record,
    events: &[Event],
    draft: &mut Draft,
    out: &mut O,
)
    requires { IsRecord (groups_in plan.now) rec.now }
    ensures { Puts O.taken O.faults draft.old draft.new out.old out.new
        (events_text plan.now (program_of checked.now.tree) rec.now events.now) }
{
    let mut done = Answered::none();
    for k in 0..events.len() {
        let event = events[k];
        let behind = &events[k + 1..];
        put_event(checked, plan, rec, done, event, behind, draft, out);
        done = done.behind(rec.place, event);
    }
}
