// The marks of refused commands and of faults.
ghost use Rattle.std.specs.Prelude.{◌≡◌, ◌+◌, ◌-◌, ◌*◌, ◌/◌, ◌^◌, ◌<◌, ◌≤◌, ◌++◌, ℕ, List, Option, All, IsTrue, Some, length};
ghost use Rattle.std.specs.Option.{ForSome};
ghost use Rattle.sig_io.specs.Draft.{Puts};
ghost use Rattle.log_svg.specs.Layout.{IsLayout};
ghost use Rattle.log_svg.specs.Marks.{IsRefused, close_text, is_marked, is_of, is_open, mark_text, marks_text, open_after};
ghost use Rattle.log_svg.specs.Marks.{fault_mark_text, faults_text, open_text, rule_letter, rule_of, seen_fault, told_line, next_mark, words_text};

use crate::layout::{Layout, has_second, middle_of};
use crate::pieces::{begin_cross, begin_label};
use sig_io::{Draft, Sink};
use sig_types::{Fault, GroupNo, Rule, ShortName, StageRefusal, TurnRefusal};
use signal_log::{put_fault, put_named_turn, put_stage_refusal};

/// A refused command.
#[derive(Clone, Copy)]
pub enum Refused {
    /// A stage command.
    Command(StageRefusal),
    /// A turn of a group.
    Turn(TurnRefusal),
}

/// A refused command, with its second.
#[derive(Clone, Copy)]
pub struct RefusalMark {
    /// The second.
    pub second: u32,
    /// What was refused.
    pub refused: Refused,
}

/// A fault, with its second.
#[derive(Clone, Copy)]
pub struct FaultMark {
    /// The second.
    pub second: u32,
    /// The fault.
    pub fault: Fault,
}

/// The letter of a rule: a large one of a turn, a small one of a stage command.
pub fn rule_letter(rule: Rule) -> u8
    ensures { result ≡ rule_letter rule }
{
    match rule {
        Rule::Sequence => b'S',
        Rule::MinGreen => b'G',
        Rule::MinRed => b'R',
        Rule::Conflict => b'C',
        Rule::Intergreen => b'I',
        Rule::Running => b'r',
        Rule::WrongStage => b'w',
        Rule::NoInterstage => b'n',
    }
}

/// The rule by which a command was refused.
pub fn rule_of(refused: Refused) -> Rule
    ensures { result ≡ rule_of refused }
{
    match refused {
        Refused::Command(refusal) => refusal.rule,
        Refused::Turn(turn) => turn.rule,
    }
}

/// Whether it is a refused stage command where no group is asked for, and else a refused turn of the group.
pub fn is_of(group: Option<GroupNo>, refused: Refused) -> bool
    ensures { result ≡ is_of group refused }
{
    match group {
        None => match refused {
            Refused::Command(_) => true,
            Refused::Turn(_) => false,
        },
        Some(group) => match refused {
            Refused::Command(_) => false,
            Refused::Turn(turn) => turn.group.0 == group.0,
        },
    }
}

/// Puts what the log says of a refused command: `a-b:RULE`, `NAME:RULE` or `NAME:RULE:OTHER`.
pub fn put_refused<O: Sink>(draft: &mut Draft, sink: &mut O, names: &[ShortName], refused: Refused)
    requires { IsRefused (length names.now) refused }
    ensures { Puts O.taken O.faults draft.old draft.new sink.old sink.new (words_text names.now refused) }
{
    match refused {
        Refused::Turn(turn) => put_named_turn(turn, names, draft, sink),
        Refused::Command(refusal) => put_stage_refusal(refusal, draft, sink),
    }
}

// Whether the last mark of a row is of this second.
fn is_open(last: Option<u32>, second: u32) -> bool
    ensures { result ≡ is_open last second }
{
    match last {
        None => false,
        Some(open) => open == second,
    }
}

// Puts the end of the last mark, where there is one.
fn close_mark<O: Sink>(draft: &mut Draft, sink: &mut O, last: Option<u32>)
    ensures { Puts O.taken O.faults draft.old draft.new sink.old sink.new (close_text last) }
{
    match last {
        None => {}
        Some(_) => draft.put(sink, b"</title></text>\n"),
    }
}

// Puts the beginning of a mark at this height.
fn open_mark<O: Sink>(draft: &mut Draft, sink: &mut O, layout: Layout, y: u32, mark: &RefusalMark)
    requires layout { IsLayout layout }
    requires second { (layout.from ≤ mark.now.second) × (mark.now.second ≤ layout.to) }
    ensures { Puts O.taken O.faults draft.old draft.new sink.old sink.new (open_text layout y mark.now) }
{
    begin_label(draft, sink, b"x", middle_of(layout, mark.second), y);
    draft.put(sink, &[rule_letter(rule_of(mark.refused))]);
    draft.put(sink, b"<title>");
    draft.put_number(sink, mark.second);
    draft.put(sink, b" refused");
}

// Puts the beginning of a mark, where the last one is of another second.
fn next_mark<O: Sink>(
    draft: &mut Draft,
    sink: &mut O,
    layout: Layout,
    y: u32,
    last: Option<u32>,
    mark: &RefusalMark,
)
    requires layout { IsLayout layout }
    requires second { (layout.from ≤ mark.now.second) × (mark.now.second ≤ layout.to) }
    ensures { Puts O.taken O.faults draft.old draft.new sink.old sink.new (next_mark layout y last mark.now) }
{
    if !is_open(last, mark.second) {
        close_mark(draft, sink, last);
        open_mark(draft, sink, layout, y, mark);
    }
}

// Puts the line that tells of a refusal, in the mark of its second.
fn put_line<O: Sink>(
    draft: &mut Draft,
    sink: &mut O,
    layout: Layout,
    names: &[ShortName],
    y: u32,
    last: Option<u32>,
    mark: &RefusalMark,
)
    requires layout { IsLayout layout }
    requires second { (layout.from ≤ mark.now.second) × (mark.now.second ≤ layout.to) }
    requires groups { IsRefused (length names.now) mark.now.refused }
    ensures { Puts O.taken O.faults draft.old draft.new sink.old sink.new (told_line names.now layout y last mark.now) }
{
    next_mark(draft, sink, layout, y, last, mark);
    draft.put(sink, b"\n");
    put_refused(draft, sink, names, mark.refused);
}

// Whether a refusal stands in the row of this group, or in that of the stages, and the strip has its second.
fn is_marked(layout: Layout, group: Option<GroupNo>, mark: &RefusalMark) -> bool
    ensures marked { result ≡ is_marked layout group mark.now }
    ensures second { IsTrue result → (layout.from ≤ mark.now.second) × (mark.now.second ≤ layout.to) }
{
    is_of(group, mark.refused) && has_second(layout, mark.second)
}

// Puts what a refusal adds to the marks of a row, where it stands in it.
fn put_mark<O: Sink>(
    draft: &mut Draft,
    sink: &mut O,
    layout: Layout,
    names: &[ShortName],
    group: Option<GroupNo>,
    y: u32,
    last: Option<u32>,
    mark: &RefusalMark,
)
    requires layout { IsLayout layout }
    requires groups { IsRefused (length names.now) mark.now.refused }
    ensures { Puts O.taken O.faults draft.old draft.new sink.old sink.new (mark_text names.now layout group y last mark.now) }
{
    if is_marked(layout, group, mark) {
        put_line(draft, sink, layout, names, y, last, mark);
    }
}

// The second of the last mark of a row behind a refusal.
fn open_after(
    layout: Layout,
    group: Option<GroupNo>,
    last: Option<u32>,
    mark: &RefusalMark,
) -> Option<u32>
    ensures { result ≡ open_after layout group last mark.now }
{
    if is_marked(layout, group, mark) {
        Some(mark.second)
    } else {
        last
    }
}

/// Puts the marks of refused stage commands, or of the refused turns of a group: one for each second.
pub fn put_marks<O: Sink>(
    draft: &mut Draft,
    sink: &mut O,
    layout: Layout,
    names: &[ShortName],
    group: Option<GroupNo>,
    y: u32,
    marks: &[RefusalMark],
)
    requires layout { IsLayout layout }
    requires groups { All (λ m. IsRefused (length names.now) m.refused) marks.now }
    ensures { Puts O.taken O.faults draft.old draft.new sink.old sink.new (marks_text names.now layout group y marks.now) }
{
    let mut last = None;
    for mark in marks {
        put_mark(draft, sink, layout, names, group, y, last, mark);
        last = open_after(layout, group, last, mark);
    }
    close_mark(draft, sink, last);
}

// Puts a cross, with the words of the fault.
fn put_fault_mark<O: Sink>(
    draft: &mut Draft,
    sink: &mut O,
    layout: Layout,
    y: u32,
    mark: &FaultMark,
)
    requires layout { IsLayout layout }
    requires mark { (layout.from ≤ mark.now.second) × (mark.now.second ≤ layout.to) }
    requires y { y ≤ 100000 }
    ensures { Puts O.taken O.faults draft.old draft.new sink.old sink.new (fault_mark_text layout y mark.now) }
{
    begin_cross(draft, sink, middle_of(layout, mark.second) - 4, y + 5);
    draft.put(sink, b"><title>");
    draft.put_number(sink, mark.second);
    draft.put(sink, b" fault ");
    put_fault(mark.fault, draft, sink);
    draft.put(sink, b"</title></path>\n");
}

// Puts the mark of a fault where its second is in the strip.
fn put_seen_fault<O: Sink>(
    draft: &mut Draft,
    sink: &mut O,
    layout: Layout,
    y: u32,
    mark: &FaultMark,
)
    requires layout { IsLayout layout }
    requires y { y ≤ 100000 }
    ensures { Puts O.taken O.faults draft.old draft.new sink.old sink.new (seen_fault layout y mark.now) }
{
    if has_second(layout, mark.second) {
        put_fault_mark(draft, sink, layout, y, mark);
    }
}

/// Puts the marks of faults, in a row at this height.
pub fn put_faults<O: Sink>(
    draft: &mut Draft,
    sink: &mut O,
    layout: Layout,
    y: u32,
    marks: &[FaultMark],
)
    requires layout { IsLayout layout }
    requires y { y ≤ 100000 }
    ensures { Puts O.taken O.faults draft.old draft.new sink.old sink.new (faults_text layout y marks.now) }
{
    for mark in marks {
        put_seen_fault(draft, sink, layout, y, mark);
    }
}
