// What became of the commands of a second's pass, as the record of the second tells it.
ghost use Rattle.std.specs.Prelude.{◌≡◌, ◌+◌, ◌<◌, ◌^◌, ◌≤◌, ◌∷◌, [], All, IfSome, length, slice_get};
ghost use Rattle.std.specs.List.{list_any};
ghost use Rattle.sig_io.specs.Draft.{Puts};
ghost use Rattle.sig_types.specs.LogForm.{letter};
ghost use Rattle.sig_types.specs.Number.{equal};
ghost use Rattle.sig_types.specs.Recorded.{IsRecord, IsTurn};
ghost use Rattle.pua_model.specs.Plan.{group_number, groups_in};
ghost use Rattle.trace_told.specs.Became as became;
ghost use Rattle.trace_told.specs.Became.{became_text, begins_between, done_text, interstage_text, is_obeyed, is_wish, rule_text, shown_text, turn_of, turns_text, wish_text, wishes};

use pua_model::Plan;
use sig_io::{Draft, Sink};
use sig_types::{
    Aspect, CommandKind, GroupNo, Record, StagePlace, StageRefusals, TurnRefusal, TurnRefusals,
};
use signal_log::{put_turn, rule_name};
use trace_watch::Event;

/// How the interstage commands of a pass were answered so far.
#[derive(Clone, Copy)]
pub struct Answered {
    /// Whether one was obeyed.
    pub obeyed: bool,
    /// How many were refused.
    pub refused: usize,
}

// Whether two numbers are one.
fn is_equal(a: i32, b: i32) -> bool
    ensures { result ≡ equal a b }
{
    a <= b && b <= a
}

// Whether an interstage from one stage to another is in its first second.
fn begins_between(place: StagePlace, a: i32, b: i32) -> bool
    ensures { result ≡ begins_between place a b }
{
    match place {
        StagePlace::NoPlan | StagePlace::Stage(_) => false,
        StagePlace::Inter { from, to, t } => {
            t == 0 && is_equal(i32::from(from.0), a) && is_equal(i32::from(to.0), b)
        }
    }
}

impl Answered {
    /// Before the first command.
    pub(crate) fn none() -> Answered
        ensures { result ≡ became.none_answered }
    {
        Answered {
            obeyed: false,
            refused: 0,
        }
    }

    // Whether an interstage command is the one that was obeyed.
    fn is_obeyed(self, place: StagePlace, a: i32, b: i32) -> bool
        ensures { result ≡ is_obeyed place self a b }
    {
        !self.obeyed && begins_between(place, a, b)
    }

    // One interstage command more.
    fn and_one(self, obeyed: bool) -> Answered
        requires { self.refused + 1 < 2 ^ 64 }
        ensures { result ≡ became.answered_one self obeyed }
    {
        if obeyed {
            Answered {
                obeyed: true,
                refused: self.refused,
            }
        } else {
            Answered {
                obeyed: self.obeyed,
                refused: self.refused + 1,
            }
        }
    }

    // The same behind a command.
    fn by(self, place: StagePlace, kind: CommandKind, a: i32, b: i32) -> Answered
        requires { self.refused + 1 < 2 ^ 64 }
        ensures { result ≡ became.answered_by place self kind a b }
    {
        match kind {
            CommandKind::Interstage => self.and_one(self.is_obeyed(place, a, b)),
            CommandKind::SgGreen
            | CommandKind::SgRed
            | CommandKind::ClearFronts
            | CommandKind::ClearRears
            | CommandKind::SetCycle => self,
        }
    }

    /// The same behind an event.
    pub(crate) fn behind(self, place: StagePlace, event: Event) -> Answered
        requires { self.refused + 1 < 2 ^ 64 }
        ensures { result ≡ became.answered place self event }
    {
        match event {
            Event::Commands { kind, a, b } => self.by(place, kind, a, b),
            Event::Begins(_)
            | Event::Returns(_)
            | Event::Wants(_)
            | Event::Calls(_)
            | Event::Reads { .. }
            | Event::Takes(_)
            | Event::Gives(_)
            | Event::Tests(_)
            | Event::Sets { .. }
            | Event::Times { .. } => self,
        }
    }
}

// Puts the rule of the refused command at a place, if there is one.
fn put_rule<O: Sink>(stages: &StageRefusals, place: usize, draft: &mut Draft, out: &mut O)
    ensures { Puts O.taken O.faults draft.old draft.new out.old out.new (rule_text (slice_get stages.now place)) }
{
    if place < stages.len() {
        draft.put(out, b"refused: ");
        draft.put(out, rule_name(stages.get(place).rule));
    }
}

// Puts what became of an interstage command.
fn put_interstage<O: Sink>(
    rec: &Record,
    done: Answered,
    a: i32,
    b: i32,
    draft: &mut Draft,
    out: &mut O,
)
    ensures { Puts O.taken O.faults draft.old draft.new out.old out.new (interstage_text rec.now done a b) }
{
    if done.is_obeyed(rec.place, a, b) {
        draft.put(out, b"obeyed");
    } else {
        put_rule(&rec.stages, done.refused, draft, out);
    }
}

// Whether a command is a wish for the group of a number.
fn is_wish(number: i32, kind: CommandKind, a: i32) -> bool
    ensures { result ≡ is_wish number kind a }
{
    match kind {
        CommandKind::SgGreen | CommandKind::SgRed => is_equal(a, number),
        CommandKind::Interstage
        | CommandKind::ClearFronts
        | CommandKind::ClearRears
        | CommandKind::SetCycle => false,
    }
}

// Whether an event is a wish for the group of a number.
fn wishes(number: i32, event: &Event) -> bool
    ensures { result ≡ wishes number event.now }
{
    match *event {
        Event::Commands { kind, a, .. } => is_wish(number, kind, a),
        Event::Begins(_)
        | Event::Returns(_)
        | Event::Wants(_)
        | Event::Calls(_)
        | Event::Reads { .. }
        | Event::Takes(_)
        | Event::Gives(_)
        | Event::Tests(_)
        | Event::Sets { .. }
        | Event::Times { .. } => false,
    }
}

// Whether one of these events is a wish for the group of a number.
fn is_wished_in(number: i32, events: &[Event]) -> bool
    ensures { result ≡ list_any (wishes number) events.now }
{
    events.iter().any(|event| wishes(number, event))
}

// The letter of an aspect.
fn letter(aspect: Aspect) -> &'static [u8]
    ensures letter { result.now ≡ letter aspect ∷ [] }
    ensures few { length result.now ≤ 64 }
{
    match aspect {
        Aspect::Red => b"R",
        Aspect::RedAmber => b"U",
        Aspect::Green => b"G",
        Aspect::Amber => b"A",
    }
}

// Puts a refused turn, if it is that of this group.
fn put_turn_of<O: Sink>(
    plan: &Plan,
    group: GroupNo,
    turn: TurnRefusal,
    draft: &mut Draft,
    out: &mut O,
)
    requires { IsTurn (groups_in plan.now) turn }
    ensures { Puts O.taken O.faults draft.old draft.new out.old out.new (turn_of plan.now group.0 turn) }
{
    if turn.group.0 == group.0 {
        draft.put(out, b", refused ");
        put_turn(turn, plan, draft, out);
    }
}

// Puts the refused turn of a group, if one of its was.
fn put_turns<O: Sink>(
    plan: &Plan,
    group: GroupNo,
    turns: &TurnRefusals,
    draft: &mut Draft,
    out: &mut O,
)
    requires { All (IsTurn (groups_in plan.now)) turns.now }
    ensures { Puts O.taken O.faults draft.old draft.new out.old out.new (turns_text plan.now group.0 turns.now) }
{
    for i in 0..turns.len() {
        put_turn_of(plan, group, turns.get(i), draft, out);
    }
}

// Puts what a group shows, and its refused turn.
fn put_shown<O: Sink>(
    plan: &Plan,
    rec: &Record,
    group: Option<GroupNo>,
    draft: &mut Draft,
    out: &mut O,
)
    requires recorded { IsRecord (groups_in plan.now) rec.now }
    requires group { IfSome group (λ g. g.0 < groups_in plan.now) }
    ensures { Puts O.taken O.faults draft.old draft.new out.old out.new (shown_text plan.now rec.now (group_number group)) }
{
    match group {
        None => {}
        Some(group) => {
            draft.put(out, b"wished, shows ");
            draft.put(out, letter(rec.picture.get(group.0)));
            put_turns(plan, group, &rec.turns, draft, out);
        }
    }
}

// Puts what became of a wish for the group of a number, behind which these events come.
fn put_wish<O: Sink>(
    plan: &Plan,
    rec: &Record,
    number: i32,
    behind: &[Event],
    draft: &mut Draft,
    out: &mut O,
)
    requires { IsRecord (groups_in plan.now) rec.now }
    ensures { Puts O.taken O.faults draft.old draft.new out.old out.new (wish_text plan.now rec.now number behind.now) }
{
    if is_wished_in(number, behind) {
        draft.put(out, b"a later one counts");
    } else {
        put_shown(plan, rec, plan.find_group(number), draft, out);
    }
}

// Puts what became of a command of a pass without a fault.
fn put_done<O: Sink>(
    plan: &Plan,
    rec: &Record,
    done: Answered,
    kind: CommandKind,
    a: i32,
    b: i32,
    behind: &[Event],
    draft: &mut Draft,
    out: &mut O,
)
    requires { IsRecord (groups_in plan.now) rec.now }
    ensures { Puts O.taken O.faults draft.old draft.new out.old out.new
        (done_text plan.now rec.now done kind a b behind.now) }
{
    match kind {
        CommandKind::Interstage => put_interstage(rec, done, a, b, draft, out),
        CommandKind::SgGreen | CommandKind::SgRed => put_wish(plan, rec, a, behind, draft, out),
        CommandKind::ClearFronts | CommandKind::ClearRears | CommandKind::SetCycle => {
            draft.put(out, b"from the next second on");
        }
    }
}

/// Puts what became of a command, behind which these events come.
pub(crate) fn put_became<O: Sink>(
    plan: &Plan,
    rec: &Record,
    done: Answered,
    kind: CommandKind,
    a: i32,
    b: i32,
    behind: &[Event],
    draft: &mut Draft,
    out: &mut O,
)
    requires { IsRecord (groups_in plan.now) rec.now }
    ensures { Puts O.taken O.faults draft.old draft.new out.old out.new
        (became_text plan.now rec.now done kind a b behind.now) }
{
    match rec.fault {
        Some(_) => draft.put(out, b"taken back"),
        None => put_done(plan, rec, done, kind, a, b, behind, draft, out),
    }
}
