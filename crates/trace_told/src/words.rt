// Readings, commands and slots as a program writes them.
ghost use Rattle.std.specs.Prelude.{◌≡◌, ◌≤◌, [], length, map, slice_index_or};
ghost use Rattle.sig_io.specs.Draft.{Puts};
ghost use Rattle.vap_ast.specs.Tree.{program_of, routine_of};
ghost use Rattle.trace_told.specs.Words.{command_text, command_word, named_as, numbers_text, one_text, place_text, reading_text, reading_word, slot_text, state_word, sub_text, timer_word, two_text};

use crate::columns::{Column, name_of, put_long};
use sig_io::{Draft, Sink};
use sig_types::{CommandKind, ReadingKind, TimerKind};
use trace_watch::Slot;
use vap_ast::Routine;
use vap_check::Checked;

// The word of a reading.
fn reading_word(kind: ReadingKind) -> &'static [u8]
    ensures word { result.now ≡ reading_word kind }
    ensures few { length result.now ≤ 64 }
{
    match kind {
        ReadingKind::Detection => b"Detection",
        ReadingKind::Occupancy => b"Occupancy",
        ReadingKind::Headway => b"Headway",
        ReadingKind::FrontEnds => b"Front_ends",
        ReadingKind::RearEnds => b"Rear_ends",
        ReadingKind::IsRed
        | ReadingKind::IsRedAmber
        | ReadingKind::IsGreen
        | ReadingKind::IsAmber => b"Current_state",
        ReadingKind::TGreen => b"T_green",
        ReadingKind::TRed => b"T_red",
        ReadingKind::StageActive => b"Stage_active",
        ReadingKind::StageDuration => b"Stage_duration",
        ReadingKind::InterstageActive => b"Interstage_active",
        ReadingKind::AnyInterstage => b"Any_interstage_active",
        ReadingKind::CycleSecond => b"T",
        ReadingKind::CycleLength => b"Tc",
    }
}

// The state that stands behind a reading's group.
fn state_word(kind: ReadingKind) -> &'static [u8]
    ensures word { result.now ≡ state_word kind }
    ensures few { length result.now ≤ 64 }
{
    match kind {
        ReadingKind::IsRed => b", red",
        ReadingKind::IsRedAmber => b", redamber",
        ReadingKind::IsGreen => b", green",
        ReadingKind::IsAmber => b", amber",
        ReadingKind::Detection
        | ReadingKind::Occupancy
        | ReadingKind::Headway
        | ReadingKind::FrontEnds
        | ReadingKind::RearEnds
        | ReadingKind::TGreen
        | ReadingKind::TRed
        | ReadingKind::StageActive
        | ReadingKind::StageDuration
        | ReadingKind::InterstageActive
        | ReadingKind::AnyInterstage
        | ReadingKind::CycleSecond
        | ReadingKind::CycleLength => b"",
    }
}

// The word of a command.
fn command_word(kind: CommandKind) -> &'static [u8]
    ensures word { result.now ≡ command_word kind }
    ensures few { length result.now ≤ 64 }
{
    match kind {
        CommandKind::Interstage => b"Interstage",
        CommandKind::SgGreen => b"Sg_green",
        CommandKind::SgRed => b"Sg_red",
        CommandKind::ClearFronts => b"Clear_front_ends",
        CommandKind::ClearRears => b"Clear_rear_ends",
        CommandKind::SetCycle => b"Set_cycle",
    }
}

// The word of what is done with a timer.
pub(crate) fn timer_word(kind: TimerKind) -> &'static [u8]
    ensures word { result.now ≡ timer_word kind }
    ensures few { length result.now ≤ 64 }
{
    match kind {
        TimerKind::Start => b"Start",
        TimerKind::Stop => b"Stop",
        TimerKind::Reset => b"Reset",
    }
}

// Puts one number in brackets, with more behind it.
fn put_one<O: Sink>(a: i32, more: &[u8], draft: &mut Draft, out: &mut O)
    requires { length more.now ≤ 64 }
    ensures { Puts O.taken O.faults draft.old draft.new out.old out.new (one_text a more.now) }
{
    draft.put(out, b"(");
    draft.put_signed(out, a);
    draft.put(out, more);
    draft.put(out, b")");
}

// Puts two numbers in brackets.
fn put_two<O: Sink>(a: i32, b: i32, draft: &mut Draft, out: &mut O)
    ensures { Puts O.taken O.faults draft.old draft.new out.old out.new (two_text a b) }
{
    draft.put(out, b"(");
    draft.put_signed(out, a);
    draft.put(out, b", ");
    draft.put_signed(out, b);
    draft.put(out, b")");
}

// Puts as many numbers in brackets as a word has, with more behind a single one.
fn put_numbers<O: Sink>(arity: usize, a: i32, b: i32, more: &[u8], draft: &mut Draft, out: &mut O)
    requires { length more.now ≤ 64 }
    ensures { Puts O.taken O.faults draft.old draft.new out.old out.new (numbers_text arity a b more.now) }
{
    match arity {
        0 => {}
        1 => put_one(a, more, draft, out),
        _ => put_two(a, b, draft, out),
    }
}

/// Puts a reading with its numbers.
pub(crate) fn put_reading<O: Sink>(
    kind: ReadingKind,
    a: i32,
    b: i32,
    draft: &mut Draft,
    out: &mut O,
)
    ensures { Puts O.taken O.faults draft.old draft.new out.old out.new (reading_text kind a b) }
{
    draft.put(out, reading_word(kind));
    put_numbers(kind.arity(), a, b, state_word(kind), draft, out);
}

/// Puts a command with its numbers.
pub(crate) fn put_command<O: Sink>(
    kind: CommandKind,
    a: i32,
    b: i32,
    draft: &mut Draft,
    out: &mut O,
)
    ensures { Puts O.taken O.faults draft.old draft.new out.old out.new (command_text kind a b) }
{
    draft.put(out, command_word(kind));
    put_numbers(kind.arity(), a, b, b"", draft, out);
}

// The value of whose name a slot has its own.
fn named_as(slot: Slot) -> Column
    ensures { result ≡ named_as slot }
{
    match slot {
        Slot::Variable(x) => Column::Variable(x),
        Slot::Timer(t) => Column::Timer(t),
        Slot::Cell(a, _) => Column::Cell(a, 0),
    }
}

// Puts the place of a cell in brackets.
fn put_place<O: Sink>(slot: Slot, draft: &mut Draft, out: &mut O)
    ensures { Puts O.taken O.faults draft.old draft.new out.old out.new (place_text slot) }
{
    match slot {
        Slot::Variable(_) | Slot::Timer(_) => {}
        Slot::Cell(_, place) => {
            draft.put(out, b"[");
            draft.put_signed(out, place);
            draft.put(out, b"]");
        }
    }
}

/// Puts a slot by its name.
pub(crate) fn put_slot<O: Sink>(checked: &Checked, slot: Slot, draft: &mut Draft, out: &mut O)
    ensures { Puts O.taken O.faults draft.old draft.new out.old out.new (slot_text (program_of checked.now.tree) slot) }
{
    put_long(draft, out, name_of(checked, named_as(slot)));
    put_place(slot, draft, out);
}

// The name of a subroutine; no byte where there is none of that number.
#[tactic(auto, using(crate::proofs::WordsNamed::names))]
fn sub_name(subs: &[Routine], sub: usize) -> &[u8]
    ensures { result.now ≡ slice_index_or (map (λ r. r.name) (map routine_of subs.now)) sub [] }
{
    if sub < subs.len() {
        subs[sub].name.bytes()
    } else {
        b""
    }
}

/// Puts the name of a subroutine.
pub(crate) fn put_sub<O: Sink>(checked: &Checked, sub: u16, draft: &mut Draft, out: &mut O)
    ensures { Puts O.taken O.faults draft.old draft.new out.old out.new (sub_text (program_of checked.now.tree) sub) }
{
    put_long(
        draft,
        out,
        sub_name(checked.program().subs.as_slice(), sub as usize),
    );
}
