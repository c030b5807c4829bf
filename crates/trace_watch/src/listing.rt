// The observer that keeps what happens in a pass.
ghost use Rattle.std.specs.Prelude.{◌≡◌, ◌++◌, ◌∷◌, [], IfOk, if◌then◌else◌};
ghost use Rattle.std.specs.Option.{option_to_list};
ghost use Rattle.trace_watch.specs.declared.event.Event.{Event};
ghost use Rattle.trace_watch.specs.Events.{cell_value, event_of, first_number, goes_back, is_taking, number_at, second_number, tick_event, value_behind};
ghost use Rattle.trace_watch.specs.Listed.{HasListed};

use crate::event::{Event, Slot};
use crate::list::EventList;
use sig_types::{FaultKind, TimerKind};
use std::alloc::{AllocError, Global};
use vap_code::Instr;
use vap_vm::{Head, Machine, Observer, Sight};

/// What happens in a pass, in order: its first 1,000,000 events.
#[derive(Drop)]
pub struct Listing {
    events: EventList,
    taking: bool,
    back: bool,
}

// The operand that lies so many places under the top one; 0 where there is none.
#[tactic(auto, using(crate::proofs::MoreListed::none_there))]
fn number_at(sight: &Sight<'_>, depth: usize) -> i32
    ensures { result ≡ number_at sight.now.state depth }
{
    match sight.operand(depth) {
        Some(number) => number,
        None => 0,
    }
}

// The first number of a word that has so many, 0 where it has none.
fn first_number(sight: &Sight<'_>, arity: usize) -> i32
    ensures { result ≡ first_number arity sight.now.state }
{
    match arity {
        0 => 0,
        1 => number_at(sight, 0),
        _ => number_at(sight, 1),
    }
}

// And the second one.
fn second_number(sight: &Sight<'_>, arity: usize) -> i32
    ensures { result ≡ second_number arity sight.now.state }
{
    match arity {
        0 | 1 => 0,
        _ => number_at(sight, 0),
    }
}

// A tick: the flag tells whether it spends the unit of a way back.
fn tick_event(back: bool, line: u32, units: u32) -> Event
    ensures { result ≡ tick_event back line units }
{
    if units == 0 {
        Event::Wants(line)
    } else if back {
        Event::Returns(line)
    } else {
        Event::Begins(line)
    }
}

// Whether an instruction takes a value.
fn is_taking(instr: Instr) -> bool
    ensures { result ≡ is_taking instr }
{
    matches!(
        instr,
        Instr::Read(_) | Instr::Load(_) | Instr::Timer(_) | Instr::Cell(_)
    )
}

// The value of a cell, where it is there.
fn cell_value(answer: Result<i32, FaultKind>) -> Option<i32>
    ensures { result ≡ cell_value answer }
{
    match answer {
        Ok(value) => Some(value),
        Err(_) => None,
    }
}

// What an instruction does; the flag tells whether the one before went back to a caller.
fn event_of(sight: &Sight<'_>, back: bool) -> Option<Event>
    ensures { option_to_list result ≡ event_of back sight.now.instr sight.now.state }
{
    match sight.instr() {
        Instr::Tick(line) => Some(tick_event(back, line, sight.units())),
        Instr::Call(routine) => Some(Event::Calls(routine)),
        Instr::Read(kind) => Some(Event::Reads {
            kind,
            a: first_number(sight, kind.arity()),
            b: second_number(sight, kind.arity()),
        }),
        Instr::Load(variable) => Some(Event::Takes(Slot::Variable(variable))),
        Instr::Timer(timer) => Some(Event::Takes(Slot::Timer(timer))),
        Instr::Cell(array) => Some(Event::Takes(Slot::Cell(array, number_at(sight, 0)))),
        Instr::JumpZero(_) => Some(Event::Tests(number_at(sight, 0))),
        Instr::Store(variable) => Some(Event::Sets {
            slot: Slot::Variable(variable),
            before: sight.variable(variable),
            after: number_at(sight, 0),
        }),
        Instr::SetCell(array) => Some(Event::Sets {
            slot: Slot::Cell(array, number_at(sight, 1)),
            before: cell_value(sight.cell(array, number_at(sight, 1))),
            after: number_at(sight, 0),
        }),
        Instr::Start(timer) => Some(Event::Times {
            kind: TimerKind::Start,
            timer,
        }),
        Instr::Stop(timer) => Some(Event::Times {
            kind: TimerKind::Stop,
            timer,
        }),
        Instr::Reset(timer) => Some(Event::Times {
            kind: TimerKind::Reset,
            timer,
        }),
        Instr::Do(kind) => Some(Event::Commands {
            kind,
            a: first_number(sight, kind.arity()),
            b: second_number(sight, kind.arity()),
        }),
        Instr::Push(_) | Instr::Neg | Instr::Not | Instr::Add | Instr::Sub => None,
        Instr::Mul | Instr::Div | Instr::Eq | Instr::Ne | Instr::Lt => None,
        Instr::Le | Instr::Gt | Instr::Ge | Instr::And | Instr::Or => None,
        Instr::Jump(_) | Instr::Ret => None,
    }
}

// Whether an instruction goes back to a caller, where so many subroutines were called and aren't left.
fn goes_back(sight: &Sight<'_>) -> bool
    ensures { result ≡ goes_back sight.now.instr sight.now.state.noted }
{
    match sight.instr() {
        Instr::Ret => sight.calls() > 0,
        _ => false,
    }
}

// The value that the instruction before has taken, if it takes one.
fn value_behind(sight: &Sight<'_>, taking: bool) -> Option<Event>
    ensures { option_to_list result ≡ value_behind taking sight.now.state }
{
    if taking {
        Some(Event::Gives(number_at(sight, 0)))
    } else {
        None
    }
}

impl Listing {
    /// Nothing was seen yet. All memory is taken here.
    pub fn new(alloc: Global) -> Result<Listing, AllocError>
        ensures { IfOk result (λ listing. HasListed listing []) }
    {
        Ok(Listing {
            events: EventList::with_room(alloc)?,
            taking: false,
            back: false,
        })
    }

    /// Nothing was seen any more.
    pub fn clear(&mut self)
        ensures { HasListed self.new [] }
    {
        self.events.clear();
        self.taking = false;
        self.back = false;
    }

    /// What happened, in order.
    pub fn events(&self) -> &[Event]
        ensures { result.now ≡ self.now.events }
    {
        self.events.as_slice()
    }
}

impl Observer for Listing {
    ghost use Rattle.trace_watch.specs.Listed.{HasListed};

    ghost saw = { λ first listing sights. HasListed listing sights };

    fn look(&mut self, instr: Instr, head: &Head, machine: &Machine) {
        let sight = Sight::of(instr, head, machine);
        let value = value_behind(&sight, self.taking);
        self.events.put(value);
        let event = event_of(&sight, self.back);
        self.events.put(event);
        self.taking = is_taking(instr);
        self.back = goes_back(&sight);
    }
}
