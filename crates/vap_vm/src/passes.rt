// Passes of verified code, one a second.

ghost use Rattle.std.specs.Prelude.{◌≡◌, ◌+◌, ◌<◌, ◌≤◌, ◌++◌, List, length, map, IfOk};
ghost use Rattle.std.specs.List.{All};
ghost use Rattle.sig_types.specs.Pass.{World as WorldOf};
ghost use Rattle.sig_types.specs.Pass.{cell as cell_of, counted, unit_limit as unit_limit_of, without_commands};
ghost use Rattle.vap_code.specs.Machine.{machine as machine_of, machine_steps, last_start as last_start_of};
ghost use Rattle.vap_code.specs.Stores.{first_store};
ghost use Rattle.vap_vm.specs.Passes.{PassIs, Ready};
ghost use Rattle.vap_code.specs.Sights.{Sight, machine_sights};

use crate::machine::{Machine, Next};
use crate::observer::{Observer, Unseen};
use crate::run::run;
use crate::slots::{Slots, count_on};
use crate::steps::Steps;
use crate::world::World;
use code_verify::{Verified, valid_code_runs_well};
use sig_types::{Clock, Command, Fault, FaultKind, Memory};
use std::alloc::{AllocError, Global};
use std::marker::Model;
use std::mem;
use std::sync::ledger::Ledger;

/// How a pass ended.
#[derive(Clone, Copy)]
pub enum PassEnd {
    /// The main routine came to its end.
    Done,
    /// A fault ended the pass, at the line of its statement.
    Fault(Fault),
}

/// A machine with a code. Contracts see the code, the variables, arrays and timers, the commands of the last
/// pass, and how many seconds began.
#[derive(Drop)]
pub struct Vm {
    code: Verified,
    machine: Machine,
    before: Slots,
    seconds: u32,
}

impl Model for Vm {
    ghost use Rattle.std.specs.Prelude.{◌≡◌, false};
    ghost use Rattle.vap_vm.specs.Passes.{Kept, Ready};
    ghost use Rattle.vap_vm.specs.View.{store_of, SameSizes};

    ghost Value = { Kept };

    ghost view = { λ vm. record { code = vm.code; store = store_of vm.machine; seconds = vm.seconds } };

    ghost invariant = { λ vm.
        Ready (record { code = vm.code; store = store_of vm.machine; seconds = vm.seconds })
        × SameSizes vm.before vm.machine.slots
        × (vm.machine.wrote_cells ≡ false → vm.before.arrays ≡ vm.machine.slots.arrays) };
}

impl Vm {
    /// A machine with all variables 0, the arrays at their listed values, and all timers stopped at 0. All memory
    /// of all passes is taken here; where it can't be had, the code is dropped.
    pub fn new(alloc: Global, code: Verified) -> Result<Vm, Memory>
        ensures code { IfOk result (λ vm. vm.code ≡ code) }
        ensures store { IfOk result (λ vm. vm.store ≡ first_store code) }
        ensures seconds { IfOk result (λ vm. vm.seconds ≡ 0) }
        ensures ready { IfOk result (λ vm. Ready vm) }
    {
        match with_room(alloc, code) {
            Ok(vm) => Ok(vm),
            Err(_) => Err(Memory),
        }
    }

    /// A second begins: each running timer adds 1. At most 604,801 seconds begin.
    pub fn begin_second(&mut self)
        requires { self.old.seconds < 604801 }
        ensures store { self.new.store ≡
            record self.old.store { timers = map counted self.old.store.timers } }
        ensures code { self.new.code ≡ self.old.code }
        ensures seconds { self.new.seconds ≡ self.old.seconds + 1 }
        ensures ready { Ready self.new }
    {
        count_on(&mut self.machine.slots.timers);
        self.seconds += 1;
    }

    /// One pass: what the code means in this world, from the variables, arrays and timers as they stand. After a
    /// fault they are as at the call, and no command is listed. Each instruction counts one step.
    pub fn pass<W: World, L: Ledger>(&mut self, world: &W, steps: &mut Steps<L>) -> PassEnd
        requires { (w : WorldOf) × W.means world.now w }
        ensures pass { (w : WorldOf) → W.means world.now w →
            PassIs (without_commands self.old.store)
            (machine_of self.old.code w (without_commands self.old.store))
            result self.new.store }
        ensures counted { (w : WorldOf) → W.means world.now w → steps.new ≡
            steps.old + machine_steps self.old.code w (without_commands self.old.store) }
        ensures bounded { steps.new ≤ steps.old + 10241024 }
        ensures given { All (W.allows world.now) self.new.store.commands }
        ensures few { length self.new.store.commands ≤ 10000 }
        ensures code { self.new.code ≡ self.old.code }
        ensures seconds { self.new.seconds ≡ self.old.seconds }
        ensures ready { Ready self.new }
    {
        self.pass_seen(world, steps, &mut Unseen)
    }

    /// One pass, as `pass` makes it, of which the observer sees each instruction.
    pub fn pass_seen<W: World, L: Ledger, O: Observer>(
        &mut self,
        world: &W,
        steps: &mut Steps<L>,
        observer: &mut O,
    ) -> PassEnd
        requires { (w : WorldOf) × W.means world.now w }
        ensures pass { (w : WorldOf) → W.means world.now w →
            PassIs (without_commands self.old.store)
            (machine_of self.old.code w (without_commands self.old.store))
            result self.new.store }
        ensures counted { (w : WorldOf) → W.means world.now w → steps.new ≡
            steps.old + machine_steps self.old.code w (without_commands self.old.store) }
        ensures seen { (w : WorldOf) → W.means world.now w → (begun : O) (past : List Sight) → O.saw begun observer.old past →
            O.saw begun observer.new (past ++ machine_sights self.old.code w (without_commands self.old.store)) }
        ensures bounded { steps.new ≤ steps.old + 10241024 }
        ensures given { All (W.allows world.now) self.new.store.commands }
        ensures few { length self.new.store.commands ≤ 10000 }
        ensures code { self.new.code ≡ self.old.code }
        ensures seconds { self.new.seconds ≡ self.old.seconds }
        ensures ready { Ready self.new }
    {
        valid_code_runs_well();
        let wrote_cells = self.machine.wrote_cells;
        self.before.copy_from(&self.machine.slots, wrote_cells);
        let code = self.code.code();
        let instrs = code.instrs.as_slice();
        let starts = code.starts.as_slice();
        let mut head = self.machine.begin(last_start(starts), unit_limit());
        match run(
            instrs,
            starts,
            world,
            &mut head,
            &mut self.machine,
            steps,
            observer,
        ) {
            Next::End => PassEnd::Done,
            Next::Fault(kind) => {
                mem::swap(&mut self.machine.slots, &mut self.before);
                self.machine.commands.clear();
                PassEnd::Fault(Fault {
                    kind,
                    line: head.line,
                })
            }
            Next::Following | Next::Jumped => unreachable!(),
        }
    }

    /// The variables, in the order of their numbers.
    pub fn variables(&self) -> &[i32]
        ensures { result.now ≡ self.now.store.variables }
    {
        self.machine.slots.variables.as_slice()
    }

    /// The timers, in the order of their numbers.
    pub fn timers(&self) -> &[Clock]
        ensures { result.now ≡ self.now.store.timers }
    {
        self.machine.slots.timers.as_slice()
    }

    /// The cell of an array at a place from 1; fault Index where there is none.
    pub fn cell(&self, array: u16, place: i32) -> Result<i32, FaultKind>
        ensures { result ≡ cell_of self.now.store array place }
    {
        self.machine.slots.arrays.cell(array as usize, place)
    }

    /// The commands of the last pass in order; none after a fault or before the first pass.
    pub fn commands(&self) -> &[Command]
        ensures same { result.now ≡ self.now.store.commands }
        ensures few { length self.now.store.commands ≤ 10000 }
    {
        self.machine.commands.as_slice()
    }
}

fn with_room(alloc: Global, code: Verified) -> Result<Vm, AllocError>
    ensures code { IfOk result (λ vm. vm.code ≡ code) }
    ensures store { IfOk result (λ vm. vm.store ≡ first_store code) }
    ensures seconds { IfOk result (λ vm. vm.seconds ≡ 0) }
    ensures ready { IfOk result (λ vm. Ready vm) }
{
    let slots = Slots::of(alloc, code.code())?;
    let before = Slots::of(alloc, code.code())?;
    let machine = Machine::with_room(alloc, slots)?;
    Ok(Vm {
        code,
        machine,
        before,
        seconds: 0,
    })
}

// Where the main routine begins.
fn last_start(starts: &[u16]) -> usize
    ensures { result ≡ last_start_of starts.now }
{
    if starts.is_empty() {
        0
    } else {
        starts[starts.len() - 1] as usize
    }
}

// The units of a pass.
fn unit_limit() -> u32
    ensures same { result ≡ unit_limit_of }
    ensures number { result ≡ 10000 }
{
    10_000
}
