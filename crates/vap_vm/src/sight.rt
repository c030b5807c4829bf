// What is seen before each instruction of a pass.

ghost use Rattle.std.specs.Prelude.{◌≡◌, length, slice_get};
ghost use Rattle.sig_types.specs.Pass.{cell as cell_of};

use crate::head::Head;
use crate::machine::Machine;
use sig_types::{Clock, FaultKind};
use std::marker::Model;
use vap_code::Instr;

/// What is seen before each instruction of a pass: the instruction, and how the machine stands. Contracts see both.
#[derive(Drop)]
pub struct Sight<'a> {
    instr: Instr,
    head: &'a Head,
    machine: &'a Machine,
}

impl<'a> Model for Sight<'a> {
    ghost use Rattle.vap_code.specs.Sights.{Sight as SightOf};
    ghost use Rattle.vap_vm.specs.View.{state_of};

    ghost Value = { SightOf };

    ghost view = { λ s. record { instr = s.instr; state = state_of s.head.now s.machine.now } };
}

impl<'a> Sight<'a> {
    ghost use Rattle.vap_vm.specs.View.{state_of};

    /// What is seen of a machine whose head stands so, before this instruction.
    #[inline(always)]
    pub fn of(instr: Instr, head: &'a Head, machine: &'a Machine) -> Sight<'a>
        ensures { result ≡ record { instr = instr; state = state_of head.now machine.now } }
    {
        Sight {
            instr,
            head,
            machine,
        }
    }
    /// The instruction.
    pub fn instr(&self) -> Instr
        ensures { result ≡ self.now.instr }
    {
        self.instr
    }

    /// The place of the instruction in the code.
    pub fn place(&self) -> usize
        ensures { result ≡ self.now.state.place }
    {
        self.head.place
    }

    /// The line of the statement that is being done; 0 before the first one.
    pub fn line(&self) -> u32
        ensures { result ≡ self.now.state.line }
    {
        self.head.line
    }

    /// The units that are left.
    pub fn units(&self) -> u32
        ensures { result ≡ self.now.state.units }
    {
        self.head.ticks - 1
    }

    /// The number of subroutines that were called and aren't left.
    pub fn calls(&self) -> usize
        ensures { result ≡ length self.now.state.noted }
    {
        self.machine.return_places.count()
    }

    /// The operand that lies so many places under the top one, where it is there.
    pub fn operand(&self, depth: usize) -> Option<i32>
        ensures { result ≡ slice_get self.now.state.operands depth }
    {
        self.machine.operands.under(self.head.height, depth)
    }

    /// The value of a variable, where it is there.
    pub fn variable(&self, variable: u16) -> Option<i32>
        ensures { result ≡ slice_get self.now.state.store.variables variable }
    {
        self.machine.slots.variables.get(variable as usize).copied()
    }

    /// A timer, where it is there.
    pub fn timer(&self, timer: u16) -> Option<Clock>
        ensures { result ≡ slice_get self.now.state.store.timers timer }
    {
        self.machine.slots.timers.get(timer as usize).copied()
    }

    /// The cell of an array at a place from 1; fault Index where there is none.
    pub fn cell(&self, array: u16, place: i32) -> Result<i32, FaultKind>
        ensures { result ≡ cell_of self.now.state.store array place }
    {
        self.machine.slots.arrays.cell(array as usize, place)
    }

    /// The number of commands that the pass has given.
    pub fn given(&self) -> usize
        ensures { result ≡ length self.now.state.store.commands }
    {
        self.machine.commands.as_slice().len()
    }
}
