// What a pass works on.

ghost use Rattle.std.specs.Prelude.{◌≡◌, ◌-◌, ◌≤◌, [], false, IfOk};
ghost use Rattle.vap_vm.specs.View.{operands_of};

use crate::command_list::CommandList;
use crate::head::Head;
use crate::operands::Operands;
use crate::return_places::ReturnPlaces;
use crate::slots::Slots;
use sig_types::FaultKind;
use std::alloc::{AllocError, Global};

/// What the machine works on.
#[derive(Drop)]
pub struct Machine {
    pub(crate) operands: Operands,
    pub(crate) return_places: ReturnPlaces,
    pub(crate) slots: Slots,
    pub(crate) commands: CommandList,
    /// Whether a cell of an array was written since the last pass began.
    pub(crate) wrote_cells: bool,
}

/// What an instruction comes to.
#[derive(Clone, Copy)]
pub enum Next {
    /// The instruction at the next place follows.
    Following,
    /// The instruction at the place that the head has now follows.
    Jumped,
    /// The pass came to its end.
    End,
    /// A fault ends the pass.
    Fault(FaultKind),
}

impl Machine {
    /// A machine with these variables, arrays and timers, and room for every pass.
    pub fn with_room(alloc: Global, slots: Slots) -> Result<Machine, AllocError>
        ensures slots { IfOk result (λ machine. machine.slots ≡ slots) }
        ensures commands { IfOk result (λ machine. machine.commands ≡ []) }
        ensures wrote_cells { IfOk result (λ machine. machine.wrote_cells ≡ false) }
    {
        Ok(Machine {
            operands: Operands::empty(),
            return_places: ReturnPlaces::with_room(alloc)?,
            slots,
            commands: CommandList::with_room(alloc)?,
            wrote_cells: false,
        })
    }

    /// The head at the place at which a pass begins, with its units. Operands, return places and commands are taken away, and
    /// no cell is written yet.
    #[tactic(auto, unfolding(crate::specs::Operands::operands_at))]
    pub fn begin(&mut self, place: usize, units: u32) -> Head
        requires { units ≤ 10000 }
        ensures place { result.place ≡ place }
        ensures line { result.line ≡ 0 }
        ensures units { result.ticks - 1 ≡ units }
        ensures operands { operands_of result self.new ≡ [] }
        ensures return_places { self.new.return_places ≡ [] }
        ensures commands { self.new.commands ≡ [] }
        ensures slots { self.new.slots ≡ self.old.slots }
        ensures wrote_cells { self.new.wrote_cells ≡ false }
    {
        self.return_places.clear();
        self.commands.clear();
        self.wrote_cells = false;
        Head {
            place,
            line: 0,
            ticks: units + 1,
            height: 0,
        }
    }
}
