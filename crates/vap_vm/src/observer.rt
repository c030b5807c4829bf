// What looks on while a pass runs.

ghost use Rattle.std.specs.Prelude.{◌≡◌};

use crate::head::Head;
use crate::machine::Machine;
use vap_code::Instr;

/// What looks at each instruction of a pass, and at the machine before it. It changes nothing of either.
pub trait Observer {
    ghost use Rattle.std.specs.Prelude.{List, ◌++◌, ◌∷◌, []};
    ghost use Rattle.vap_code.specs.Sights.{Sight};
    ghost use Rattle.vap_vm.specs.View.{state_of};

    /// What an observer that began as the first is now, as the second, when it has seen these, one after the other.
    ghost saw: { Self → Self → List Sight → Type 0 };

    // These are three arguments and no struct of them: such a struct would cost a run that nobody sees some four in a hundred.
    /// Sees one more: an instruction, and the machine before it, whose head stands so. `Sight::of` tells what they are.
    fn look(&mut self, instr: Instr, head: &Head, machine: &Machine)
        ensures { (begun : Self) (past : List Sight) → saw begun self.old past →
            saw begun self.new (past ++ record { instr = instr; state = state_of head.now machine.now } ∷ []) };
}

/// Nobody looks on.
#[derive(Clone, Copy)]
pub struct Unseen;

impl Observer for Unseen {
    ghost saw = { λ _ _ _. Unit {0} };

    #[inline(always)]
    fn look(&mut self, _instr: Instr, _head: &Head, _machine: &Machine) {}
}
