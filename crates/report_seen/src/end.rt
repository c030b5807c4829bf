// The end of a call that writes a text.
ghost use Rattle.std.specs.Prelude.{◌≡◌, ◌≤◌, ◌⊎◌, List, Option, IfErr, OnErr, IsTrue, ℕ};
ghost use Rattle.sig_io.specs.Draft.{IsDraft};
ghost use Rattle.sig_io.specs.Outside.{Rose};
ghost use Rattle.report_seen.specs.DiagramCall.{IsWritten};

use crate::stop::Stop;
use sig_io::{Draft, Sink};

/// Gives a sink the rest of a text.
pub(crate) fn end<O: Sink>(draft: Draft, out: &mut O) -> Result<(), Stop>
    ensures written { (start : Option (List ℕ)) (text : List ℕ) → IsDraft start (O.taken out.old) draft text →
        IsWritten text result start (O.taken out.new) }
    ensures stop { IfErr result (λ stop. stop ≡ Stop.WriteFault) }
    ensures later { O.faults out.old ≤ O.faults out.new }
    ensures cause { OnErr result (IsTrue draft.failed ⊎ Rose (O.faults out.old) (O.faults out.new)) }
{
    match draft.finish(out) {
        Ok(()) => Ok(()),
        Err(_fault) => Err(Stop::WriteFault),
    }
}
