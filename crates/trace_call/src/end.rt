// The end of a text.
ghost use Rattle.std.specs.Prelude.{◌≡◌, ◌≤◌, ℕ, List, Option, OnErr, IsTrue, ◌⊎◌};
ghost use Rattle.sig_io.specs.Draft.{IsDraft};
ghost use Rattle.sig_io.specs.Outside.{Rose};
ghost use Rattle.trace_call.specs.Written.{IsWritten};

use crate::stop::Stop;
use junction_run::{PlayStop, Stop as RunStop};
use sig_io::{Draft, Sink};

/// Gives a sink the rest of a text.
pub(crate) fn end<'a, O: Sink>(draft: Draft, out: &mut O) -> Result<(), Stop<'a>>
    ensures written { (start : Option (List ℕ)) (text : List ℕ) → IsDraft start (O.taken out.old) draft text →
        IsWritten text result start (O.taken out.new) }
    ensures cause { OnErr result (IsTrue draft.failed ⊎ Rose (O.faults out.old) (O.faults out.new)) }
    ensures later { O.faults out.old ≤ O.faults out.new }
{
    match draft.finish(out) {
        Ok(()) => Ok(()),
        Err(_fault) => Err(Stop::Run(RunStop::Play(PlayStop::WriteFault))),
    }
}
