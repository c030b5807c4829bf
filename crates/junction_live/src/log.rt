// The log of a live run.
ghost use Rattle.std.specs.Prelude.{◌≡◌, ◌+◌, ◌≤◌, IfOk, length};
ghost use Rattle.sig_io.specs.Outside.{HasCause};
ghost use Rattle.sig_types.specs.Counts.{AreFrames};
ghost use Rattle.sig_types.specs.Pass.{Store};
ghost use Rattle.sig_types.specs.Rules.{IsTwoWay};
ghost use Rattle.sig_types.specs.Turns.{History};
ghost use Rattle.pua_model.specs.Plan.{groups_in};
ghost use Rattle.controller.specs.Controls.{StandsFor, site_of, plan_of};
ghost use Rattle.controller.specs.Past.{opening};
ghost use Rattle.det_board.specs.Passes.{IsOpening};
ghost use Rattle.junction_run.specs.Played.{playing_of};
ghost use Rattle.junction_live.specs.Ended.{WroteLog};
ghost use Rattle.junction_live.specs.Watch.{HaveLooked};

use crate::audience::Audience;
use crate::side::LiveStart;
use crate::whole_run::play_and_close;
use det_board::end_board;
use det_stream::Frames;
use picture_cell::Watcher;
use sig_io::{Failed, Gate, Sink};
use signal_log::write_header;
use std::thread::Threads;

/// Writes the header, and plays the frames before an audience, with the closing second. The audience is handed back where nothing
/// failed.
pub(crate) fn write_log<R: Threads + Sync, A: Audience + Drop, O: Sink + Send, G: Gate>(
    rt: &R,
    start: LiveStart,
    audience: A,
    frames: &Frames,
    cell: &A::Cell,
    watchers: &mut [Watcher],
    out: &mut O,
    gate: &G,
) -> Result<A, Failed>
    requires begun { (store : Store) × StandsFor start.controller (opening (site_of start.controller) store) }
    requires opening { IsOpening 64 start.board start.feeders.items start.tick }
    requires frames { AreFrames frames.now }
    requires takes { A.takes cell.now audience (groups_in (plan_of start.controller)) (length frames.now + 1) }
    requires watchers { A.watches cell.now watchers.old }
    ensures log { (store : Store) → StandsFor start.controller (opening (site_of start.controller) store) →
        IsTwoWay (site_of start.controller).rules → (site_of start.controller).rules.count ≡ groups_in (site_of start.controller).plan →
        WroteLog (A.given audience) result frames.now (playing_of start.controller store) (O.taken out.old) (O.taken out.new) }
    ensures given { IfOk result (λ after. (pictures : History) × A.given audience after pictures) }
    ensures looked { IfOk result (λ _. HaveLooked (length watchers.old) 16 watchers.old watchers.new) }
    ensures cause { HasCause (O.faults out.old) (O.faults out.new) result }
{
    let plan = start.controller.plan();
    // Its contract tells that the plan names its groups.
    plan.groups();
    match write_header(plan, out) {
        Ok(()) => play_and_close(rt, start, audience, frames, cell, watchers, out, gate),
        Err(_fault) => {
            end_board(start.board, start.feeders, start.tick);
            Err(Failed)
        }
    }
}
