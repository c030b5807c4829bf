// The controller's side apart from the feeders' passes.
ghost use Rattle.std.specs.Prelude.{◌≡◌, ◌≤◌, length};
ghost use Rattle.sig_io.specs.Outside.{Rose};
ghost use Rattle.sig_types.specs.Counts.{AreFrames};
ghost use Rattle.pua_model.specs.Plan.{groups_in};
ghost use Rattle.controller.specs.Controls.{site_of, logic_of, plan_of};
ghost use Rattle.det_board.specs.Passes.{IsOpening};
ghost use Rattle.junction_live.specs.Play.{ArePlayed};
ghost use Rattle.junction_live.specs.Outcome.{HasMadeNone, SecondsGiven};
ghost use Rattle.junction_live.specs.Watch.{HaveLooked};

use crate::audience::Audience;
use crate::playing::play_before;
use crate::side::ControllerSide;
use crossbeam_utils::CachePadded;
use det_board::{Board, FeederPass};
use det_stream::Frames;
use junction_run::Status;
use picture_cell::Watcher;
use sig_io::{Gate, Sink};
use std::thread::Threads;

/// Plays as `play_before` does, with what the controller's thread writes in cache lines of its own.
pub(crate) fn play_padded<R: Threads + Sync, A: Audience, O: Sink + Send, G: Gate>(
    rt: &R,
    side: ControllerSide<A>,
    frames: &Frames,
    board: &Board,
    feeders: &mut Vec<FeederPass>,
    cell: &A::Cell,
    watchers: &mut [Watcher],
    out: &mut O,
    gate: &G,
) -> (Status, ControllerSide<A>)
    requires none_made { HasMadeNone side.controller }
    requires opening { IsOpening 64 board.now feeders.old.items side.tick }
    requires frames { AreFrames frames.now }
    requires takes { A.takes cell.now side.audience (groups_in (plan_of side.controller)) (length frames.now) }
    requires watchers { A.watches cell.now watchers.old }
    ensures feeders { ArePlayed 64 frames.now feeders.old.items feeders.new.items }
    ensures feeders_count { length feeders.new.items ≡ 64 }
    ensures tick { result.1.tick.table ≡ side.tick.table }
    ensures made { SecondsGiven (A.given side.audience result.1.audience) (length frames.now) result.0 side.controller
        result.1.controller result.1.tick (O.taken out.old) (O.taken out.new) }
    ensures looked { HaveLooked (length watchers.old) 16 watchers.old watchers.new }
    ensures site { site_of result.1.controller ≡ site_of side.controller }
    ensures logic { logic_of result.1.controller ≡ logic_of side.controller }
    ensures later { O.faults out.old ≤ O.faults out.new }
    ensures cause { result.0 ≡ Status.WriteFault → Rose (O.faults out.old) (O.faults out.new) }
{
    let mut padded = CachePadded::new(side);
    let side: &mut ControllerSide<A> = &mut padded;
    let status = play_before(
        rt,
        &mut side.controller,
        frames,
        board,
        feeders,
        &mut side.tick,
        out,
        gate,
        cell,
        &mut side.audience,
        watchers,
    );
    (status, padded.into_inner())
}
