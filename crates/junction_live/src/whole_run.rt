// All seconds of a live run, the closing one with them, over frames that were read.
ghost use Rattle.std.specs.Prelude.{◌≡◌, ◌+◌, ◌≤◌, [], length};
ghost use Rattle.sig_io.specs.Outside.{HasCause};
ghost use Rattle.sig_types.specs.Counts.{AreFrames};
ghost use Rattle.pua_model.specs.Plan.{groups_in};
ghost use Rattle.controller.specs.Controls.{plan_of};
ghost use Rattle.controller.specs.Past.{Past};
ghost use Rattle.det_board.specs.Passes.{IsOpening};
ghost use Rattle.junction_live.specs.Outcome.{HasMadeNone, IsLiveLog, is_done as is_done_spec};
ghost use Rattle.junction_live.specs.Watch.{HaveLooked};

use crate::audience::Audience;
use crate::padded::play_padded;
use crate::side::{ControllerSide, LiveStart};
use det_board::end_board;
use det_stream::Frames;
use junction_run::Status;
use picture_cell::Watcher;
use sig_io::{Failed, Gate, Sink};
use signal_log::write_second;
use std::thread::Threads;

/// Whether all seconds were made, and their records written.
pub(crate) fn is_done(status: Status) -> bool
    ensures { result ≡ is_done_spec status }
{
    match status {
        Status::Done => true,
        Status::Memory
        | Status::Words
        | Status::ReadFault
        | Status::WriteFault
        | Status::RefusedFile
        | Status::RefusedLine
        | Status::TooLong => false,
    }
}

/// Plays the frames before an audience, and makes one second more, of all events that no take has read. Its picture is shown too.
/// The audience is handed back where nothing failed.
pub(crate) fn play_and_close<R: Threads + Sync, A: Audience + Drop, O: Sink + Send, G: Gate>(
    rt: &R,
    start: LiveStart,
    audience: A,
    frames: &Frames,
    cell: &A::Cell,
    watchers: &mut [Watcher],
    out: &mut O,
    gate: &G,
) -> Result<A, Failed>
    requires none_made { HasMadeNone start.controller }
    requires opening { IsOpening 64 start.board start.feeders.items start.tick }
    requires frames { AreFrames frames.now }
    requires takes { A.takes cell.now audience (groups_in (plan_of start.controller)) (length frames.now + 1) }
    requires watchers { A.watches cell.now watchers.old }
    ensures live { IsLiveLog (A.given audience) result frames.now start.controller (O.taken out.old) (O.taken out.new) }
    ensures looked { HaveLooked (length watchers.old) 16 watchers.old watchers.new }
    ensures cause { HasCause (O.faults out.old) (O.faults out.new) result }
{
    let LiveStart {
        controller,
        board,
        feeders,
        tick,
    } = start;
    let mut feeders = feeders;
    let side = ControllerSide {
        controller,
        tick,
        audience,
    };
    let (status, side) = play_padded(
        rt,
        side,
        frames,
        &board,
        &mut feeders,
        cell,
        watchers,
        out,
        gate,
    );
    let ControllerSide {
        mut controller,
        tick,
        mut audience,
    } = side;
    let closing = end_board(board, feeders, tick);
    if !is_done(status) {
        return Err(Failed);
    }
    controller.second(&closing);
    let record = controller.last();
    audience.show(cell, &record.picture);
    match write_second(record, controller.plan(), out) {
        Ok(()) => Ok(audience),
        Err(_fault) => Err(Failed),
    }
}
