// The text of a live run: its log, and the lines of its watchers.
ghost use Rattle.std.specs.Prelude.{◌≡◌, ◌≤◌, length};
ghost use Rattle.sig_io.specs.Outside.{HasCause};
ghost use Rattle.sig_types.specs.Counts.{AreFrames};
ghost use Rattle.sig_types.specs.Pass.{Store};
ghost use Rattle.sig_types.specs.Rules.{IsTwoWay};
ghost use Rattle.pua_model.specs.Plan.{groups_in};
ghost use Rattle.controller.specs.Controls.{StandsFor, site_of, plan_of};
ghost use Rattle.controller.specs.Past.{opening};
ghost use Rattle.det_board.specs.Passes.{IsOpening};
ghost use Rattle.junction_run.specs.Played.{playing_of};
ghost use Rattle.junction_live.specs.Cells.{IsCell, IsCellFor, watchers_in};
ghost use Rattle.junction_live.specs.Ended.{Wrote};

use crate::audience::Nobody;
use crate::cell::WatchedCell;
use crate::lines::write_watches;
use crate::log::write_log;
use crate::side::LiveStart;
use det_stream::Frames;
use sig_io::{Failed, Gate, Sink};
use std::thread::Threads;

// Writes the log of the frames that are played beside watchers, and what the watchers saw last.
fn write_watched<R: Threads + Sync, O: Sink + Send, G: Gate>(
    rt: &R,
    start: LiveStart,
    frames: &Frames,
    watched: WatchedCell,
    out: &mut O,
    gate: &G,
) -> Result<(), Failed>
    requires begun { (store : Store) × StandsFor start.controller (opening (site_of start.controller) store) }
    requires opening { IsOpening 64 start.board start.feeders.items start.tick }
    requires frames { AreFrames frames.now }
    requires cell { IsCellFor (groups_in (plan_of start.controller)) (length frames.now) watched }
    ensures text { (store : Store) → StandsFor start.controller (opening (site_of start.controller) store) →
        IsTwoWay (site_of start.controller).rules → (site_of start.controller).rules.count ≡ groups_in (site_of start.controller).plan →
        Wrote (length watched.watchers.items) result frames.now (playing_of start.controller store) (O.taken out.old) (O.taken out.new) }
    ensures cause { HasCause (O.faults out.old) (O.faults out.new) result }
{
    let WatchedCell {
        cell,
        publisher,
        watchers,
    } = watched;
    let mut watchers = watchers;
    match write_log(
        rt,
        start,
        publisher,
        frames,
        &cell,
        watchers.as_mut_slice(),
        out,
        gate,
    ) {
        Ok(publisher) => write_watches(&cell, publisher, watchers, out),
        Err(fault) => Err(fault),
    }
}

/// Writes the log of the frames that are played beside the controller, with the closing second, and a line for each watcher of
/// the cell, if there is one.
pub(crate) fn write_text<R: Threads + Sync, O: Sink + Send, G: Gate>(
    rt: &R,
    start: LiveStart,
    frames: &Frames,
    cell: Option<WatchedCell>,
    out: &mut O,
    gate: &G,
) -> Result<(), Failed>
    requires begun { (store : Store) × StandsFor start.controller (opening (site_of start.controller) store) }
    requires opening { IsOpening 64 start.board start.feeders.items start.tick }
    requires frames { AreFrames frames.now }
    requires cell { IsCell (groups_in (plan_of start.controller)) (length frames.now) cell }
    ensures text { (store : Store) → StandsFor start.controller (opening (site_of start.controller) store) →
        IsTwoWay (site_of start.controller).rules → (site_of start.controller).rules.count ≡ groups_in (site_of start.controller).plan →
        Wrote (watchers_in cell) result frames.now (playing_of start.controller store) (O.taken out.old) (O.taken out.new) }
    ensures cause { HasCause (O.faults out.old) (O.faults out.new) result }
{
    match cell {
        None => match write_log(rt, start, Nobody, frames, &(), &mut [], out, gate) {
            Ok(_nobody) => Ok(()),
            Err(fault) => Err(fault),
        },
        Some(watched) => write_watched(rt, start, frames, watched, out, gate),
    }
}
