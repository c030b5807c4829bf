// The cell of a run with watchers.
ghost use Rattle.std.specs.Prelude.{◌≡◌, ◌≤◌, IfOk, length};
ghost use Rattle.sig_types.specs.Counts.{AreFrames};
ghost use Rattle.pua_model.specs.Plan.{groups_in};
ghost use Rattle.junction_live.specs.Cells.{HasWatchers};

use crate::count::WatcherCount;
use det_stream::Frames;
use picture_cell::{PictureCell, Publisher, Watcher, make_cell};
use pua_model::Plan;
use sig_types::Memory;
use std::alloc::Global;

/// A cell with its publisher and its watchers.
#[derive(Drop)]
pub(crate) struct WatchedCell {
    pub(crate) cell: PictureCell,
    pub(crate) publisher: Publisher,
    pub(crate) watchers: Vec<Watcher>,
}

/// A cell for the pictures of a live run over these frames, with its closing second; None where there is no watcher.
pub(crate) fn make_watched_cell(
    alloc: Global,
    plan: &Plan,
    watchers: WatcherCount,
    frames: &Frames,
) -> Result<Option<WatchedCell>, Memory>
    requires frames { AreFrames frames.now }
    ensures { IfOk result (λ cell. HasWatchers (groups_in plan.now) (length frames.now) watchers.count cell) }
{
    let count = watchers.count;
    if count == 0 {
        return Ok(None);
    }
    let seconds = frames.len() as u32 + 1;
    match make_cell(alloc, plan.groups(), count, seconds) {
        Ok((cell, publisher, watchers)) => Ok(Some(WatchedCell {
            cell,
            publisher,
            watchers,
        })),
        Err(memory) => Err(memory),
    }
}
