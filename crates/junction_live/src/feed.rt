// A feeder.
ghost use Rattle.std.specs.Prelude.{◌≡◌, ◌<◌, ◌≤◌, ◌+◌, ◌^◌};
ghost use Rattle.sig_types.specs.Counts.{AreFrames};
ghost use Rattle.junction_live.specs.Play.{Played};

use det_board::{Board, FeederPass};
use det_stream::Frames;
use sig_io::Gate;

/// Plays all events of one detector: of each frame first its fronts, and then its rears.
pub fn feed<G: Gate>(board: &Board, frames: &Frames, place: u8, pass: &mut FeederPass, gate: &G)
    requires board { pass.old.table ≡ board.now.table }
    requires place { (pass.old.place ≡ place) × (place < 64) }
    requires fresh { (pass.old.fronts ≡ 0) × (pass.old.rears ≡ 0) }
    requires frames { AreFrames frames.now }
    ensures { Played frames.now pass.old pass.new }
{
    let lines = frames.busy_lines(place);
    let mut step = 0u32;
    for line in lines {
        step = play_line(board, place, line.counts, step, pass, gate);
    }
}

// Plays one frame's fronts, and then its rears. The number of the next event.
fn play_line<G: Gate>(
    board: &Board,
    place: u8,
    counts: (u8, u8),
    first: u32,
    pass: &mut FeederPass,
    gate: &G,
) -> u32
    requires board { pass.old.table ≡ board.now.table }
    requires place { place < 64 }
    requires within_fronts { pass.old.rears + counts.1 ≤ pass.old.fronts + counts.0 }
    requires at_most { pass.old.fronts + counts.0 ≤ 2147483647 }
    requires steps { first + counts.0 + counts.1 < 2 ^ 32 }
    ensures pass { pass.new ≡ record {
      table = pass.old.table;
      place = pass.old.place;
      fronts = pass.old.fronts + counts.0;
      rears = pass.old.rears + counts.1;
    } }
    ensures step { result ≡ first + counts.0 + counts.1 }
{
    let mut step = first;
    for _front in 0..counts.0 {
        gate.pass(place + 1, step);
        pass.front(board);
        step += 1;
    }
    for _rear in 0..counts.1 {
        gate.pass(place + 1, step);
        pass.rear(board);
        step += 1;
    }
    step
}
