// All feeders.
ghost use Rattle.std.specs.Prelude.{◌≡◌, ◌≤◌, ◌<◌, ◌+◌, length};
ghost use Rattle.sig_types.specs.Counts.{AreFrames};
ghost use Rattle.junction_live.specs.Play.{AreFresh, AreFreshFrom, ArePlayed, Played};

use crate::feed::feed;
use det_board::{Board, FeederPass};
use det_stream::Frames;
use sig_io::Gate;
use std::thread;
use std::thread::Threads;

// The number of detectors up to the last one that has a front or a rear in a frame.
fn busy_detectors(frames: &Frames) -> usize
    ensures { result ≤ 64 }
{
    let mut busy = 0usize;
    for place in 0..64u8 {
        if !frames.busy_lines(place).is_empty() {
            busy = usize::from(place) + 1;
        }
    }
    busy
}

// These feeders, the first of which is at that place, play their detectors' events in at most so many threads.
fn feed_from<R: Threads + Sync, G: Gate>(
    rt: &R,
    board: &Board,
    frames: &Frames,
    first: usize,
    feeders: &mut [FeederPass],
    threads: usize,
    gate: &G,
)
    requires frames { AreFrames frames.now }
    requires places { first + length feeders.old ≤ 64 }
    requires fresh { AreFreshFrom first board.now feeders.old }
    requires threads { 0 < threads }
    ensures { ArePlayed (length feeders.old) frames.now feeders.old feeders.new }
{
    let one = |k: usize, pass: &mut FeederPass|
        requires { AreFrames frames.now × (first + k < 64)
            × (pass.now ≡ record { table = board.now.table; place = first + k; fronts = 0; rears = 0 }) }
        ensures { Played frames.entry.now pass.entry.now pass.exit.now }
    { feed(board, frames, (first + k) as u8, pass, gate) };
    thread::for_each_mut(rt, feeders, threads, &one);
}

/// Each feeder plays its detector's events, in a thread of its own where one can be had. Those after the last one that has
/// events have nothing to play, and get no thread.
pub fn feed_all<R: Threads + Sync, G: Gate>(
    rt: &R,
    board: &Board,
    frames: &Frames,
    feeders: &mut [FeederPass],
    gate: &G,
)
    requires frames { AreFrames frames.now }
    requires count { length feeders.old ≤ 64 }
    requires fresh { AreFresh board.now feeders.old }
    ensures { ArePlayed (length feeders.old) frames.now feeders.old feeders.new }
{
    let busy = busy_detectors(frames).min(feeders.len());
    let (first, rest) = feeders.split_at_mut(busy);
    feed_from(rt, board, frames, 0, first, 64, gate);
    feed_from(rt, board, frames, busy, rest, 1, gate);
}
