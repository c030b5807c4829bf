// A live run before an audience, and its two cases: with nobody, and with watchers.
ghost use Rattle.std.specs.Prelude.{◌≡◌, ℕ, ◌+◌, ◌<◌, ◌≤◌, [], MatchOption, length, slice_index_or};
ghost use denote.Param.Send.{IsSync};
ghost use Rattle.sig_io.specs.Outside.{Rose};
ghost use Rattle.sig_types.specs.Counts.{AreFrames};
ghost use Rattle.pua_model.specs.Plan.{groups_in};
ghost use Rattle.controller.specs.Controls.{site_of, logic_of, plan_of};
ghost use Rattle.det_board.specs.Passes.{IsOpening};
ghost use Rattle.picture_cell.specs.Sides.{IsOpening as IsCellOpening, IsPublisherOf};
ghost use Rattle.junction_live.specs.Play.{AreFresh, ArePlayed};
ghost use Rattle.junction_live.specs.Outcome.{HasMadeNone, SecondsGiven, SecondsMade};
ghost use Rattle.junction_live.specs.Watch.{AreFewWatchersOf, HaveLooked, SecondsShown};

use crate::audience::{Audience, Nobody};
use crate::both::feed_beside;
use crate::seconds::run_seconds;
use controller::Controller;
use det_board::{Board, FeederPass, TickPass};
use det_stream::Frames;
use junction_run::Status;
use picture_cell::{PictureCell, Publisher, Watcher};
use sig_io::{Gate, Sink};
use std::thread::{Threads, join_mut};

/// Plays the frames by the feeders, while the controller takes and makes as many seconds, the audience is given their pictures,
/// and the watchers look.
///
/// It answers `Done`, or `WriteFault` only where a write failed; then no further second is made, and the feeders and the
/// watchers still end.
pub(crate) fn play_before<R: Threads + Sync, A: Audience, O: Sink + Send, G: Gate>(
    rt: &R,
    controller: &mut Controller,
    frames: &Frames,
    board: &Board,
    feeders: &mut Vec<FeederPass>,
    tick: &mut TickPass,
    out: &mut O,
    gate: &G,
    cell: &A::Cell,
    audience: &mut A,
    watchers: &mut [Watcher],
) -> Status
    requires none_made { HasMadeNone controller.old }
    requires opening { IsOpening 64 board.now feeders.old.items tick.old }
    requires frames { AreFrames frames.now }
    requires takes { A.takes cell.now audience.old (groups_in (plan_of controller.old)) (length frames.now) }
    requires watchers { A.watches cell.now watchers.old }
    ensures feeders { ArePlayed 64 frames.now feeders.old.items feeders.new.items }
    ensures feeders_count { length feeders.new.items ≡ 64 }
    ensures tick { tick.new.table ≡ tick.old.table }
    ensures made { SecondsGiven (A.given audience.old audience.new) (length frames.now) result controller.old
        controller.new tick.new (O.taken out.old) (O.taken out.new) }
    ensures looked { HaveLooked (length watchers.old) 16 watchers.old watchers.new }
    ensures site { site_of controller.new ≡ site_of controller.old }
    ensures logic { logic_of controller.new ≡ logic_of controller.old }
    ensures later { O.faults out.old ≤ O.faults out.new }
    ensures cause { result ≡ Status.WriteFault → Rose (O.faults out.old) (O.faults out.new) }
{
    let seconds = frames.len() as u32;
    let looked_at = A::looked_at(cell);
    let passes = feeders.as_mut_slice();
    let ((), status) = join_mut(
        rt,
        &mut ||
            requires { IsSync R.row × AreFrames frames.now × (length passes.now ≤ 64) × AreFresh board.now passes.now
                × MatchOption looked_at (length watchers.now ≡ 0) (λ pictures. AreFewWatchersOf pictures.now watchers.now) }
            ensures fed { ArePlayed (length passes.entry.now) frames.entry.now passes.entry.now passes.exit.now }
            ensures looked { HaveLooked (length watchers.entry.now) 16 watchers.entry.now watchers.exit.now }
        { feed_beside(rt, board, frames, passes, looked_at, watchers, gate) },
        &mut || -> Status
            requires { (tick.now.table ≡ board.now.table) × (board.now.detectors ≡ 64) × HasMadeNone controller.now
                × ((w : ℕ) → slice_index_or tick.now.loads w [] ≡ []) × (seconds ≤ 604800)
                × A.takes cell.now audience.now (groups_in (plan_of controller.now)) seconds }
            ensures table { tick.exit.now.table ≡ tick.entry.now.table }
            ensures made { SecondsGiven (A.given audience.entry.now audience.exit.now) seconds result controller.entry.now
                controller.exit.now tick.exit.now (O.taken out.entry.now) (O.taken out.exit.now) }
            ensures site { site_of controller.exit.now ≡ site_of controller.entry.now }
            ensures logic { logic_of controller.exit.now ≡ logic_of controller.entry.now }
            ensures later { O.faults out.entry.now ≤ O.faults out.exit.now }
            ensures cause { result ≡ Status.WriteFault → Rose (O.faults out.entry.now) (O.faults out.exit.now) }
        { run_seconds(controller, tick, board, seconds, out, gate, cell, audience) },
    );
    status
}

/// Plays the frames by the feeders, while the controller takes and makes as many seconds.
///
/// It answers `Done`, or `WriteFault` only where a write failed; then no further second is made, and the feeders still end.
pub fn play<R: Threads + Sync, O: Sink + Send, G: Gate>(
    rt: &R,
    controller: &mut Controller,
    frames: &Frames,
    board: &Board,
    feeders: &mut Vec<FeederPass>,
    tick: &mut TickPass,
    out: &mut O,
    gate: &G,
) -> Status
    requires none_made { HasMadeNone controller.old }
    requires opening { IsOpening 64 board.now feeders.old.items tick.old }
    requires frames { AreFrames frames.now }
    ensures feeders { ArePlayed 64 frames.now feeders.old.items feeders.new.items }
    ensures feeders_count { length feeders.new.items ≡ 64 }
    ensures tick { tick.new.table ≡ tick.old.table }
    ensures made { SecondsMade (length frames.now) result controller.old controller.new tick.new
        (O.taken out.old) (O.taken out.new) }
    ensures site { site_of controller.new ≡ site_of controller.old }
    ensures logic { logic_of controller.new ≡ logic_of controller.old }
    ensures later { O.faults out.old ≤ O.faults out.new }
    ensures cause { result ≡ Status.WriteFault → Rose (O.faults out.old) (O.faults out.new) }
{
    play_before(
        rt,
        controller,
        frames,
        board,
        feeders,
        tick,
        out,
        gate,
        &(),
        &mut Nobody,
        &mut [],
    )
}

/// Plays the frames as `play` does, while the controller publishes each second's picture and the watchers look.
///
/// It answers `Done`, or `WriteFault` only where a write failed; then no further second is made, and the feeders and the
/// watchers still end.
pub fn play_watched<R: Threads + Sync, O: Sink + Send, G: Gate>(
    rt: &R,
    controller: &mut Controller,
    frames: &Frames,
    board: &Board,
    feeders: &mut Vec<FeederPass>,
    tick: &mut TickPass,
    out: &mut O,
    gate: &G,
    cell: &PictureCell,
    publisher: &mut Publisher,
    watchers: &mut Vec<Watcher>,
) -> Status
    requires none_made { HasMadeNone controller.old }
    requires opening { IsOpening 64 board.now feeders.old.items tick.old }
    requires frames { AreFrames frames.now }
    requires cell { IsCellOpening (groups_in (plan_of controller.old)) (length watchers.old.items) cell.now.seconds
        cell.now publisher.old watchers.old.items }
    requires few_watchers { length watchers.old.items ≤ 8 }
    requires room { length frames.now < cell.now.seconds }
    ensures feeders { ArePlayed 64 frames.now feeders.old.items feeders.new.items }
    ensures feeders_count { length feeders.new.items ≡ 64 }
    ensures tick { tick.new.table ≡ tick.old.table }
    ensures made { SecondsShown (length frames.now) result controller.old controller.new tick.new
        (O.taken out.old) (O.taken out.new) publisher.old publisher.new }
    ensures publisher { IsPublisherOf cell.now publisher.new }
    ensures watchers { HaveLooked (length watchers.old.items) 16 watchers.old.items watchers.new.items }
    ensures watchers_count { length watchers.new.items ≡ length watchers.old.items }
    ensures site { site_of controller.new ≡ site_of controller.old }
    ensures logic { logic_of controller.new ≡ logic_of controller.old }
    ensures later { O.faults out.old ≤ O.faults out.new }
    ensures cause { result ≡ Status.WriteFault → Rose (O.faults out.old) (O.faults out.new) }
{
    let watchers = watchers.as_mut_slice();
    play_before(
        rt, controller, frames, board, feeders, tick, out, gate, cell, publisher, watchers,
    )
}
