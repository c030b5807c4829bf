// Closing a board.
ghost use Rattle.std.specs.Prelude.{◌≡◌, ℕ, ◌+◌, ◌*◌, ◌<◌, ◌≤◌, [], slice_set, slice_index_or, length, Some};
ghost use Rattle.det_board.specs.Rule.{dealt_of, loads_of, owned_of};
ghost use Rattle.det_board.specs.Passes.{AreAll, Closes, WithinCounts};
ghost use Rattle.det_board.specs.declared.view.View.TheVariants.{Tick};

use crate::board::{Board, FeederCounts, FeederPass};
use crate::rule::GiveBack;
use crate::tick::TickPass;
use crate::totals::Totals;
use crate::view::View;
use atomic_table::Seat;
use sig_types::Frame;

/// The closing frame: what the feeders counted and no take has read. All passes of the board are given, in any order.
pub fn end_board(board: Board, mut feeders: Vec<FeederPass>, tick: TickPass) -> Frame
    requires { AreAll board feeders.items tick }
    ensures { Closes board feeders.items tick result }
{
    let detectors = board.detectors();
    let TickPass { mut seat, totals } = tick;
    let mut counts = Frame::empty();
    while let Some(feeder) = feeders.pop() {
        let place = feeder.place;
        let own = give_back(&board, &mut seat, feeder);
        counts.set(place, own);
    }
    apply_rule(board, seat);
    unread_counts(detectors, &totals, &counts)
}

// The tick's seat takes a feeder's seat in. The feeder's counts.
fn give_back(board: &Board, seat: &mut Seat<(), View>, feeder: FeederPass) -> (u32, u32)
    requires board { (seat.old.table_id ≡ board.now.table) × (feeder.table ≡ board.now.table) }
    requires tick { seat.old.me ≡ (Tick (dealt_of seat.old.me.0) (loads_of seat.old.me.0) (owned_of seat.old.me.0), []) }
    requires room { length (owned_of seat.old.me.0) ≡ board.now.detectors }
    ensures place { feeder.place < board.now.detectors }
    ensures counts { result ≡ (feeder.fronts, feeder.rears) }
    ensures seat { (seat.new.table_id ≡ seat.old.table_id)
        × (seat.new.me ≡ (
          Tick (dealt_of seat.old.me.0) (loads_of seat.old.me.0)
              (slice_set (owned_of seat.old.me.0) feeder.place (Some (feeder.fronts, feeder.rears))),
          [],
        )) }
{
    let FeederPass {
        seat: other,
        place: _,
        counts,
    } = feeder;
    board.table.shared.join_seat::<GiveBack>(seat, other);
    let FeederCounts { fronts, rears } = counts.into_inner();
    (fronts, rears)
}

// The rule, at the last state.
fn apply_rule(board: Board, seat: Seat<(), View>)
    requires { seat.table_id ≡ board.table }
    ensures { WithinCounts board.detectors seat.me.0 }
{
    let Board {
        table,
        detectors: _,
    } = board;
    table.close_with(seat).free();
}

// The counts that have not been read.
fn unread_counts(detectors: u8, totals: &Totals, counts: &Frame) -> Frame
    requires room { detectors ≤ 64 }
    requires read { (d : ℕ) → d < detectors →
        ((slice_index_or totals.now d (0, 0)).0 ≤ (slice_index_or counts.now d (0, 0)).0)
        × ((slice_index_or totals.now d (0, 0)).1 ≤ (slice_index_or counts.now d (0, 0)).1) }
    ensures size { length result ≡ 64 }
    ensures unread { (d : ℕ) → d < detectors →
        ((slice_index_or result d (0, 0)).0 + (slice_index_or totals.now d (0, 0)).0 ≡ (slice_index_or counts.now d (0, 0)).0)
        × ((slice_index_or result d (0, 0)).1 + (slice_index_or totals.now d (0, 0)).1 ≡ (slice_index_or counts.now d (0, 0)).1) }
    ensures absent { (d : ℕ) → detectors ≤ d → slice_index_or result d (0, 0) ≡ (0, 0) }
{
    let mut frame = Frame::empty();
    for place in 0..detectors {
        let (fronts, rears) = counts.get(place);
        let (fronts_read, rears_read) = totals.get(place);
        frame.set(place, (fronts - fronts_read, rears - rears_read));
    }
    frame
}
