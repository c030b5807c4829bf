// Making a board.
ghost use Rattle.std.specs.Prelude.{◌≡◌, ◌+◌, ◌*◌, ◌<◌, ◌≤◌, [], replicate, IfOk};
ghost use Rattle.det_board.specs.Passes.{IsOpening, Undealt};

use crate::board::{Board, FeederCounts, FeederPass};
use crate::rule::Deal;
use crate::tick::TickPass;
use crate::totals::Totals;
use crate::view::View;
use atomic_table::{Seat, Table};
use crossbeam_utils::CachePadded;
use sig_types::Memory;
use std::alloc::Global;

/// A board for 1 to 64 detectors with no count, a feeder's pass for each detector in order, and the tick's pass.
pub fn make_board(
    alloc: Global,
    detectors: u8,
) -> Result<(Board, Vec<FeederPass>, TickPass), Memory>
    requires at_least { 0 < detectors }
    requires at_most { detectors ≤ 64 }
    ensures { IfOk result (λ r. IsOpening detectors r.0 r.1.items r.2) }
{
    let (board, seat) = open(alloc, &[0u64; 512], detectors)?;
    let (feeders, tick) = deal_all(alloc, &board, seat)?;
    Ok((board, feeders, tick))
}

// A pass for each detector, and what is then left to the tick's seat.
fn deal_all(
    alloc: Global,
    board: &Board,
    mut seat: Seat<(), View>,
) -> Result<(Vec<FeederPass>, TickPass), Memory>
    requires board { seat.table_id ≡ board.now.table }
    requires undealt { Undealt 0 board.now.detectors seat.me }
    ensures { IfOk result (λ r. IsOpening board.now.detectors board.now r.0.items r.1) }
{
    let detectors = board.detectors();
    let Ok(mut feeders) = Vec::with_capacity(alloc, usize::from(detectors)) else {
        return Err(Memory);
    };
    for place in 0..detectors {
        if feeders.push(deal(board, &mut seat, place)).is_err() {
            return Err(Memory);
        }
    }
    let tick = TickPass {
        seat,
        totals: Totals::zero(),
    };
    Ok((feeders, tick))
}

// The board with these words, and the seat that owns all detectors.
fn open(alloc: Global, zeros: &[u64; 512], detectors: u8) -> Result<(Board, Seat<(), View>), Memory>
    requires zeros { zeros.now ≡ replicate 512 0 }
    requires at_least { 0 < detectors }
    requires at_most { detectors ≤ 64 }
    ensures { IfOk result
        (λ r. (r.0.detectors ≡ detectors) × (r.1.table_id ≡ r.0.table) × (r.0.table.words ≡ 8 * detectors)
        × Undealt 0 detectors r.1.me) }
{
    let Ok((table, seat)) = Table::of_words(alloc, &zeros[..8 * usize::from(detectors)], &detectors)
    else {
        return Err(Memory);
    };
    Ok((Board { table, detectors }, seat))
}

// The pass of the detector at this place.
fn deal(board: &Board, seat: &mut Seat<(), View>, place: u8) -> FeederPass
    requires board { seat.old.table_id ≡ board.now.table }
    requires inside { place < board.now.detectors }
    requires undealt { Undealt place board.now.detectors seat.old.me }
    ensures pass { result ≡ record { table = board.now.table; place = place; fronts = 0; rears = 0 } }
    ensures seat { (seat.new.table_id ≡ seat.old.table_id) × Undealt (place + 1) board.now.detectors seat.new.me }
{
    FeederPass {
        seat: board.table.shared.split_seat::<Deal>(seat),
        place,
        counts: CachePadded::new(FeederCounts {
            fronts: 0,
            rears: 0,
        }),
    }
}
