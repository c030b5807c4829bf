// The board, and the passes of the feeders and of the tick.
ghost use Rattle.std.specs.Prelude.{◌≡◌, ℕ, ◌+◌, ◌*◌, ◌<◌, ◌≤◌, [], ◌∷◌, ◌++◌};
ghost use Rattle.det_board.specs.Rule.{most_fronts};

use crate::rule::{Counting, Front, Rear};
use crate::view::View;
use atomic_table::{Seat, Table};
use crossbeam_utils::CachePadded;
use std::alloc::Global;
use std::marker::Model;

// Each detector has eight words, a cache line, of which two are used: no two feeders write into one line.
/// The words of 1 to 64 detectors, which threads share. Contracts see it as its table and the number of its detectors.
#[derive(Drop)]
pub struct Board {
    pub(crate) table: Table<(), View, u8, Counting, Global>,
    pub(crate) detectors: u8,
}

impl Model for Board {
    ghost use Rattle.std.specs.Prelude.{◌≡◌, ℕ, ◌*◌, ◌<◌, ◌≤◌};
    ghost use Rattle.det_board.specs.Passes.{Boarded};

    ghost Value = { Boarded };

    ghost view = { λ b. record { table = b.table.shared.table_id; detectors = b.detectors } };

    ghost invariant = { λ b. (b.table.shared.key ≡ b.detectors) × (b.table.shared.table_id.words ≡ 8 * b.detectors)
        × (0 < b.detectors) × (b.detectors ≤ 64) × (b.table.shared.table_id.slots ≡ 0) };
}

// What a feeder's thread writes at each event.
#[derive(Clone, Copy)]
pub(crate) struct FeederCounts {
    pub(crate) fronts: u32,
    pub(crate) rears: u32,
}

// The passes stand side by side in a list, and each is used by a thread of its own: so its counts have their own cache line.
/// The right to count the fronts and rears of one detector. Contracts see it as the board's table, the detector's place from 0
/// and its own counts.
#[derive(Drop)]
pub struct FeederPass {
    pub(crate) seat: Seat<(), View>,
    pub(crate) place: u8,
    pub(crate) counts: CachePadded<FeederCounts>,
}

impl Model for FeederPass {
    ghost use Rattle.crossbeam_utils.specs.Padded.{padded_value};
    ghost use Rattle.det_board.specs.Passes.{Feeding, IsFeeding};

    ghost Value = { Feeding };

    ghost view = { λ p. record {
      table = p.seat.table_id;
      place = p.place;
      fronts = (padded_value p.counts).fronts;
      rears = (padded_value p.counts).rears;
    } };

    ghost invariant = { λ p. IsFeeding p.seat.table_id p.seat.me p.place
        (padded_value p.counts).fronts (padded_value p.counts).rears };
}

// Where the word with the fronts of the detector at that place stands. That with its rears is the next one.
#[inline(always)]
pub(crate) fn fronts_word(place: u8) -> usize
    ensures { result ≡ 8 * place }
{
    8 * usize::from(place)
}

impl Board {
    /// How many detectors the board has.
    pub fn detectors(&self) -> u8
        ensures count { result ≡ self.now.detectors }
        ensures range { (0 < result) × (result ≤ 64) }
        ensures words { self.now.table.words ≡ 8 * result }
    {
        self.detectors
    }
}

impl FeederPass {
    /// A front: one atomic step on the board.
    pub fn front(&mut self, board: &Board)
        requires board { self.old.table ≡ board.now.table }
        requires room { self.old.fronts < most_fronts }
        ensures { self.new ≡ record self.old { fronts = self.old.fronts + 1 } }
    {
        board
            .table
            .shared
            .fetch_add::<Front>(&mut self.seat, fronts_word(self.place), 1);
        self.counts.fronts += 1;
    }

    /// A rear: one atomic step on the board.
    pub fn rear(&mut self, board: &Board)
        requires board { self.old.table ≡ board.now.table }
        requires room { self.old.rears < self.old.fronts }
        ensures { self.new ≡ record self.old { rears = self.old.rears + 1 } }
    {
        board
            .table
            .shared
            .fetch_add::<Rear>(&mut self.seat, fronts_word(self.place) + 1, 1);
        self.counts.rears += 1;
    }

    /// How many fronts this pass has counted.
    pub fn fronts(&self) -> u32
        ensures { result ≡ self.now.fronts }
    {
        self.counts.fronts
    }

    /// How many rears this pass has counted.
    pub fn rears(&self) -> u32
        ensures { result ≡ self.now.rears }
    {
        self.counts.rears
    }
}
