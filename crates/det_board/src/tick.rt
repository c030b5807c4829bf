// The tick's pass, which reads the board.
ghost use Rattle.std.specs.Prelude.{◌≡◌, ℕ, ◌+◌, ◌*◌, ◌/◌, ◌<◌, ◌≤◌, [], length, slice_index_or, slice_set};
ghost use Rattle.det_board.specs.Rule.{dealt_of, loads_of, owned_of};
ghost use Rattle.det_board.specs.Passes.{AreCounts, GrowsTo, IsInFour, LoadsOne, ReadsFour, ReadsOne, Taking, Takes, Ticking, gain_of};
ghost use Rattle.det_board.specs.declared.view.View.TheVariants.{Tick};

use crate::board::{Board, fronts_word};
use crate::rule::{ReadFronts, ReadRears};
use crate::totals::Totals;
use crate::view::View;
use atomic_table::Seat;
use sig_types::Frame;
use std::marker::Model;

/// The controller's right to read the board. Contracts see it as the board's table and the values that it loaded of each word.
#[derive(Drop)]
pub struct TickPass {
    pub(crate) seat: Seat<(), View>,
    pub(crate) totals: Totals,
}

impl Model for TickPass {
    ghost use Rattle.det_board.specs.Passes.{Ticking, IsTicking};
    ghost use Rattle.det_board.specs.Rule.{loads_of};

    ghost Value = { Ticking };

    ghost view = { λ t. record { table = t.seat.table_id; loads = loads_of t.seat.me.0 } };

    ghost invariant = { λ t. IsTicking t.seat.table_id t.seat.me t.totals };
}

// Loads the rears of a detector, and then its fronts.
#[inline(always)]
fn load_counts(board: &Board, seat: &mut Seat<(), View>, place: u8) -> (u64, u64)
    requires board { seat.old.table_id ≡ board.now.table }
    requires inside { place < board.now.detectors }
    requires tick { seat.old.me ≡ (Tick (dealt_of seat.old.me.0) (loads_of seat.old.me.0) (owned_of seat.old.me.0), []) }
    requires room { length (loads_of seat.old.me.0) ≡ board.now.table.words }
    ensures { LoadsOne place seat.old.table_id seat.old.me seat.new.table_id seat.new.me result }
{
    let word = fronts_word(place);
    let table = &board.table.shared;
    let rears = table.load::<ReadRears>(seat, word + 1);
    let fronts = table.load::<ReadFronts>(seat, word);
    (fronts, rears)
}

// The fronts and rears of four detectors together.
#[inline(always)]
fn events_of(one: (u64, u64), two: (u64, u64), three: (u64, u64), four: (u64, u64)) -> u64
    requires { AreCounts one × AreCounts two × AreCounts three × AreCounts four }
    ensures { result ≡ one.0 + one.1 + (two.0 + two.1) + (three.0 + three.1 + (four.0 + four.1)) }
{
    let first = one.0 + one.1 + (two.0 + two.1);
    let last = three.0 + three.1 + (four.0 + four.1);
    first + last
}

// Takes over the counts of a detector, and puts what they gained into the frame.
fn gain(totals: &mut Totals, four: u8, place: u8, counts: (u64, u64), frame: &mut Frame)
    requires of_four { IsInFour four place }
    requires grows { GrowsTo totals.old place counts }
    ensures totals { totals.new ≡ slice_set totals.old place counts }
    ensures frame { frame.new ≡ slice_set frame.old place (gain_of totals.old place counts) }
{
    let gained = totals.grow(four, place, (counts.0 as u32, counts.1 as u32));
    frame.set(place, gained);
}

impl TickPass {
    // Loads the counts of a detector, and puts what they gained since the last take into the frame.
    fn read_one(&mut self, board: &Board, four: u8, place: u8, frame: &mut Frame)
        requires board { self.old.table ≡ board.now.table }
        requires inside { place < board.now.detectors }
        requires of_four { IsInFour four place }
        ensures { (gained : ℕ × ℕ) × ReadsOne place self.old self.new gained × (frame.new ≡ slice_set frame.old place gained) }
    {
        let counts = load_counts(board, &mut self.seat, place);
        gain(&mut self.totals, four, place, counts, frame);
    }

    // Loads the counts of four detectors, and puts what they gained since the last take into the frame. Most gain nothing in
    // most seconds, and then nothing is written.
    #[inline(always)]
    fn read_four(&mut self, board: &Board, four: u8, frame: &mut Frame)
        requires board { self.old.table ≡ board.now.table }
        requires inside { (4 * four + 3 < board.now.detectors) × (four < 16) }
        requires silent { (d : ℕ) → 4 * four ≤ d → slice_index_or frame.old d (0, 0) ≡ (0, 0) }
        ensures { ReadsFour (4 * four) self.old self.new frame.old frame.new }
    {
        let place = 4 * four;
        let first = load_counts(board, &mut self.seat, place);
        let second = load_counts(board, &mut self.seat, place + 1);
        let third = load_counts(board, &mut self.seat, place + 2);
        let fourth = load_counts(board, &mut self.seat, place + 3);
        if !self
            .totals
            .are_still(four, events_of(first, second, third, fourth))
        {
            gain(&mut self.totals, four, place, first, frame);
            gain(&mut self.totals, four, place + 1, second, frame);
            gain(&mut self.totals, four, place + 2, third, frame);
            gain(&mut self.totals, four, place + 3, fourth, frame);
        }
    }

    // Reads the detectors after the last whole four, one after the other.
    fn read_rest(&mut self, board: &Board, frame: &mut Frame)
        requires board { self.old.table ≡ board.now.table }
        ensures { (begin : Ticking) → Taking (4 * (board.now.detectors / 4)) begin self.old frame.old →
            Taking board.now.detectors begin self.new frame.new }
    {
        let detectors = board.detectors();
        let four = detectors / 4;
        for place in 4 * four..detectors {
            self.read_one(board, four, place, frame);
        }
    }

    /// Takes what each detector counted since the last take: first its rears are loaded, and then its fronts, so that in all
    /// frames so far no detector has more rears than fronts.
    pub fn take(&mut self, board: &Board, frame: &mut Frame)
        requires { self.old.table ≡ board.now.table }
        ensures { Takes board.now.detectors self.old self.new frame.new }
    {
        frame.clear();
        for four in 0..board.detectors() / 4 {
            self.read_four(board, four, frame);
        }
        self.read_rest(board, frame);
    }
}
