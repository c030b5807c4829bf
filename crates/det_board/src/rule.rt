// The rule of the board and the kinds of step.
ghost use Rattle.det_board.specs.Rule.{Keeps, opening_view, dealt_from, dealt_to, given_back, Fronts, Rears, ReadsRears, ReadsFronts};
ghost use Rattle.det_board.specs.declared.view.View.TheVariants.{Spent};

use crate::view::View;
use atomic_table::{Join, Play, Split, TableRule};

/// The rule of the board.
pub struct Counting;

impl TableRule<(), View, u8> for Counting {
    ghost holds = { λ detectors s. Keeps detectors s };

    ghost first = { opening_view };
}

/// A detector is dealt to a feeder.
pub struct Deal;

impl Split<View> for Deal {
    ghost left = { dealt_from };

    ghost right = { dealt_to };
}

/// A feeder's pass is given back.
pub struct GiveBack;

impl Join<View> for GiveBack {
    ghost both = { given_back };

    ghost spent = { Spent };
}

/// A front.
pub struct Front;

impl Play<(), View> for Front {
    ghost then = { Fronts };
}

/// A rear.
pub struct Rear;

impl Play<(), View> for Rear {
    ghost then = { Rears };
}

/// A load of a detector's rears.
pub struct ReadRears;

impl Play<(), View> for ReadRears {
    ghost then = { ReadsRears };
}

/// A load of a detector's fronts.
pub struct ReadFronts;

impl Play<(), View> for ReadFronts {
    ghost then = { ReadsFronts };
}
