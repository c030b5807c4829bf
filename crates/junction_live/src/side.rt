// What a live run begins with, and what the controller's thread writes.
use controller::Controller;
use det_board::{Board, FeederPass, TickPass};

/// What a live run begins with: a controller, and a board with the feeders' passes and the tick's.
#[derive(Drop)]
pub(crate) struct LiveStart {
    pub(crate) controller: Controller,
    pub(crate) board: Board,
    pub(crate) feeders: Vec<FeederPass>,
    pub(crate) tick: TickPass,
}

/// What the controller's thread writes: the controller, the tick's pass, and who is given the pictures.
#[derive(Drop)]
pub(crate) struct ControllerSide<A> {
    pub(crate) controller: Controller,
    pub(crate) tick: TickPass,
    pub(crate) audience: A,
}
