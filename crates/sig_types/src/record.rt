// The record of a second.
use crate::{Fault, Frame, Picture, Second, StagePlace, StageRefusals, TurnRefusals};

/// What was decided in a second: what the log tells of it.
#[derive(Drop)]
pub struct Record {
    /// The second's number, from 1.
    pub second: Second,
    /// The stage or the interstage after the second's commands.
    pub place: StagePlace,
    /// What each group shows.
    pub picture: Picture,
    /// The fronts and rears of the detectors.
    pub frame: Frame,
    /// The refused stage commands, in the order in which they were given.
    pub stages: StageRefusals,
    /// The refused turns, in the order in which they were decided.
    pub turns: TurnRefusals,
    /// The fault of the second's pass, if it ended with one.
    pub fault: Option<Fault>,
}
