//! Words in which feeders count the fronts and rears of detectors, and which a controller reads while they count.
//!
//! Each front and each rear is one atomic step on a word, and so is each load: nothing waits, and nothing takes memory once
//! the board is made.
#![tactic(auto)]

mod board;
mod close;
pub mod laws;
mod make;
mod rule;
mod tick;
mod totals;
mod view;

pub use board::{Board, FeederPass};
pub use close::end_board;
pub use make::make_board;
pub use tick::TickPass;
