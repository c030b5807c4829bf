//! The plan of a junction: its signal groups, its stages and the interstages between them.
#![tactic(auto)]

mod finds;
mod parts;
mod plan;
mod wish;

pub use finds::place_named;
pub use parts::{Group, Interstage, Stage};
pub use plan::Plan;
pub use wish::{leads, wished};
