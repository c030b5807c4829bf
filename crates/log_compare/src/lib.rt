//! Two logs compared: the first second in which their records differ, what differs there, and two tables of sums side by side.
//!
//! `specs/Difference` tells what the first difference is, over the two lists of records, and `specs/Sides` what stands beside what.
#![tactic(auto)]

mod alike;
mod difference;
mod fields;
mod lines;
mod long;
mod rows;
mod sides;

pub use difference::{Difference, first_difference, put_difference};
pub use long::put_long;
pub use rows::{Row, rows_of};
pub use sides::{Side, put_sides, sides_of};
