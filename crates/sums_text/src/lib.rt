//! The text of what a log adds up to: a line for each group, stage, interstage, refusal, fault and detector, and of detectors that
//! serve a group, or a table with a row for each number.
#![tactic(auto)]

mod cells;
mod group;
mod group_rows;
mod names;
mod numbers;
mod parts;
mod rows;
mod serve_rows;
mod serves;
mod table;

pub use parts::{put_parts, put_parts_table};
pub use rows::put_sums;
pub use table::put_table;
