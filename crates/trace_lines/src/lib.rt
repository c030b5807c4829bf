//! What ran of a program, line by line, in the seconds of a run: in how many seconds, how often, and how its tests were answered.
//!
//! `specs/Rows` says which lines a code has, `specs/Seconds` what is seen in the seconds of a run, `specs/Lines` and `specs/Tallied`
//! what is counted of that, and `specs/Csv`, `specs/Lcov` and `specs/Table` what is written.
#![tactic(auto)]

mod csv;
mod lcov;
mod line;
mod pieces;
mod rows;
mod table;
mod tally;

pub use csv::put_csv;
pub use lcov::put_lcov;
pub use line::{Answers, Line};
pub use rows::{Row, rows_of};
pub use table::put_table;
pub use tally::Tally;
