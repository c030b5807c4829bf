//! The texts of what a log breaks: a row of a table, or a line of words, for each breach, and how often each rule was broken.
//!
//! `specs/Rows` has the table, `specs/Lines` the words.
#![tactic(auto)]

mod line;
mod row;
mod sums;
mod tick;
mod words;

pub use line::{put_breaches, put_lines};
pub use row::{put_columns, put_rows, put_table};
pub use sums::put_sums;
pub use tick::{Tick, put_ticks};
