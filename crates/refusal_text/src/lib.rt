//! Why stage commands and turns were refused in a log, in numbers: a row of a table, or a line of words, for each, and how long
//! was waited for what.
//!
//! `specs/Refusals` tells what was refused in a log, over all its records, `specs/Rows` the table, `specs/Lines` the words and
//! `specs/Waits` the sums.
#![tactic(auto)]

mod finder;
pub mod laws;
mod line;
mod refusal;
mod row;
mod sums;
mod text;
mod wait;
mod words;

pub use finder::Refusals;
pub use text::put_refusals;
