//! A record of what signal groups showed, in tenths of a second, read one line after another.
//!
//! The first line is `VAPRECORD 1` and the names of 1 to 64 groups, each after a space. Each further line is a time, a bar and
//! what is shown from that time on: a letter for each group, or `?` where nothing is known. The last line is the end, a time, a
//! bar and `-`. Times are seconds with exactly one decimal, and rise. `specs/Record` says what the lines of a record tell.
#![tactic(auto)]

mod entry;
mod header;
mod line;
mod lines;
mod names;
mod reader;

pub use entry::{Entry, Shown, TenthStop, TenthWhy};
pub use names::plan_of_names;
pub use reader::TenthRecord;
