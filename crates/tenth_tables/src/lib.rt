//! The tables of a site in tenths of a second: those of whole seconds, whose numbers may have one decimal.
#![tactic(auto)]

mod intergreens_reader;
mod tables;
mod times_reader;

pub use intergreens_reader::read_tenth_intergreens;
pub use tables::{TenthIntergreens, TenthTimes, limits_of};
pub use times_reader::read_tenth_times;
