//! The seconds of a run, each of which is told while it is made.
//!
//! `specs/Told` says what is told of all seconds, where this is told of each of them.
#![tactic(auto)]

mod play;
mod teller;

pub use play::{Stop, tell_all};
pub use teller::Teller;
