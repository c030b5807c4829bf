//! What a log of any controller breaks, with an unknown past before it, and why the turns that it tells as refused were refused.
//!
//! `specs/Breaches` tells which breaches a history has, over the whole of it; `specs/Past` since when a group shows what it shows.
#![tactic(auto)]

mod breach;
mod find;
mod judge;
pub mod laws;
mod opening;
mod past;
mod protocol;
mod whole;
mod why;

pub use breach::Breach;
pub use find::Terms;
pub use judge::Judge;
pub use protocol::{Extremes, Kind, Protocol};
pub use whole::breaches_of;
pub use why::{Asked, Explained, Finding, Reason, explain};
