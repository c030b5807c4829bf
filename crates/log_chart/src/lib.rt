//! A chart of what the groups of a junction show: for each group the spans of seconds in which it shows one aspect; and the spans
//! of seconds in which a run is at one stage, or in one interstage, or a detector is covered, with its fronts and rears.
//!
//! `specs/Spans` has the definition over pictures, `specs/Laws` what follows from it, and `specs/Covers` that over whole series of
//! fronts and rears.
#![tactic(auto)]

mod chart;
mod cover;
mod covers;
pub mod laws;
mod row;
mod span;
mod stay;

pub use chart::Chart;
pub use cover::Cover;
pub use covers::{no_covers, take_frame};
pub use row::{Shown, show, spans_of};
pub use span::Span;
pub use stay::{add_stay, without_second};
