//! A signal timing diagram as SVG text, in strips of seconds one below the other: the band of stages and interstages, a row for
//! each group with its spans, bars and fronts of detectors, and marks for refused commands and faults.
//!
//! `specs/Diagram` has the whole text, piece by piece over `specs/Svg`, `specs/Axis`, `specs/Band`, `specs/Covers` and `specs/Marks`.
#![tactic(auto)]

mod axis;
mod band;
mod covers;
mod diagram;
mod fronts;
mod groups;
mod head;
mod layout;
mod least;
mod legend;
mod marks;
mod pieces;
mod row;
mod words;

pub use band::put_place;
pub use covers::spans_of;
pub use diagram::{Diagram, put_diagram};
pub use fronts::FrontMark;
pub use layout::{Layout, Sheet};
pub use marks::{FaultMark, RefusalMark, Refused, is_of, put_refused, rule_letter, rule_of};
pub use words::Look;
