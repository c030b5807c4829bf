//! Reads the plan of a junction from a PUA file.
#![tactic(auto)]

mod draft;
mod form;
mod groups;
mod interstages;
mod laws;
mod reader;
mod refusal;
mod section;
mod stages;
mod twins;
mod words;

pub use laws::{interstages_are_their_sections, plan_says_its_rows, plans_are_whole};
pub use reader::read_plan;
pub use refusal::{PuaRefusal, PuaWhy};
