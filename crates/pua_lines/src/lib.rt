//! The lines of a PUA file: which of them nearly begin a section, where the parts of its plan stand, how its stages are named, and
//! which sections stand behind its end.
#![tactic(auto)]

mod behind;
mod ends;
mod laws;
mod lines;
mod near;
mod part;
mod parts;
mod place;
mod section;
mod spot;
mod stages;
mod words;

pub use behind::section_behind_end;
pub use laws::{
    group_lines_name_groups, interstage_lines_begin_them, near_is_one_slip,
    stage_lines_name_stages, stage_words_are_names,
};
pub use near::{is_near, is_swapped};
pub use parts::PlanLines;
pub use section::{Misspelt, SectionWord, misspelt_sections};
pub use spot::Spot;
pub use stages::stage_names;
