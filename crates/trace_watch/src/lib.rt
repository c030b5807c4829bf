//! What looks on while a pass runs: how often each statement of a program began and each test was answered yes and no; and what
//! happens in one second, statements, readings with what they gave, tests, assignments, timers and commands.
//!
//! `specs/Places` says where statements and tests stand in a code, `specs/Counted` what is counted of what an observer sees,
//! `specs/Events` what happens, and `specs/Listed` what an observer keeps of it.
#![tactic(auto)]

mod counts;
mod event;
mod list;
mod listing;
mod places;

pub use counts::{Counts, add_counts, spends};
pub use event::{Event, Slot};
pub use listing::Listing;
pub use places::{Mark, statements_in, tests_in};
