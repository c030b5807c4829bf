//! What is told of the seconds of a run: the values of variables, timers and cells that they leave; the ends of stages, each with the
//! line of the command that ended it; the listing of one second; and what `TRACE` statements print while a pass runs.
//!
//! Of values `specs/Columns` says which a program has and how they are named, `specs/ValueRows` what is written of a second and
//! `specs/Nearest` which name is nearest to a word that names none. Of ends of stages `specs/Ended` says which command of a pass ends
//! the active stage, `specs/EndRows` what is written, `specs/EndLaws` what the commands of a pass are to the run. Of one second
//! `specs/Listing` has the text, `specs/Became` what is said of commands, `specs/Words` how readings and commands are written. Of
//! `TRACE` statements `specs/Brackets` says which tokens stand in their brackets, `specs/Named` which values those name,
//! `specs/Statements` which statements of the tree they are, `specs/Traces` puts these together, and `specs/Printed` says what is
//! printed.
#![tactic(auto)]

mod became;
mod brackets;
mod changes;
mod choice;
mod columns;
pub mod end_laws;
mod end_lines;
mod end_rows;
mod events;
mod kept;
mod listing;
mod named;
mod nearest;
mod print_lines;
mod printing;
mod second;
mod statements;
mod traces;
mod value_rows;
mod words;

pub use brackets::{Brackets, brackets_in};
pub use choice::{NoChoice, choose};
pub use columns::{Column, columns_of, name_of, put_label, put_long};
pub use end_rows::{Ends, put_end_header};
pub use kept::Kept;
pub use named::named_in;
pub use nearest::nearest_name;
pub use printing::Prints;
pub use second::Second;
pub use statements::traces_in;
pub use traces::{Trace, traces_of};
pub use value_rows::{Rows, put_value_header};
