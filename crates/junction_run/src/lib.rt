//! The top call of the program: what `junction` answers to its words and its files.
//!
//! `specs/Answers` has the clause of the top call in one record. `specs/Form` says what the words ask for, `specs/Loading` what
//! the files give, `specs/Answer` what is answered with ample memory and where nothing fails, and what a call may answer in its
//! place; `specs/Programs` when a text is a program, `specs/Codes` when it is a code and which text compiling gives,
//! `specs/Records` which log is written, `specs/Guarded` which rules it keeps, `specs/Drawn` which frames a sample has and
//! `specs/Sampled` what it writes, `specs/Audited` what is written of a log that is judged, and `specs/Notes` and
//! `specs/Reasons` have the notes.
//!
//! A function named `judge_` judges a text, one named `take_` reads a file and judges its text, and one named `load_` takes all
//! files of a command, one after the other.
#![tactic(auto)]

mod audit;
mod audit_text;
mod code;
mod compile;
mod draw;
mod file;
mod form;
pub mod laws;
mod load;
mod notes;
mod play;
mod program;
mod reasons;
mod run;
mod sample;
mod seconds;
mod site;
mod status;
mod stop;
mod top;

pub use file::read_file;
pub use form::Source;
pub use load::{Site, load_site, load_source};
pub use notes::{write_stop, write_words};
pub use program::judge_source;
pub use reasons::reason;
pub use run::make_controller;
pub use site::take_site;
pub use site_load::{ReasonText, SiteTables, SiteWords};
pub use status::{Status, exit_status};
pub use stop::{LineReason, LoadStop, PlayStop, Reason, Stop, status_of};
pub use top::junction;
