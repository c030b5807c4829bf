//! The text of a log: a header that names the signal groups, and a line for each second.
//!
//! A line is `SECOND|STAGE|ASPECTS|COUNTS|REFUSED|FAULT`, ended by LF. `specs/Log` has its fields one by one. The calls
//! write through a buffer of fixed size, their own or the caller's, and take no memory.
#![tactic(auto)]

mod fields;
pub mod laws;
mod log;
mod named;
mod refused;
mod rows;
mod summary;
mod words;

pub use fields::put_fault;
pub use log::{put_header, put_letters, put_second, write_header, write_second};
pub use named::{put_group_name, put_named_turn};
pub use refused::{put_stage_refusal, put_turn};
pub use summary::{Summary, put_summary};
pub use words::{fault_name, letter, rule_name};
