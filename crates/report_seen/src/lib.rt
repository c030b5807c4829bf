//! The forms of `log_report` that show what a log holds: its diagram or its text, what it adds up to, as a whole or part by part, and
//! the first second in which two logs differ, with what both add up to, side by side.
#![tactic(auto)]

mod bytes;
mod compare_call;
mod compare_form;
pub mod compare_laws;
mod covers;
mod diagram_call;
mod diagram_form;
mod end;
mod gathering;
mod letters;
mod loading;
mod look;
mod lost;
mod lost_call;
mod lost_text;
mod lost_words;
mod named;
mod parting;
mod serve;
mod stop;
mod summing;
mod sums_call;
mod sums_form;
mod telling;
mod written_logs;

pub use bytes::LogBytes;
pub use compare_call::report_compare;
pub use compare_form::CompareForm;
pub use diagram_call::{report, write_diagram};
pub use diagram_form::{Form, Window, window_of};
pub use gathering::gather;
pub use letters::put_text;
pub use look::look_of;
pub use lost::LostStart;
pub use lost_call::report_lost;
pub use lost_words::{LostForm, lost_form};
pub use named::{FormName, form_begun, form_words, log_named};
pub use parting::add_up_parts;
pub use stop::{Status, Stop, exit_status, status_of, stop_of, write_stop};
pub use summing::add_up;
pub use sums_call::report_sums;
pub use sums_form::SumsForm;
pub use written_logs::a_written_log_is_read_whole;
