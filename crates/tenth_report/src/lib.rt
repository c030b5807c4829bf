//! The forms of `log_report breaches` and `log_report protocol` that take a record in tenths of a second, by tables in tenths and
//! without a plan.
#![tactic(auto)]

mod call;
mod finding;
mod form;
mod gaps;
mod gathered_text;
mod gathering;
mod pages;
mod search;
mod stop;
mod tables;
mod text;

pub use call::report_record;
pub use form::is_record_call;
pub use stop::RecordStop;
