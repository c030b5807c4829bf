//! The help of each form of `junction_trace` and of `log_report`: how the form is written, and what its words say.
#![tactic(auto)]

mod asked;
mod report;
mod trace;

pub use asked::help_asked;
pub use report::{ReportForm, report_form, report_line, report_more};
pub use trace::{TraceForm, trace_form, trace_line, trace_more};
