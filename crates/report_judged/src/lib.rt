//! The forms of `log_report` that judge a log of any controller, of which the past is not known, by a plan and its tables: each breach,
//! what came, why commands and turns were refused, and the diagram with the minimum greens of the table and the names of the plan's
//! stages.
#![tactic(auto)]

mod breach_call;
mod breach_finding;
mod breach_form;
mod protocol_call;
mod protocol_form;
mod protocol_gathering;
mod refusal_call;
mod refusal_finding;
mod refusal_form;
mod site_call;
mod site_form;
mod site_parts;
mod site_stop;

pub use breach_call::report_breaches;
pub use breach_finding::{Found, find_breaches};
pub use breach_form::BreachForm;
pub use protocol_call::report_protocol;
pub use protocol_form::ProtocolForm;
pub use protocol_gathering::{Gathered, gather};
pub use refusal_call::report_refusals;
pub use refusal_finding::find_refusals;
pub use refusal_form::RefusalForm;
pub use site_call::report_site;
pub use site_form::{SiteForm, has_site};
pub use site_stop::{DiagramStop, status_of, write_stop};
