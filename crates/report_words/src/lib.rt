//! How a form of `log_report` ends that judges a log by a site, and the note that tells why it stopped.
#![tactic(auto)]

mod note;
mod status;
mod stop;

pub use note::write_stop;
pub use status::{Status, exit_status, status_of};
pub use stop::JudgeStop;
