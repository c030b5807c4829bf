//! The site of a command: its plan and its tables, read and judged one after the other.
//!
//! `specs/Loading` tells what the three files give, and which of them is refused first.
#![tactic(auto)]

mod reason;
mod site;
mod stop;
mod text;

pub use reason::{ReasonText, name_alone, name_of, reason_told, with_one};
pub use site::{SiteTables, SiteWords, take_site};
pub use stop::{Reason, SiteStop};
