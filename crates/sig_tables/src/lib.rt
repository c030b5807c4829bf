//! The tables of a site: times and intergreens, read from comma-separated text against a plan.
//!
//! A table is read against a plan, so each row names groups of that plan and the table is "of the plan" as far as this
//! says: it has as many groups as the plan, and group g of the one is group g of the other.
#![tactic(auto)]

mod amounts;
mod header;
mod intergreens;
mod intergreens_reader;
mod limits;
mod records;
mod refusal;
mod times;
mod times_reader;

pub use amounts::{amount, tenths};
pub use header::{Table, read_header};
pub use intergreens::Intergreens;
pub use intergreens_reader::read_intergreens;
pub use limits::Limits;
pub use records::{Records, field};
pub use refusal::{TableRefusal, TableWhy};
pub use times::{Times, TimesRow};
pub use times_reader::read_times;
