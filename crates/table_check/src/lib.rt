//! All records of a table that are refused, and not the first alone: by their fields and numbers, and by a plan where there is
//! one; which bytes of a record the reason is about; and where the lines of any file, the records of a table and their fields stand.
//!
//! `lines` finds lines and records, and `fields` the fields of a record, over the bytes alone, as `specs/Lines` and `specs/Fields` say.
//! `rows` reads the records, `judge` judges one of them, and `refused` goes through the table; `specs/Refused` says which are
//! refused, in the words of the tables' readers. `faults` finds what a reason is about in the text of a record, as `specs/Faults`
//! says.
#![tactic(auto)]

mod faults;
mod fields;
mod header;
mod judge;
mod lines;
mod refused;
mod rows;
mod seen;
mod table;

pub use faults::{fault_span, names_span};
pub use fields::{field, fields_span};
pub use lines::{
    Begin, begin_of_record, line_of, lines_in, part_of, piece_at, record_begins, records_in,
};
pub use refused::refused_records;
pub use table::Table;
