//! What the mistake in a refused line is likely to be, by the bytes of the line: `pua` for the PUA file, `tables` for the tables,
//! `program` for the text of a program, `stream` for the detector file. Each looks at what was refused and why, and answers the first
//! slip of its list that the text shows, or none; `specs/` defines which.
#![tactic(auto)]

mod bytes;
mod comments;
mod program;
mod pua;
mod slip;
mod stream;
mod tables;

pub use bytes::trimmed;
pub use program::byte_slip;
pub use pua::{again_slip, row_slip, section_slip};
pub use slip::{ByteSlip, EntrySlip, PlanSlip, TableSlip};
pub use stream::entry_slip;
pub use tables::{Table, header_slip, name_slip, names_in, number_slip};
