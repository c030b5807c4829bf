//! The outside: files, sinks, and what is read and written whole.
#![tactic(auto)]

mod adapters;
mod draft;
mod gate;
mod grow;
mod limits;
mod memory;
mod outside;
mod pieces;
mod sure;
mod version;
mod whole;
mod words;

pub use adapters::{DiskFiles, ErrSink, OutSink, PrintSink};
pub use draft::{Draft, Piece};
pub use gate::{FreeGate, Gate};
pub use grow::GrowSink;
pub use limits::TEXT_LIMIT;
pub use memory::{MemFiles, MemSink};
pub use outside::{Failed, Files, Sink};
pub use pieces::put_each;
pub use sure::{SureFiles, SureSink};
pub use version::put_version;
pub use whole::{PutFault, ReadRefusal, put_all, read_whole};
pub use words::words_of;
