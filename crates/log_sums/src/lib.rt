//! What a log adds up to, in one pass and without memory for a second: a number at a time, a record at a time, or part by part.
//!
//! Of a group it is how many greens it had and how long they were, its reds, its cycles; of a detector its vehicles, how long it was
//! occupied, its headways; vehicles that came in green; how often stages, refusals and faults came. Where a part of so many seconds is
//! over, the sums of the next one begin with what is known of the past.
//!
//! `specs/Series` has what is counted of a series, `specs/Spells` what series a condition makes, `specs/Groups` and
//! `specs/Detectors` what conditions there are, `specs/ServeSums` what fronts a condition parts; `specs/Summed` has the definition over
//! whole lists of records, and `specs/Parts` that of parts.
#![tactic(auto)]

mod adding;
mod detector;
mod early;
mod figures;
mod gaps;
mod group;
mod items;
mod key;
pub mod laws;
mod long_figures;
mod parts;
mod restart;
mod restart_serves;
mod restart_tallies;
mod serve_sums;
mod serves;
mod spells;
mod sums;
mod tally;

pub use adding::take_record;
pub use detector::DetectorSums;
pub use figures::Figures;
pub use gaps::Gaps;
pub use group::GroupSums;
pub use key::Key;
pub use long_figures::LongFigures;
pub use parts::{PartSums, take_part};
pub use serve_sums::ServeSums;
pub use serves::{Serve, Served};
pub use spells::Spells;
pub use sums::LogSums;
pub use tally::{Counts, Tally, show_items};
