//! The page of an acceptance: what came in a log, against the tables. For each group how often and for how long it was green, red,
//! red-amber and amber; for each pair of the table the seconds from an end of the one group to the next green of the other; and the
//! groups that were green together, though the table lists no intergreen between them.
//!
//! `specs/Came` tells what came in a history, over the whole of it, and `specs/Texts` the text of that.
#![tactic(auto)]

pub mod laws;
mod page;
mod text;
mod together;
mod told;
mod totals;

pub use page::Page;
pub use text::{Sheet, Style, put_head, put_unknown};
pub use together::Together;
pub use told::Told;
pub use totals::{Totals, joined};
