//! A live run: feeders play recorded detectors into the words of a board while a controller takes them, second by second.
//!
//! No lock stands between them. What the controller takes is what was loaded of the words, each event is in one second, and
//! no detector has more rears than fronts at any time.
#![tactic(auto)]

mod answer;
mod audience;
mod both;
mod cell;
mod count;
mod feed;
mod feeders;
mod form;
pub mod laws;
mod lines;
mod log;
mod padded;
mod playing;
mod publishing;
mod seconds;
mod side;
mod text;
mod watch;
mod watchers;
mod whole_run;

pub use answer::live;
pub use form::begins_live;
pub use playing::{play, play_watched};
