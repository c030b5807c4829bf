//! The top call of `junction_trace`: what a program does inside.
//!
//! A program at its site is read once and judged as `junction run` judges it, with its text and the names of what it has:
//! `specs/Loaded` says what the files give, and `specs/Kept` what is kept of them.
#![tactic(auto)]

mod again;
mod begin;
mod call;
mod end;
mod form;
mod freed;
mod how_ended;
mod kept;
mod lines;
mod load;
mod prints;
mod program;
mod second;
mod stop;
mod values;

pub use again::load_again;
pub use begin::start;
pub use call::trace;
pub use kept::KeptFiles;
pub use load::{Loaded, load_program};
pub use stop::{Stop, write_stop};
