//! What is told of a program that its reader refuses: what stands at the first refused token and what could stand there, and a
//! change with which the reader takes the text.
//!
//! `behind` asks the parser which kinds of tokens could stand there, by a token of each (`probe`); `wanted` puts them, by `kinds`;
//! `sentence` puts what stands there, and finds what of the text is meant; `help` puts the change, and `advice` all together.
//! `specs/Stands` says what could stand, and `specs/Advice` what is told.
#![tactic(auto)]

mod advice;
mod all_kinds;
mod behind;
mod bytes;
mod help;
mod kinds;
mod open;
mod probe;
mod sentence;
mod token;
mod wanted;

pub use advice::{Advice, advise};
pub use behind::{Wanted, wanted_behind};
pub use bytes::put_shown;
