//! The trees of programs from their tokens.
#![tactic(auto)]

mod cursor;
mod declaration;
mod expression;
mod kind;
mod program;
mod statement;
mod stop;
mod stopped;

pub use kind::{Kind, Reason, all_have_words, kind_of};
pub use program::{ParseRefusal, ParseWhy, one_answer, parse};
pub use stopped::{Refused, first_refused, is_beginning, one_for_all};
