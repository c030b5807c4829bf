//! The tokens of a program's text.
#![tactic(auto)]

mod piece;
mod scan;
mod token;

pub use piece::LexWhy;
pub use scan::{LexRefusal, one_answer, tokens};
pub use token::{Sign, Token, TokenKind, Tokens};
