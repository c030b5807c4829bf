//! The compiler: from a checked program to verified code that means the same.
#![tactic(auto)]

mod expressions;
mod labels;
mod program;
mod statements;

pub use program::compile;
