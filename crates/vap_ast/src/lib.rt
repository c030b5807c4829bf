//! The trees of a program, the names in it, how many instructions it takes, and what it means.
#![tactic(auto)]

mod laws;
mod name;
mod sizes;
mod tree;

pub use laws::{first_store_fits, one_meaning, programs_give_few_commands};
pub use name::{Entry, Meaning, Name};
pub use sizes::{add_capped, expr_size, item_size, items_size, own_size};
pub use tree::{
    ArrayDecl, BinaryOp, ConstDecl, Expr, Item, Items, Program, Routine, Stmt, UnaryOp,
};
