//! A stack machine that runs verified code, one pass a second. A pass means what the code means: it is done or
//! ends in a fault, and a fault leaves everything as it was.
#![tactic(auto)]

mod arrays;
mod command_list;
mod head;
mod machine;
mod moves;
mod observer;
mod operands;
mod operators;
mod passes;
mod return_places;
mod run;
mod sight;
mod slots;
mod steps;
mod world;

pub use head::Head;
pub use machine::Machine;
pub use observer::{Observer, Unseen};
pub use passes::{PassEnd, Vm};
pub use sight::Sight;
pub use steps::Steps;
pub use world::World;
