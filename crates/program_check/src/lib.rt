//! What a checked program names and never has: variables that nothing assigns, numbers that name no part of the plan, detectors that
//! are none or that a detector file never has. And what it has and never uses or wants: names without a use, counts that are never
//! cleared, a cycle that is never set, detectors that are never read, commands in another stage, names in the place of numbers, numbers
//! that are out of their range, loops that never end, conditions that never hold.
#![tactic(auto)]

mod called;
mod calls;
mod conditions;
mod constants;
mod counted;
mod detectors;
mod lacks;
pub mod laws;
mod loops;
mod misuses;
mod named;
mod parts;
mod program;
mod stages;
mod unread;
mod uses;
mod warnings;

pub use calls::CallKind;
pub use constants::constant_value;
pub use counted::{Count, Ways, command_ways};
pub use lacks::Lack;
pub use program::program_warnings;
pub use warnings::{Meant, PlanPart, ProgramWarning, Warned};
