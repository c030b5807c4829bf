//! What the tests of whole runs share: programs, plans and tables, cases over them in memory, files and sinks that watch how they are
//! called, and gates in which the actors of a live run wait for one another.
#![tactic(auto)]

pub mod cases;
pub mod gates;
pub mod programs;
pub mod sites;
pub mod watched;
