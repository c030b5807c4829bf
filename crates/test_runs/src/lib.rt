//! Tests of what no file of cases can hold: live runs and several junctions whose actors wait for one another, what differs from run
//! to run, and each of its calls failing in turn; calls of the library that do nothing; the board of detectors and the cell of
//! pictures by one thread; files and sinks that never fail, the system's files, and what is written in pieces.
#![tactic(auto)]

#[cfg(test)]
mod boards;
#[cfg(test)]
mod cells;
#[cfg(test)]
mod live_runs;
#[cfg(test)]
mod nets;
#[cfg(test)]
mod never_failing;
#[cfg(test)]
mod outside;
#[cfg(test)]
mod pieces;
#[cfg(test)]
mod refusals;
#[cfg(test)]
mod sums;
#[cfg(test)]
mod watched_runs;
