//! What another program's calls add up to: a log, which the cases of `test_told` compare with the one that `run` writes.
#![tactic(auto)]

pub mod logs;
