//! Theorems that join crates, a file for each subject: each law is a function whose contract states it, and nothing stands on them.
//!
//! `logs` says that the logs of runs are read back whole, `pictures` that a log's records and its pictures are read alike, `breaches`
//! what the judge of any log and the audit have to do with each other, `lines` and `prints` which lines of a program run and where its
//! `TRACE` statements stand, `interstages`, `stages` and `waits` how soon trials, runs and guards show what is wished, `programs` that
//! what `junction_trace` tells is of the program in its file, `answers`, `judgements` and `shown` that words and files settle what a call answers,
//! `checks` that what is checked is loaded, `guarded` that outputs are of guarded runs, and `figures` that numbers which stand in two places are one.
#![tactic(auto)]

mod answers;
pub mod breaches;
mod checks;
mod figures;
mod guarded;
mod interstages;
mod judgements;
mod lines;
mod logs;
pub mod pictures;
mod prints;
mod programs;
mod shown;
mod stages;
mod waits;

pub use answers::{junction_has_one_answer, live_has_one_end, net_has_one_answer};
pub use checks::checked_files_are_loaded;
pub use figures::{longest_runs_agree, neighbours_add_up};
pub use guarded::{live_texts_are_judged_safe, net_logs_are_guarded, samples_are_guarded};
pub use interstages::{clean_interstages_end_in_their_stage, stages_settle_where_they_can};
pub use judgements::{judgements_are_one, record_judgements_are_one};
pub use lines::{
    counts_tell_lines, lines_agree, lines_are_seen, source_tells_lines, units_are_spent,
    units_tell_lines,
};
pub use logs::{live_logs_are_read_whole, run_logs_are_read_whole};
pub use prints::traces_stand_there;
pub use programs::{one_program, one_text, trace_has_one_answer};
pub use shown::{diagrams_are_one, sums_are_one};
pub use stages::{programs_steer, steered_runs_reach_their_stage, steered_runs_show_their_stage};
pub use waits::the_worst_case_is_shown;
